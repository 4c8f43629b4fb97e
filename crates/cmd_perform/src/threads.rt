//! `threads FILE.. SCHED N`: checks an image, or the one built from sources. If it is accepted it is run as threads, by the schedule in the
//! last file (docs/guide/walks-and-threads.md, "Threads").
ghost use Rattle.std.specs.Prelude.{◌≡◌, Some, Ok, Err, IsOk, MatchResult, true, false};
ghost use Rattle.cmd_input.specs.Accepting.{BytesReportsBy, IsUnaccepted};
ghost use Rattle.cmd_input.specs.AsksFor.{AsksFor, FindingLacks};
ghost use Rattle.cmd_input.specs.Building.{is_memory, fault_line};
ghost use Rattle.cmd_input.specs.Finding.{Finds};
ghost use Rattle.cmd_perform.specs.Report.{Does};
ghost use Rattle.cmd_input.specs.Sources.{NamedText};
ghost use Rattle.cmd_perform.specs.ThreadsReport.{ThreadsAccepted, digits_of, thread_program_view, is_image, last_file, program_bytes, thread_program_of, thread_program_from, thread_program_or_refusal};
ghost use Rattle.cmd_input.specs.Words.{RunThreads};
ghost use Rattle.cmd_perform.specs.Yields.{Yields, streams};
ghost use Rattle.cmd_answers.specs.Files.{file_state};
ghost use Rattle.cmd_answers.specs.Words.{texts};

use crate::answer::answer_threads;
use crate::recorded::threads_same;
use cmd_answers::Stop;
use cmd_input::accept::{accept_bytes, answer_refused};
use cmd_input::build::build_image;
use cmd_input::named::SourceText;
use cmd_input::refusal::{BuildFault, FilesFault, answer_files_fault, is_memory};
use cmd_input::sources::{LoadedFiles, load};
use cmd_input::words::is_source;
use eh_port::{Bytes, Files, Sink, Source};
use eh_threads::Threads;
use frame_check::Accepted;
use std::alloc::Global;
use thread_schedule::{ScheduleFault, read_schedule};

/// What the files of `threads` hold.
#[derive(Drop)]
pub(crate) struct ThreadProgram {
    /// The file bytes of the image.
    pub(crate) image: Bytes,
    /// The digits of the schedule.
    pub(crate) digits: Vec<u8>,
}

// Whether there is one file, and it isn't a source.
fn is_image(files: &[SourceText]) -> bool
    ensures { result ≡ is_image files.now }
{
    match files {
        [file] => !is_source(file.name()),
        _ => false,
    }
}

/// The bytes of the last file; no bytes if there is no file.
pub(crate) fn last_bytes(alloc: Global, mut files: Vec<SourceText>) -> Bytes
    ensures { result ≡ (last_file files.entry.items).text }
{
    match files.pop() {
        Some(file) => file.into_text(),
        None => Bytes::of_vec(Vec::new(alloc)),
    }
}

// The bytes of a program's image: of the one file if it is no source, otherwise of the image built from the sources.
fn program_bytes<'a>(alloc: Global, files: Vec<SourceText<'a>>) -> Result<Bytes, BuildFault<'a>>
    ensures { MatchResult result (λ bytes. program_bytes files.entry.items ≡ Ok bytes)
        (λ fault. is_memory fault ≡ false → program_bytes files.entry.items ≡ Err (fault_line fault)) }
{
    if is_image(files.as_slice()) {
        return Ok(last_bytes(alloc, files));
    }
    let bytes = build_image(alloc, files)?;
    Ok(Bytes::of_vec(bytes))
}

// The digits of the schedule in the file of a name.
fn digits_of<'a>(alloc: Global, name: &'a str, text: &[u8]) -> Result<Vec<u8>, BuildFault<'a>>
    ensures { let file : NamedText = record { name = name.now; text = text.now } in
        MatchResult result (λ digits. digits_of file ≡ Ok digits.items) (λ fault. is_memory fault ≡ false → digits_of file ≡ Err (fault_line fault)) }
{
    match read_schedule(alloc, text) {
        Ok(digits) => Ok(digits),
        Err(ScheduleFault::BadSchedule(at)) => Err(BuildFault::InSchedule(name, at)),
        Err(ScheduleFault::OutOfMemory) => Err(BuildFault::OutOfMemory),
    }
}

// The image of a program and the digits of a schedule. The schedule is read first, so its refusal comes first.
fn thread_program_from<'a>(
    alloc: Global,
    program: Vec<SourceText<'a>>,
    schedule: SourceText<'a>,
) -> Result<ThreadProgram, BuildFault<'a>>
    ensures { let answer = thread_program_from program.entry.items schedule.entry in
        MatchResult result (λ found. answer ≡ Ok (thread_program_view found)) (λ fault. is_memory fault ≡ false → answer ≡ Err (fault_line fault)) }
{
    let digits = digits_of(alloc, schedule.name(), schedule.text())?;
    // what isn't needed any more is freed before more is allocated
    drop(schedule);
    let image = program_bytes(alloc, program)?;
    Ok(ThreadProgram { image, digits })
}

// The same for files of which the last holds the schedule. If there is no file, an empty schedule under an empty name is refused.
fn thread_program_of<'a>(
    alloc: Global,
    mut files: Vec<SourceText<'a>>,
) -> Result<ThreadProgram, BuildFault<'a>>
    ensures { MatchResult result (λ found. thread_program_of files.entry.items ≡ Ok (thread_program_view found))
        (λ fault. is_memory fault ≡ false → thread_program_of files.entry.items ≡ Err (fault_line fault)) }
{
    match files.pop() {
        Some(schedule) => thread_program_from(alloc, files, schedule),
        None => Err(BuildFault::InSchedule("", 0)),
    }
}

// What the files of these names give, the last of them a schedule; or why they give nothing.
fn thread_program_or_refusal<'a, F: Files>(
    alloc: Global,
    names: &[&'a str],
    files: &mut F,
) -> Result<Result<ThreadProgram, FilesFault<'a>>, Stop>
    ensures found { Finds thread_program_view (thread_program_or_refusal (texts names.now)) (file_state (F.held files.old) (F.faults files.old) (F.asked files.old) F.with_name) (file_state (F.held files.new) (F.faults files.new) (F.asked files.new) F.with_name) result }
    ensures asked { AsksFor (texts names.now) (IsOk result) (FindingLacks result) (file_state (F.held files.old) (F.faults files.old) (F.asked files.old) F.with_name) (file_state (F.held files.new) (F.faults files.new) (F.asked files.new) F.with_name) }
{
    let all = match load(alloc, names, files)? {
        LoadedFiles::All(all) => all,
        LoadedFiles::Lacks(name) => return Ok(Err(FilesFault::Missing(name))),
        LoadedFiles::Exceeds(name) => return Ok(Err(FilesFault::TooLong(name))),
    };
    match thread_program_of(alloc, all) {
        Ok(program) => Ok(Ok(program)),
        Err(fault) => {
            if is_memory(&fault) {
                return Err(Stop::Memory);
            }
            Ok(Err(FilesFault::Sources(fault)))
        }
    }
}

// Runs an accepted image as threads. A call of its own, so that its loop shares no registers with the rest of the program.
#[inline(never)]
fn threads_accepted<I: Source, O: Sink>(
    alloc: Global,
    accepted: &Accepted,
    digits: &[u8],
    budget: u64,
    input: &mut I,
    out: &mut O,
) -> Result<u8, Stop>
    ensures { Yields (ThreadsAccepted digits.now budget accepted.now) ⊥
        (streams (I.left input.old) (I.faults input.old) (O.written out.old) (O.faults out.old))
        (streams (I.left input.new) (I.faults input.new) (O.written out.new) (O.faults out.new)) result }
{
    let mut threads = match Threads::start(alloc, accepted) {
        Ok(threads) => threads,
        Err(_) => return Err(Stop::Memory),
    };
    threads_same(accepted, &threads.shared.bus);
    let end = threads.run_schedule(digits, budget, input, out);
    answer_threads(
        alloc,
        out,
        accepted,
        &threads.events,
        threads.tags.as_slice(),
        end,
    )
}

// Runs the image that these bytes are as threads, if it is accepted.
fn threads_bytes<I: Source, O: Sink>(
    alloc: Global,
    bytes: &[u8],
    digits: &[u8],
    budget: u64,
    input: &mut I,
    out: &mut O,
) -> Result<u8, Stop>
    ensures { Yields (BytesReportsBy (ThreadsAccepted digits.now budget) bytes.now) (IsUnaccepted bytes.now)
        (streams (I.left input.old) (I.faults input.old) (O.written out.old) (O.faults out.old))
        (streams (I.left input.new) (I.faults input.new) (O.written out.new) (O.faults out.new)) result }
{
    match accept_bytes(alloc, bytes) {
        Ok(Ok(accepted)) => threads_accepted(alloc, &accepted, digits, budget, input, out),
        Ok(Err(fault)) => answer_refused(alloc, out, &fault),
        Err(stop) => Err(stop),
    }
}

/// Runs as threads the image in a file, or the one built from sources, by the schedule in the last file.
pub(crate) fn threads<F: Files, I: Source, O: Sink>(
    alloc: Global,
    names: &[&str],
    budget: u64,
    files: &mut F,
    input: &mut I,
    out: &mut O,
) -> Result<u8, Stop>
    ensures { Does (Some (RunThreads (texts names.now) budget)) (file_state (F.held files.old) (F.faults files.old) (F.asked files.old) F.with_name) (file_state (F.held files.new) (F.faults files.new) (F.asked files.new) F.with_name)
        (streams (I.left input.old) (I.faults input.old) (O.written out.old) (O.faults out.old))
        (streams (I.left input.new) (I.faults input.new) (O.written out.new) (O.faults out.new)) result }
{
    match thread_program_or_refusal(alloc, names, files) {
        Ok(Ok(program)) => threads_bytes(
            alloc,
            program.image.as_slice(),
            program.digits.as_slice(),
            budget,
            input,
            out,
        ),
        Ok(Err(fault)) => answer_files_fault(out, &fault),
        Err(stop) => Err(stop),
    }
}
