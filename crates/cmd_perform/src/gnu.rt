//! `gnu FILE N`: rewrites the GNU C++ unwind tables of an image as compact ones, and checks the rewritten image. If it is accepted it is
//! run, and its landing pads are given what GNU code expects (docs/guide/command-line.md, docs/rules/gnu-tables.md).
ghost use Rattle.std.specs.Prelude.{◌≡◌, Some, Ok, Err, IsOk, IfOk, MatchResult, true, false};
ghost use Rattle.std.specs.List.Sorted.{IsStrictlySortedBy};
ghost use Rattle.std.specs.Ordering.{nat_cmp};
ghost use Rattle.std.specs.Map.{keys_of};
ghost use Rattle.eh_index.specs.Refusal.{index_refusal};
ghost use Rattle.elf_image.specs.Image.{image_of};
ghost use Rattle.gnu_rewrite.specs.Refusal.{translation_refusal};
ghost use Rattle.cmd_input.specs.Accepting.{BytesReportsBy, IsUnaccepted};
ghost use Rattle.cmd_input.specs.AsksFor.{AsksFor, FindingLacks};
ghost use Rattle.cmd_input.specs.Building.{is_memory, fault_line};
ghost use Rattle.cmd_input.specs.Finding.{Finds};
ghost use Rattle.cmd_perform.specs.GnuReport.{GnuAccepted, by_index, by_tables, gnu_program_or_refusal, rewritten_bytes, gnu_program_of_last, gnu_program_view};
ghost use Rattle.cmd_perform.specs.Report.{Does};
ghost use Rattle.cmd_input.specs.Words.{RunGnu};
ghost use Rattle.cmd_perform.specs.Yields.{Yields, streams};
ghost use Rattle.cmd_answers.specs.Files.{file_state};
ghost use Rattle.cmd_answers.specs.Words.{texts};

use crate::answer::answer_run;
use crate::recorded::gnu_same;
use crate::threads::last_bytes;
use cmd_answers::Stop;
use cmd_input::accept::{accept_bytes, answer_refused};
use cmd_input::build::written_bytes;
use cmd_input::named::SourceText;
use cmd_input::refusal::{BuildFault, FilesFault, answer_files_fault, is_memory};
use cmd_input::sources::{LoadedFiles, load};
use eh_index::Index;
use eh_machine::Machine;
use eh_port::{Files, Sink, Source};
use elf_image::Image;
use elf_image::read::read_image;
use frame_check::Accepted;
use gnu_machine::gnu_run;
use gnu_rewrite::translate;
use std::alloc::Global;

/// The program that the file of `gnu` gives.
#[derive(Drop)]
pub(crate) struct GnuProgram {
    /// The file bytes of the rewritten image.
    pub(crate) image: Vec<u8>,
    /// The address of each catch descriptor that has a filter, with the filter, in rising order of the addresses.
    pub(crate) filters: Vec<(u32, u32)>,
}

// The rewritten image, from an index that was read.
fn by_tables<'a>(alloc: Global, index: &Index) -> Result<GnuProgram, BuildFault<'a>>
    ensures is { let answer = by_tables index.now (translation_refusal index.now) in
        MatchResult result (λ program. answer ≡ Ok (gnu_program_view program)) (λ fault. is_memory fault ≡ false → answer ≡ Err (fault_line fault)) }
    ensures rising { IfOk result (λ program. IsStrictlySortedBy nat_cmp (keys_of program.filters.items)) }
{
    match translate(alloc, index.image(), index) {
        Ok(translated) => {
            let image = written_bytes(alloc, &translated.parts)?;
            Ok(GnuProgram {
                image,
                filters: translated.filters,
            })
        }
        Err(fault) => Err(BuildFault::InTables(fault)),
    }
}

// Reads the index of an image and rewrites the image.
fn by_index<'a>(alloc: Global, image: &Image) -> Result<GnuProgram, BuildFault<'a>>
    ensures is { let answer = by_index image.now (index_refusal image.now) in
        MatchResult result (λ program. answer ≡ Ok (gnu_program_view program)) (λ fault. is_memory fault ≡ false → answer ≡ Err (fault_line fault)) }
    ensures rising { IfOk result (λ program. IsStrictlySortedBy nat_cmp (keys_of program.filters.items)) }
{
    match Index::read(image) {
        Ok(index) => by_tables(alloc, &index),
        Err(fault) => Err(BuildFault::InIndex(fault)),
    }
}

// The rewritten image of the image that these bytes are.
#[tactic(auto, unfolding(crate::specs::GnuReport::rewritten_bytes))]
fn rewritten_bytes<'a>(alloc: Global, bytes: &[u8]) -> Result<GnuProgram, BuildFault<'a>>
    ensures is { let answer = rewritten_bytes bytes.now in
        MatchResult result (λ program. answer ≡ Ok (gnu_program_view program)) (λ fault. is_memory fault ≡ false → answer ≡ Err (fault_line fault)) }
    ensures rising { IfOk result (λ program. IsStrictlySortedBy nat_cmp (keys_of program.filters.items)) }
{
    match read_image(alloc, bytes) {
        Ok(image) => by_index(alloc, &image),
        Err(fault) => Err(BuildFault::InImage(fault)),
    }
}

// The rewritten image of the last of these files.
#[tactic(auto, unfolding(crate::specs::GnuReport::gnu_program_of_last))]
fn rewritten_last<'a>(
    alloc: Global,
    files: Vec<SourceText<'a>>,
) -> Result<GnuProgram, BuildFault<'a>>
    ensures is { let answer = gnu_program_of_last files.entry.items in
        MatchResult result (λ program. answer ≡ Ok (gnu_program_view program)) (λ fault. is_memory fault ≡ false → answer ≡ Err (fault_line fault)) }
    ensures rising { IfOk result (λ program. IsStrictlySortedBy nat_cmp (keys_of program.filters.items)) }
{
    let bytes = last_bytes(alloc, files);
    rewritten_bytes(alloc, bytes.as_slice())
}

// The program that the file of this name gives, or why it gives none.
fn gnu_program_or_refusal<'a, F: Files>(
    alloc: Global,
    names: &[&'a str],
    files: &mut F,
) -> Result<Result<GnuProgram, FilesFault<'a>>, Stop>
    ensures found { Finds gnu_program_view (gnu_program_or_refusal (texts names.now)) (file_state (F.held files.old) (F.faults files.old) (F.asked files.old) F.with_name) (file_state (F.held files.new) (F.faults files.new) (F.asked files.new) F.with_name) result }
    ensures asked { AsksFor (texts names.now) (IsOk result) (FindingLacks result) (file_state (F.held files.old) (F.faults files.old) (F.asked files.old) F.with_name) (file_state (F.held files.new) (F.faults files.new) (F.asked files.new) F.with_name) }
    ensures rising { IfOk result (λ answer. IfOk answer (λ program. IsStrictlySortedBy nat_cmp (keys_of program.filters.items))) }
{
    let all = match load(alloc, names, files)? {
        LoadedFiles::All(all) => all,
        LoadedFiles::Lacks(name) => return Ok(Err(FilesFault::Missing(name))),
        LoadedFiles::Exceeds(name) => return Ok(Err(FilesFault::TooLong(name))),
    };
    match rewritten_last(alloc, all) {
        Ok(program) => Ok(Ok(program)),
        Err(fault) => {
            if is_memory(&fault) {
                return Err(Stop::Memory);
            }
            Ok(Err(FilesFault::Sources(fault)))
        }
    }
}

// Runs an accepted rewritten image.
fn gnu_accepted<I: Source, O: Sink>(
    alloc: Global,
    accepted: &Accepted,
    filters: &[(u32, u32)],
    budget: u64,
    input: &mut I,
    out: &mut O,
) -> Result<u8, Stop>
    requires { IsStrictlySortedBy nat_cmp (keys_of filters.now) }
    ensures { Yields (GnuAccepted filters.now budget accepted.now) ⊥
        (streams (I.left input.old) (I.faults input.old) (O.written out.old) (O.faults out.old))
        (streams (I.left input.new) (I.faults input.new) (O.written out.new) (O.faults out.new)) result }
{
    let mut machine = match Machine::start(alloc, accepted, budget) {
        Ok(machine) => machine,
        Err(_) => return Err(Stop::Memory),
    };
    gnu_same(accepted, filters, &machine.shared.bus);
    let end = gnu_run(&mut machine, filters, input, out);
    answer_run(alloc, out, accepted, machine.events(), end)
}

// Runs the rewritten image that these bytes are, if it is accepted.
fn gnu_bytes<I: Source, O: Sink>(
    alloc: Global,
    bytes: &[u8],
    filters: &[(u32, u32)],
    budget: u64,
    input: &mut I,
    out: &mut O,
) -> Result<u8, Stop>
    requires { IsStrictlySortedBy nat_cmp (keys_of filters.now) }
    ensures { Yields (BytesReportsBy (GnuAccepted filters.now budget) bytes.now) (IsUnaccepted bytes.now)
        (streams (I.left input.old) (I.faults input.old) (O.written out.old) (O.faults out.old))
        (streams (I.left input.new) (I.faults input.new) (O.written out.new) (O.faults out.new)) result }
{
    match accept_bytes(alloc, bytes) {
        Ok(Ok(accepted)) => gnu_accepted(alloc, &accepted, filters, budget, input, out),
        Ok(Err(fault)) => answer_refused(alloc, out, &fault),
        Err(stop) => Err(stop),
    }
}

/// Rewrites the tables of the image in a file, and runs it.
pub(crate) fn gnu<F: Files, I: Source, O: Sink>(
    alloc: Global,
    name: &str,
    budget: u64,
    files: &mut F,
    input: &mut I,
    out: &mut O,
) -> Result<u8, Stop>
    ensures { Does (Some (RunGnu name.now budget)) (file_state (F.held files.old) (F.faults files.old) (F.asked files.old) F.with_name) (file_state (F.held files.new) (F.faults files.new) (F.asked files.new) F.with_name)
        (streams (I.left input.old) (I.faults input.old) (O.written out.old) (O.faults out.old))
        (streams (I.left input.new) (I.faults input.new) (O.written out.new) (O.faults out.new)) result }
{
    match gnu_program_or_refusal(alloc, &[name], files) {
        Ok(Ok(program)) => gnu_bytes(
            alloc,
            program.image.as_slice(),
            program.filters.as_slice(),
            budget,
            input,
            out,
        ),
        Ok(Err(fault)) => answer_files_fault(out, &fault),
        Err(stop) => Err(stop),
    }
}
