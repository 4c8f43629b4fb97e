//! `run FILE N`, `run FILE.. N`, and `walk` and `force` with these words: checks an image, or the one built from sources, and runs it if it
//! is accepted (docs/guide/command-line.md).
ghost use Rattle.std.specs.Prelude.{Some};
ghost use Rattle.cmd_perform.specs.Report.{Does};
ghost use Rattle.cmd_perform.specs.RunReport.{RunsAccepted};
ghost use Rattle.cmd_perform.specs.TaskReport.{RunBytesReports, RunBytesRefuse, DoesTask, PinsTask};
ghost use Rattle.cmd_input.specs.Words.{RunFile, RunSources};
ghost use Rattle.cmd_answers.specs.Words.{texts};
ghost use Rattle.cmd_perform.specs.Yields.{Yields, YieldsBy, streams};
ghost use Rattle.cmd_answers.specs.Files.{file_state};

use crate::answer::answer_run;
use crate::force::force_accepted;
use crate::recorded::runs_same;
use crate::walk::walk_accepted;
use cmd_answers::Stop;
use cmd_input::accept::{accept_bytes, answer_refused};
use cmd_input::build::built_files;
use cmd_input::refusal::answer_files_fault;
use cmd_input::sources::read_file;
use cmd_input::words::{Request, Task};
use eh_machine::Machine;
use eh_port::{Files, Sink, Source};
use frame_check::Accepted;
use std::alloc::Global;

// Runs an accepted image.
fn run_accepted<I: Source, O: Sink>(
    alloc: Global,
    accepted: &Accepted,
    budget: u64,
    input: &mut I,
    out: &mut O,
) -> Result<u8, Stop>
    ensures { Yields (RunsAccepted budget accepted.now) ⊥
        (streams (I.left input.old) (I.faults input.old) (O.written out.old) (O.faults out.old))
        (streams (I.left input.new) (I.faults input.new) (O.written out.new) (O.faults out.new)) result }
{
    let mut machine = match Machine::start(alloc, accepted, budget) {
        Ok(machine) => machine,
        Err(_) => return Err(Stop::Memory),
    };
    runs_same(accepted, &machine.shared.bus);
    let end = machine.run(input, out);
    answer_run(alloc, out, accepted, machine.events(), end)
}

// Does what is asked of an accepted image.
fn do_task<I: Source, O: Sink>(
    alloc: Global,
    accepted: &Accepted,
    request: Request,
    input: &mut I,
    out: &mut O,
) -> Result<u8, Stop>
    ensures { YieldsBy (DoesTask request accepted.now) (PinsTask request accepted.now)
        (streams (I.left input.old) (I.faults input.old) (O.written out.old) (O.faults out.old))
        (streams (I.left input.new) (I.faults input.new) (O.written out.new) (O.faults out.new)) result }
{
    match request.task {
        Task::Run => run_accepted(alloc, accepted, request.budget, input, out),
        Task::Walk => walk_accepted(alloc, accepted, request.budget, input, out),
        Task::Force(number) => force_accepted(alloc, accepted, number, request.budget, input, out),
    }
}

// Runs the image that these bytes are, if it is accepted.
fn run_bytes<I: Source, O: Sink>(
    alloc: Global,
    bytes: &[u8],
    request: Request,
    input: &mut I,
    out: &mut O,
) -> Result<u8, Stop>
    ensures { YieldsBy (RunBytesReports request bytes.now) (RunBytesRefuse request bytes.now)
        (streams (I.left input.old) (I.faults input.old) (O.written out.old) (O.faults out.old))
        (streams (I.left input.new) (I.faults input.new) (O.written out.new) (O.faults out.new)) result }
{
    match accept_bytes(alloc, bytes) {
        Ok(Ok(accepted)) => do_task(alloc, &accepted, request, input, out),
        Ok(Err(fault)) => answer_refused(alloc, out, &fault),
        Err(stop) => Err(stop),
    }
}

/// Runs the image in a file.
pub(crate) fn run<F: Files, I: Source, O: Sink>(
    alloc: Global,
    name: &str,
    request: Request,
    files: &mut F,
    input: &mut I,
    out: &mut O,
) -> Result<u8, Stop>
    ensures { Does (Some (RunFile name.now request)) (file_state (F.held files.old) (F.faults files.old) (F.asked files.old) F.with_name) (file_state (F.held files.new) (F.faults files.new) (F.asked files.new) F.with_name)
        (streams (I.left input.old) (I.faults input.old) (O.written out.old) (O.faults out.old))
        (streams (I.left input.new) (I.faults input.new) (O.written out.new) (O.faults out.new)) result }
{
    match read_file(alloc, name, files) {
        Ok(Ok(bytes)) => run_bytes(alloc, bytes.as_slice(), request, input, out),
        Ok(Err(fault)) => answer_files_fault(out, &fault),
        Err(stop) => Err(stop),
    }
}

/// Runs the image built from the sources of these names.
pub(crate) fn run_sources<F: Files, I: Source, O: Sink>(
    alloc: Global,
    names: &[&str],
    request: Request,
    files: &mut F,
    input: &mut I,
    out: &mut O,
) -> Result<u8, Stop>
    ensures { Does (Some (RunSources (texts names.now) request)) (file_state (F.held files.old) (F.faults files.old) (F.asked files.old) F.with_name) (file_state (F.held files.new) (F.faults files.new) (F.asked files.new) F.with_name)
        (streams (I.left input.old) (I.faults input.old) (O.written out.old) (O.faults out.old))
        (streams (I.left input.new) (I.faults input.new) (O.written out.new) (O.faults out.new)) result }
{
    match built_files(alloc, names, files) {
        Ok(Ok(bytes)) => run_bytes(alloc, bytes.as_slice(), request, input, out),
        Ok(Err(fault)) => answer_files_fault(out, &fault),
        Err(stop) => Err(stop),
    }
}
