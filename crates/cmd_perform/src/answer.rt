//! What the program writes at the end of a run.
ghost use Rattle.std.specs.Prelude.{◌≡◌, ◌<◌, ℕ, All, IfOk, IfErr, IsErrOf, MatchResult, true, false};
ghost use Rattle.cmd_input.specs.Loading.{closing_of, status_of, stop_of_fault};
ghost use Rattle.cmd_perform.specs.Writes.{AnswersRun};
ghost use Rattle.cmd_perform.specs.Text.{summary};
ghost use Rattle.cmd_perform.specs.RunReport.{trace_section};
ghost use Rattle.cmd_perform.specs.ThreadsReport.{threads_trace};
ghost use Rattle.thread_schedule.specs.declared.tags.TheConstants.{TAGS};
ghost use Rattle.cmd_answers.specs.declared.stop.Stop.TheVariants.{Memory};
ghost use Rattle.run_gates.specs.Ends.{is_fault};
ghost use Rattle.thread_schedule.specs.Tags.{tag_text};
ghost use Rattle.eh_trace.specs.Text.{trace_text};
ghost use Rattle.eh_types.specs.Graph.{name_of};

use crate::summary::summary_lines;
use cmd_answers::Stop;
use cmd_answers::answer::{answer_both, answer_three};
use cmd_answers::status::{BUDGET_SPENT, DONE, EXIT_NONZERO, TERMINATED, TRAPPED};
use cmd_lines::end_line;
use eh_port::Sink;
use eh_trace::{Events, trace_lines};
use frame_check::Accepted;
use std::alloc::Global;
use thread_schedule::tag_lines;
use thumb_core::ends::End;

// The status of an end; or the stop, for a fault of the input or of the output.
fn status_of(end: End) -> Result<u8, Stop>
    ensures ok { IfOk result (λ status. (is_fault end ≡ false) × (status ≡ status_of end)) }
    ensures err { IfErr result (λ stop. (is_fault end ≡ true) × (stop ≡ stop_of_fault end)) }
{
    match end {
        End::Exit(number) => Ok(if number == 0 { DONE } else { EXIT_NONZERO }),
        End::Terminate(_) => Ok(TERMINATED),
        End::Trap(_, _, _) => Ok(TRAPPED),
        End::Budget => Ok(BUDGET_SPENT),
        End::ReadFault => Err(Stop::Read),
        End::WriteFault => Err(Stop::Write),
    }
}

/// Ends a run: writes `head` after the guest's bytes, and the line of the run's end, and returns its status. For a fault of input or output
/// gives the stop. Takes no memory.
pub(crate) fn answer_end<O: Sink>(out: &mut O, head: &[u8], end: End) -> Result<u8, Stop>
    ensures does { AnswersRun (closing_of head.now end) end result (O.written out.old) (O.written out.new) (O.faults out.old) (O.faults out.new) }
    ensures free { IsErrOf result Memory → ⊥ }
{
    match status_of(end) {
        Ok(status) => answer_both(out, head, end_line(end).as_slice(), status),
        Err(stop) => Err(stop),
    }
}

/// Ends a run of an accepted image: writes its trace after the guest's bytes, and the line of its end, and returns its status. For a fault
/// of input or output gives the stop.
pub(crate) fn answer_run<O: Sink>(
    alloc: Global,
    out: &mut O,
    accepted: &Accepted,
    events: &Events,
    end: End,
) -> Result<u8, Stop>
    ensures { AnswersRun (closing_of (trace_section accepted.now events.now) end) end result (O.written out.old) (O.written out.new) (O.faults out.old) (O.faults out.new) }
{
    let status = match status_of(end) {
        Ok(status) => status,
        Err(stop) => return Err(stop),
    };
    match trace_lines(alloc, accepted.image(), accepted.types(), events) {
        Ok(lines) => answer_three(
            out,
            b"\n-- trace\n",
            lines.as_slice(),
            end_line(end).as_slice(),
            status,
        ),
        Err(_) => Err(Stop::Memory),
    }
}

/// Ends a run whose events are counted: writes how many functions there are and how many events came, and the line of its end, and returns
/// its status. For a fault of input or output gives the stop.
pub(crate) fn answer_summary<O: Sink>(
    alloc: Global,
    out: &mut O,
    functions: usize,
    events: &Events,
    end: End,
) -> Result<u8, Stop>
    ensures { AnswersRun (closing_of (summary functions events.now) end) end result (O.written out.old) (O.written out.new) (O.faults out.old) (O.faults out.new) }
{
    let status = match status_of(end) {
        Ok(status) => status,
        Err(stop) => return Err(stop),
    };
    match summary_lines(alloc, functions, events) {
        Ok(lines) => answer_both(out, lines.as_slice(), end_line(end).as_slice(), status),
        Err(_) => Err(Stop::Memory),
    }
}

// The lines of the trace, each with its thread number in front.
fn tagged_trace(
    alloc: Global,
    accepted: &Accepted,
    events: &Events,
    tags: &[u8],
) -> Result<Vec<u8>, Stop>
    requires { All (λ (tag : ℕ). tag < TAGS) tags.now }
    ensures { MatchResult result (λ lines. lines.items ≡ tag_text tags.now (trace_text accepted.now.image (name_of accepted.now.types) events.now)) (λ stop. stop ≡ Memory) }
{
    let lines = match trace_lines(alloc, accepted.image(), accepted.types(), events) {
        Ok(lines) => lines,
        Err(_) => return Err(Stop::Memory),
    };
    match tag_lines(alloc, lines.as_slice(), tags) {
        Ok(lines) => Ok(lines),
        Err(_) => Err(Stop::Memory),
    }
}

/// Ends a run of threads of an accepted image: writes its trace after the guest's bytes, each line with its thread before it, and the line
/// of its end. Returns its status. For a fault of input or output gives the stop.
pub(crate) fn answer_threads<O: Sink>(
    alloc: Global,
    out: &mut O,
    accepted: &Accepted,
    events: &Events,
    tags: &[u8],
    end: End,
) -> Result<u8, Stop>
    requires { All (λ (tag : ℕ). tag < TAGS) tags.now }
    ensures { AnswersRun (closing_of (threads_trace accepted.now events.now tags.now) end) end result (O.written out.old) (O.written out.new) (O.faults out.old) (O.faults out.new) }
{
    let status = match status_of(end) {
        Ok(status) => status,
        Err(stop) => return Err(stop),
    };
    match tagged_trace(alloc, accepted, events, tags) {
        Ok(lines) => answer_three(
            out,
            b"\n-- trace\n",
            lines.as_slice(),
            end_line(end).as_slice(),
            status,
        ),
        Err(stop) => Err(stop),
    }
}
