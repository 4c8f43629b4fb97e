//! `walk FILE N` and `walk FILE.. N`: runs an accepted image to a site, and writes the frames from there (docs/guide/walks-and-threads.md, "A walk").
ghost use Rattle.cmd_perform.specs.WalkReport.{WalksAccepted, bytes_walk, walk_closing, frames_report_by};
ghost use Rattle.cmd_perform.specs.Writes.{AnswersRun};
ghost use Rattle.cmd_perform.specs.Yields.{Yields, streams};
ghost use Rattle.eh_gates.specs.State.{state_of};
ghost use Rattle.thumb_core.specs.declared.ends.End.TheVariants.{Budget};

use crate::answer::answer_run;
use crate::recorded::walks_same;
use cmd_answers::Stop;
use cmd_answers::answer::answer_three;
use cmd_answers::status::DONE;
use eh_bus::bus::Bus;
use eh_machine::Machine;
use eh_port::{Sink, Source};
use eh_trace::{Events, trace_lines};
use eh_walk::{Backtrace, WalkEnd, backtrace, run_to_site, walk_lines};
use frame_check::Accepted;
use std::alloc::Global;
use thumb_core::ends::End;

/// The greatest number of frames of a walk: more than the stack has words.
pub const MOST_FRAMES: usize = 65_536;

// Ends a run at the place where this walk begins: writes its trace and the frames after the guest's bytes. At no site it ends as a run
// whose budget is spent.
fn answer_frames<O: Sink>(
    alloc: Global,
    out: &mut O,
    accepted: &Accepted,
    events: &Events,
    walk: &Backtrace,
) -> Result<u8, Stop>
    ensures { AnswersRun (frames_report_by accepted.now events.now walk.now.frames.items walk.now.end) Budget result (O.written out.old) (O.written out.new) (O.faults out.old) (O.faults out.new) }
{
    if let WalkEnd::NotSite = walk.end {
        return answer_run(alloc, out, accepted, events, End::Budget);
    }
    let trace = match trace_lines(alloc, accepted.image(), accepted.types(), events) {
        Ok(lines) => lines,
        Err(_) => return Err(Stop::Memory),
    };
    match walk_lines(alloc, accepted.image(), walk.frames.as_slice()) {
        Ok(lines) => answer_three(
            out,
            b"\n-- trace\n",
            trace.as_slice(),
            lines.as_slice(),
            DONE,
        ),
        Err(_) => Err(Stop::Memory),
    }
}

// Ends a run that went on to a site: writes its trace after the guest's bytes, and the frames from the site or the line of its end. For a
// fault of input or output gives the stop.
fn answer_walk<B: Bus, O: Sink>(
    alloc: Global,
    out: &mut O,
    machine: &Machine<B>,
    end: End,
) -> Result<u8, Stop>
    ensures { AnswersRun (walk_closing machine.now.accepted.now machine.now.events (bytes_walk machine.now.accepted.now (state_of machine.now.core (B.memory machine.now.shared.bus) machine.now.events)) end) end
        result (O.written out.old) (O.written out.new) (O.faults out.old) (O.faults out.new) }
{
    let accepted = machine.accepted;
    if let End::Budget = end {
        return match backtrace(alloc, accepted, &machine.core, &machine.shared, MOST_FRAMES) {
            Ok(walk) => answer_frames(alloc, out, accepted, machine.events(), &walk),
            Err(_) => Err(Stop::Memory),
        };
    }
    answer_run(alloc, out, accepted, machine.events(), end)
}

/// Runs an accepted image to a site, and writes the frames from there.
pub(crate) fn walk_accepted<I: Source, O: Sink>(
    alloc: Global,
    accepted: &Accepted,
    budget: u64,
    input: &mut I,
    out: &mut O,
) -> Result<u8, Stop>
    ensures { Yields (WalksAccepted budget accepted.now) ⊥
        (streams (I.left input.old) (I.faults input.old) (O.written out.old) (O.faults out.old))
        (streams (I.left input.new) (I.faults input.new) (O.written out.new) (O.faults out.new)) result }
{
    let mut machine = match Machine::start(alloc, accepted, budget) {
        Ok(machine) => machine,
        Err(_) => return Err(Stop::Memory),
    };
    walks_same(accepted, &machine.shared.bus);
    let run = run_to_site(&mut machine, input, out);
    answer_walk(alloc, out, &machine, run.end)
}
