//! `force FILE N K` and `force FILE.. N K`: runs an accepted image to a site, unwinds it by force to a frame, and goes on
//! (docs/guide/walks-and-threads.md, "Forced unwinding").
ghost use Rattle.std.specs.Prelude.{◌≡◌, ◌++◌, ◌-◌, ◌^◌, ◌<◌};
ghost use Rattle.eh_gates.specs.State.{State, state_of};
ghost use Rattle.thumb_core.specs.declared.ends.End.TheVariants.{Budget};
ghost use Rattle.cmd_perform.specs.ForceReport.{ForcesAccepted, IsUnforced, IsRefusedForcing, force_bytes, bytes_from_site, forced_type, force_fault_report};
ghost use Rattle.cmd_perform.specs.RunReport.{trace_section};
ghost use Rattle.cmd_perform.specs.Writes.{AnswersRun};
ghost use Rattle.cmd_perform.specs.Yields.{Only, RefusedOn, Yields, YieldsBy, streams};
ghost use Rattle.cmd_answers.specs.declared.status.TheConstants.{REFUSED};

use crate::answer::answer_run;
use crate::recorded::forces_same;
use cmd_answers::Stop;
use cmd_answers::answer::answer_three;
use cmd_answers::status::REFUSED;
use cmd_input::words::MOST_INSTRUCTIONS;
use eh_bus::bus::Bus;
use eh_machine::Machine;
use eh_port::{Sink, Source};
use eh_trace::{Events, trace_lines};
use eh_walk::{ForceFault, force, run_to_site};
use elf_image::Image;
use frame_check::Accepted;
use std::alloc::Global;
use thumb_core::ends::End;

/// The address of the type that is thrown: that of int, by the name of its symbol (Itanium C++ ABI), or 0 if the image has none.
pub(crate) fn forced_type(image: &Image) -> u32
    ensures is { result ≡ forced_type image.now }
    ensures fits { result < 2 ^ 32 }
{
    image.symbol(b"_ZTIi").unwrap_or(0)
}

/// How many events may follow `done` events, of all that a run may have.
fn remaining_budget(done: u128) -> u64
    ensures { result ≡ MOST_INSTRUCTIONS - done }
{
    u128::from(MOST_INSTRUCTIONS).saturating_sub(done) as u64
}

// Ends a run whose unwinding was refused: writes its trace after the guest's bytes, and the line of the refusal, and returns its status.
fn answer_refusal<O: Sink>(
    alloc: Global,
    out: &mut O,
    accepted: &Accepted,
    events: &Events,
    line: &[u8],
) -> Result<u8, Stop>
    ensures { AnswersRun (record { text = trace_section accepted.now events.now ++ line.now; status = REFUSED }) Budget result (O.written out.old) (O.written out.new) (O.faults out.old) (O.faults out.new) }
{
    match trace_lines(alloc, accepted.image(), accepted.types(), events) {
        Ok(lines) => answer_three(out, b"\n-- trace\n", lines.as_slice(), line, REFUSED),
        Err(_) => Err(Stop::Memory),
    }
}

// Ends a run that wasn't unwound, by the reason.
fn answer_unforced<O: Sink>(
    alloc: Global,
    out: &mut O,
    accepted: &Accepted,
    events: &Events,
    fault: ForceFault,
) -> Result<u8, Stop>
    ensures { AnswersRun (force_fault_report (trace_section accepted.now events.now) fault) Budget result (O.written out.old) (O.written out.new) (O.faults out.old) (O.faults out.new) }
{
    match fault {
        ForceFault::NotSite => answer_run(alloc, out, accepted, events, End::Budget),
        ForceFault::NoFrame => answer_refusal(alloc, out, accepted, events, b"-- force NoFrame\n"),
        ForceFault::InsideCleanup => {
            answer_refusal(alloc, out, accepted, events, b"-- force InsideCleanup\n")
        }
        ForceFault::NoStop => answer_refusal(alloc, out, accepted, events, b"-- force NoStop\n"),
        ForceFault::BadTables => {
            answer_refusal(alloc, out, accepted, events, b"-- force BadTables\n")
        }
        ForceFault::BadType => answer_refusal(alloc, out, accepted, events, b"-- force BadType\n"),
        ForceFault::PoolFull => {
            answer_refusal(alloc, out, accepted, events, b"-- force PoolFull\n")
        }
    }
}

// Unwinds a run by force to the frame of a number, after so many events, and goes on until MOST_INSTRUCTIONS events were done in all. Or
// says why it wasn't unwound.
fn force_and_go_on<B: Bus, I: Source, O: Sink>(
    alloc: Global,
    machine: &mut Machine<B>,
    done: u128,
    number: usize,
    input: &mut I,
    out: &mut O,
) -> Result<u8, Stop>
    ensures { let a = machine.old.accepted.now in
        let s : State = state_of machine.old.core (B.memory machine.old.shared.bus) machine.old.events in
        Yields (Only (bytes_from_site number a done s)) (IsRefusedForcing (force_bytes number a s).0)
        (streams (I.left input.old) (I.faults input.old) (O.written out.old) (O.faults out.old))
        (streams (I.left input.new) (I.faults input.new) (O.written out.new) (O.faults out.new)) result }
{
    let accepted = machine.accepted;
    let ty = forced_type(accepted.image());
    match force(
        accepted,
        &mut machine.core,
        &mut machine.shared,
        &mut machine.events,
        number,
        ty,
    ) {
        Ok(()) => {
            machine.left = remaining_budget(done);
            let end = machine.run(input, out);
            answer_run(alloc, out, accepted, machine.events(), end)
        }
        Err(fault) => answer_unforced(alloc, out, accepted, machine.events(), fault),
    }
}

/// Runs an accepted image to a site, unwinds it there by force to the numbered frame (0 is the innermost), and goes on.
pub(crate) fn force_accepted<I: Source, O: Sink>(
    alloc: Global,
    accepted: &Accepted,
    number: usize,
    budget: u64,
    input: &mut I,
    out: &mut O,
) -> Result<u8, Stop>
    ensures { YieldsBy (ForcesAccepted number budget accepted.now) (RefusedOn (IsUnforced number budget accepted.now))
        (streams (I.left input.old) (I.faults input.old) (O.written out.old) (O.faults out.old))
        (streams (I.left input.new) (I.faults input.new) (O.written out.new) (O.faults out.new)) result }
{
    let mut machine = match Machine::start(alloc, accepted, budget) {
        Ok(machine) => machine,
        Err(_) => return Err(Stop::Memory),
    };
    forces_same(accepted, &machine.shared.bus);
    let run = run_to_site(&mut machine, input, out);
    if let End::Budget = run.end {
        return force_and_go_on(alloc, &mut machine, run.done, number, input, out);
    }
    answer_run(alloc, out, accepted, machine.events(), run.end)
}
