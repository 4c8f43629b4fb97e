//! The numbers of the exception gates (docs/rules/machine.md, "Gates").
ghost use Rattle.std.specs.Prelude.{◌≡◌, false};
ghost use Rattle.eh_bus.specs.Map.{SameMap};
ghost use Rattle.eh_phase.specs.run_gates.Ends.{is_fault};
ghost use Rattle.thumb_core.specs.declared.ends.End.{End as TheEnd};
ghost use Rattle.eh_gates.specs.State.{state_of, tables_of};
ghost use Rattle.eh_gates.specs.Gates.{gate_of};

use crate::calls::{allocate_gate, begin_catch_gate, end_catch_gate, free_gate, uncaught_gate};
use crate::resuming::end_cleanup_gate;
use crate::state::{Core, Turned};
use crate::throwing::{rethrow_gate, throw_gate};
use eh_bus::bus::Bus;
use eh_phase::Tables;
use eh_trace::Events;
use thumb_core::ends::{Cause, End, TrapKind};

/// Allocates an exception of r0 bytes; r0 becomes its object's address.
pub const ALLOCATE_GATE: u8 = 16;
/// Frees the exception whose object is at r0.
pub const FREE_GATE: u8 = 17;
/// Throws the object at r0, of the type at r1, with the destructor at r2.
pub const THROW_GATE: u8 = 18;
/// Begins a catch: a handler calls it first.
pub const BEGIN_CATCH_GATE: u8 = 19;
/// Ends a catch: a handler calls it last.
pub const END_CATCH_GATE: u8 = 20;
/// Throws the exception on top of the caught stack again.
pub const RETHROW_GATE: u8 = 21;
/// Ends a cleanup; the throw goes on.
pub const END_CLEANUP_GATE: u8 = 22;
/// Terminates, because a specification was violated.
pub const UNEXPECTED_GATE: u8 = 23;
/// Terminates.
pub const TERMINATE_GATE: u8 = 24;
/// r0 becomes the number of uncaught exceptions.
pub const UNCAUGHT_GATE: u8 = 25;

/// Does the gate with a number.
#[tactic(auto, unfolding(crate::specs::Gates::gate_of))]
fn do_gate<B: Bus>(
    t: &Tables,
    number: u8,
    next: u32,
    core: &mut Core,
    bus: &mut B,
    events: &mut Events,
) -> Turned
    ensures { (result, state_of core.new (B.memory bus.new) events.new) ≡ gate_of (tables_of t.now.index t.now.types.now) number next (state_of core.old (B.memory bus.old) events.old) }
{
    match number {
        ALLOCATE_GATE => allocate_gate(next, core, bus),
        FREE_GATE => free_gate(next, core, bus),
        THROW_GATE => throw_gate(t, core, bus, events),
        BEGIN_CATCH_GATE => begin_catch_gate(next, core, bus),
        END_CATCH_GATE => end_catch_gate(next, core, bus),
        RETHROW_GATE => rethrow_gate(t, core, bus, events),
        END_CLEANUP_GATE => end_cleanup_gate(t, core, bus, events),
        UNEXPECTED_GATE => Turned::Ended(End::Terminate(Cause::Unexpected)),
        TERMINATE_GATE => Turned::Ended(End::Terminate(Cause::Called)),
        UNCAUGHT_GATE => uncaught_gate(next, core, bus),
        _ => Turned::Ended(End::Trap(TrapKind::UnknownGate, u32::from(number), core.regs.pc)),
    }
}

/// Does the gate with a number. The registers are those before its instruction; `next` is the address of the instruction after it. Any
/// number that isn't an exception gate's is the trap `UnknownGate`. The run never ends by a fault of the outside. Segments only change
/// in the bytes of writable ones.
pub fn gate<B: Bus>(
    t: &Tables,
    number: u8,
    next: u32,
    core: &mut Core,
    bus: &mut B,
    events: &mut Events,
) -> Turned
    ensures does { (result, state_of core.new (B.memory bus.new) events.new) ≡ gate_of (tables_of t.now.index t.now.types.now) number next (state_of core.old (B.memory bus.old) events.old) }
    ensures inside { (end : TheEnd) → result ≡ Turned.Ended end → is_fault end ≡ false }
    ensures map { SameMap (B.memory bus.old).segments (B.memory bus.new).segments }
{
    do_gate(t, number, next, core, bus, events)
}
