//! A cleanup ends and its throw goes on (IHI 0038, "Phase 2 unwinding"; docs/rules/machine.md, "The end of a cleanup").
ghost use Rattle.std.specs.Prelude.{◌≡◌};
ghost use Rattle.eh_gates.specs.State.{state_of, tables_of};
ghost use Rattle.eh_gates.specs.Resuming.{goal_in, end_cleanup_gate};

use crate::calls::fault_end;
use crate::landing::enter_landing;
use crate::state::{Core, Turned};
use crate::throwing::frame_of;
use eh_bus::bus::Bus;
use eh_cxa::{BarrierWords, CxaFault, barrier, end_cleanup, innermost_sp};
use eh_phase::{Cursor, Goal, Tables, find_landing, to_caller};
use eh_trace::Events;
use thumb_core::regs::SP;

/// The barrier as phase 2 needs it.
fn goal_in(b: &BarrierWords) -> Goal
    ensures { result ≡ goal_in b.now }
{
    Goal {
        sp: b.sp,
        desc: b.desc,
    }
}

/// Ends a cleanup. The frame of the function that has this gate is unwound, the cleanup ends in the caller, and phase 2 goes on from
/// the cleanup's site and next descriptor. Trap `NoCleanup` with 0 if none is in progress. Trap `CleanupElsewhere` with the caller's sp
/// if the cleanup was entered with another, or with 0 if the gate's frame can't be unwound.
pub(crate) fn end_cleanup_gate<B: Bus>(
    t: &Tables,
    core: &mut Core,
    bus: &mut B,
    events: &mut Events,
) -> Turned
    ensures { (result, state_of core.new (B.memory bus.new) events.new) ≡ end_cleanup_gate (tables_of t.now.index t.now.types.now) (state_of core.old (B.memory bus.old) events.old) }
{
    let pc = core.regs.pc;
    if innermost_sp(bus, &core.globals).is_none() {
        return Turned::Ended(fault_end(CxaFault::NoCleanup, 0, pc));
    }
    let mut cursor = Cursor {
        vrs: frame_of(&core.regs),
        site: pc,
        innermost: true,
    };
    let mut near = events.near_rows();
    if !to_caller(t, bus, &mut cursor.vrs, pc, &mut near.gate) {
        return Turned::Ended(fault_end(CxaFault::CleanupElsewhere, 0, pc));
    }
    let sp = cursor.vrs.r[SP as usize];
    match end_cleanup(bus, &mut core.globals, sp) {
        Err(fault) => Turned::Ended(fault_end(fault, sp, pc)),
        Ok((block, words)) => {
            let b = barrier(bus, block);
            cursor.site = words.site;
            let goal = goal_in(&b);
            let landing = find_landing(t, bus, &mut cursor, words.next, &goal, &mut near.frame);
            events.keep_rows(near);
            enter_landing(core, bus, events, block, b.object, &cursor, landing)
        }
    }
}
