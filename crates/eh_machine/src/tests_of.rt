//! The checks between an instruction and the place where it goes on (docs/rules/machine.md, "An event").
ghost use Rattle.std.specs.Prelude.{◌≡◌, ℕ, ◌<◌, ◌≤◌, ◌*◌, true, false, None, IfSome};
ghost use Rattle.run_gates.specs.Ends.{is_fault};
ghost use Rattle.thumb_ahead.specs.UndoRecord.{lowest};
ghost use Rattle.sim_machines.specs.Checked.{program_of};
ghost use Rattle.eh_machine.specs.Cached.{IsCache};
ghost use Rattle.sim_machines.specs.Machine.{leaves_cleanup, sp_end, fell_off, gate_goes_on, control_flow_trap, refusal};

use crate::decode_cache::DecodeCache;
use eh_gates::gates::{ALLOCATE_GATE, BEGIN_CATCH_GATE, END_CATCH_GATE, FREE_GATE, UNCAUGHT_GATE};
use frame_check::Accepted;
use run_gates::{INPUT_GATE, NO_CALLER, OUTPUT_GATE};
use thumb_core::ends::{End, TrapKind};
use thumb_core::regs::{Regs, SP, Stepped};

/// Whether a new sp stands above the landing sp of the innermost cleanup in progress.
#[inline(always)]
fn is_above(new: u32, landing: Option<u32>) -> bool
    ensures { (old : ℕ) → old < new → result ≡ leaves_cleanup landing old new }
{
    match landing {
        None => false,
        Some(landing) => landing < new,
    }
}

/// The end that a new sp gives: it rose at a lowering place or out of a cleanup, or stands below the running stack, which begins at `low`.
/// The first two are checked only if sp rose.
#[inline(always)]
fn sp_end(lowers: bool, landing: Option<u32>, low: u32, pc: u32, old: u32, new: u32) -> Option<End>
    ensures { result ≡ sp_end lowers landing low pc old new }
{
    if old < new {
        if lowers {
            return Some(End::Trap(TrapKind::SpRaised, new, pc));
        }
        if is_above(new, landing) {
            return Some(End::Trap(TrapKind::SpInCleanup, new, pc));
        }
    }
    if new < low {
        return Some(End::Trap(TrapKind::StackLimit, new, pc));
    }
    None
}

/// The end of a run that goes on past the end of its function.
#[inline(always)]
fn fell_off(a: &Accepted, pc: u32, to: u32) -> Option<End>
    ensures { result ≡ fell_off (program_of a.now) pc to }
{
    if a.is_function(to) {
        Some(End::Trap(TrapKind::FellOff, to, pc))
    } else {
        None
    }
}

/// Whether a run goes on after the gate of this number.
fn gate_goes_on(number: u8) -> bool
    ensures { result ≡ gate_goes_on number }
{
    number == OUTPUT_GATE
        || number == INPUT_GATE
        || number == ALLOCATE_GATE
        || number == FREE_GATE
        || number == BEGIN_CATCH_GATE
        || number == END_CATCH_GATE
        || number == UNCAUGHT_GATE
}

/// The end that the next pc gives. The registers are those after the instruction; `branches` says whether it took a branch.
#[inline(always)]
fn control_flow_trap(
    a: &Accepted,
    branches: bool,
    pc: u32,
    what: Stepped,
    regs: &Regs,
) -> Option<End>
    ensures { result ≡ control_flow_trap (program_of a.now) branches pc what regs.now }
{
    match what {
        Stepped::Done => {
            if branches {
                None
            } else {
                fell_off(a, pc, regs.pc)
            }
        }
        Stepped::Call { target, .. } => {
            if a.is_function(target) {
                None
            } else {
                Some(End::Trap(TrapKind::BadCallTarget, target, pc))
            }
        }
        Stepped::Return { to } => {
            if to == NO_CALLER {
                Some(End::Exit(regs.r[0]))
            } else {
                fell_off(a, pc, regs.pc)
            }
        }
        Stepped::Gate(number) => {
            if gate_goes_on(number) {
                fell_off(a, pc, regs.pc)
            } else {
                None
            }
        }
        Stepped::Trap(_) => None,
    }
}

/// The end by a failed check: first of sp, then of where the run would go on. `lowers` says whether this is a lowering place. `stack` has
/// the landing sp of the innermost cleanup and the start of the running stack, `at` the pc and sp before the instruction.
#[inline(always)]
pub(crate) fn refusal(
    a: &Accepted,
    lowers: bool,
    stack: (Option<u32>, u32),
    at: (u32, u32),
    branches: bool,
    what: Stepped,
    regs: &Regs,
) -> Option<End>
    requires { lowers ≡ ((program_of a.now).look at.0).lowers }
    ensures is { result ≡ refusal (program_of a.now) stack at branches what regs.now }
    ensures inside { IfSome result (λ end. is_fault end ≡ false) }
{
    let (landing, low) = stack;
    let (pc, old) = at;
    let end = sp_end(lowers, landing, low, pc, old, regs.r[SP as usize]);
    if end.is_some() {
        return end;
    }
    control_flow_trap(a, branches, pc, what, regs)
}

/// Whether sp stays at or above the start of the running stack when `pushes` words are pushed.
#[inline(always)]
pub(crate) fn has_room(sp: u32, pushes: u32, low: u32) -> bool
    requires { pushes ≤ 16 }
    ensures room { result ≡ true → 4 * pushes ≤ sp }
    ensures low { result ≡ true → low ≤ lowest sp pushes }
{
    match sp.checked_sub(4 * pushes) {
        Some(after) => low <= after - after % 4,
        None => false,
    }
}

/// Whether a function begins at an address. A decode cache is asked first if there is one.
#[inline(always)]
fn begins_at(a: &Accepted, cache: Option<&DecodeCache>, address: u32) -> bool
    requires { IfSome cache (λ c. IsCache (program_of a.now) c.now) }
    ensures { result ≡ ((program_of a.now).look address).is_function }
{
    match cache {
        Some(cache) => cache.begins_at(a, address),
        None => a.is_function(address),
    }
}

/// Whether no check fails after an instruction, if no cleanup is in progress. `lowers` says whether this is a lowering place, `low` is the
/// start of the running stack, `at` has the pc and sp before the instruction. Only straight-line instructions and returns can pass.
#[inline(always)]
pub(crate) fn may_continue(
    a: &Accepted,
    cache: Option<&DecodeCache>,
    lowers: bool,
    low: u32,
    at: (u32, u32),
    branches: bool,
    what: Stepped,
    regs: &Regs,
) -> bool
    requires cache { IfSome cache (λ c. IsCache (program_of a.now) c.now) }
    requires lowers { lowers ≡ ((program_of a.now).look at.0).lowers }
    ensures { result ≡ true → refusal (program_of a.now) (None, low) at branches what regs.now ≡ None }
{
    let (pc, old) = at;
    if sp_end(lowers, None, low, pc, old, regs.r[SP as usize]).is_some() {
        return false;
    }
    match what {
        Stepped::Done => branches || !begins_at(a, cache, regs.pc),
        Stepped::Return { to } => to != NO_CALLER && !begins_at(a, cache, regs.pc),
        Stepped::Call { .. } | Stepped::Gate(_) | Stepped::Trap(_) => false,
    }
}
