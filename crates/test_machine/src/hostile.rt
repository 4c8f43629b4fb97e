//! Gates over pools of arbitrary words: states, counts, links, heads and the words of barriers and cleanups that point anywhere. How a gate
//! may end is the table of gates of docs/rules/machine.md.
use crate::answers;
use crate::desk::Desk;
use eh_cxa::Globals;
use eh_cxa::layout::{BARRIER_SP, CLEANUP_SITE, CLEANUP_SP, COUNT, SIZE, STATE, TYPE};
use eh_cxa::pool::slot_of_block;
use eh_cxa::state::{CAUGHT, FLYING, FRESH};
use eh_gates::gates::{
    ALLOCATE_GATE, BEGIN_CATCH_GATE, END_CATCH_GATE, END_CLEANUP_GATE, FREE_GATE, RETHROW_GATE,
    TERMINATE_GATE, THROW_GATE, UNCAUGHT_GATE, UNEXPECTED_GATE,
};
use eh_machine::Core;
use std::alloc::Global;
use test_rows::Unanswered;
use thumb_core::ends::{Cause, End, TrapKind};

const UNKNOWN_GATE: u8 = 26;

/// The addresses of the control blocks and the objects of the first slots and of the last.
const BLOCK: u32 = 0x3800_0028;

const OBJECT: u32 = 0x3800_0080;

const SECOND: u32 = BLOCK + 0x200;

const THIRD: u32 = BLOCK + 0x400;

const LAST: u32 = BLOCK + 63 * 0x200;

/// main's sp, its caller's sp, and the words of the stack there: nobody called main.
const MAIN_SP: u32 = 0x3FFF_FFF0;

const CALLER_SP: u32 = 0x3FFF_FFF8;

static STACK: [(u32, u32); 4] = [
    (0x3FFF_FFF0, 0),
    (0x3FFF_FFF4, 0xFFFF_FFFF),
    (0x3FFF_FFF8, 0),
    (0x3FFF_FFFC, 0xFFFF_FFFF),
];

/// Words of a control block or a header that point outside the pool, below a word's address, to one another, and to themselves.
static VALUES: [u32; 18] = [
    0,
    1,
    2,
    3,
    4,
    5,
    6,
    0x7FFF_FFFF,
    0x8000_0000,
    0xFFFF_FFFF,
    BLOCK,
    SECOND,
    LAST,
    BLOCK + 1,
    0x37FF_FE28,
    0x3800_8028,
    0x8000,
    MAIN_SP + 2,
];

/// The gates, each with its r0: a size, an object, a control block; 0 for most.
static CALLS: [(u8, u32); 18] = [
    (ALLOCATE_GATE, 4),
    (ALLOCATE_GATE, 0xFFFF_FFFF),
    (FREE_GATE, OBJECT),
    (FREE_GATE, OBJECT + 0x200),
    (FREE_GATE, OBJECT + 0x400),
    (THROW_GATE, OBJECT),
    (THROW_GATE, OBJECT + 0x200),
    (THROW_GATE, OBJECT + 0x400),
    (BEGIN_CATCH_GATE, BLOCK),
    (BEGIN_CATCH_GATE, SECOND),
    (BEGIN_CATCH_GATE, THIRD),
    (END_CATCH_GATE, 1),
    (RETHROW_GATE, 1),
    (END_CLEANUP_GATE, 1),
    (UNEXPECTED_GATE, 1),
    (TERMINATE_GATE, 1),
    (UNCAUGHT_GATE, 1),
    (UNKNOWN_GATE, 1),
];

/// What the value of a trap is: r0 of the gate, the type, the top of the caught stack, a number, or what a call found.
#[derive(Clone, Copy)]
enum TrapValue {
    /// What the gate was given in r0.
    Given,
    /// The type.
    Type,
    /// The top of the caught stack.
    Caught,
    /// This number.
    Is(u32),
    /// What a call found.
    Found,
}

/// The traps that each gate may end in.
static TRAPS: [(u8, TrapKind, TrapValue); 14] = [
    (ALLOCATE_GATE, TrapKind::TooBig, TrapValue::Given),
    (FREE_GATE, TrapKind::BadObject, TrapValue::Given),
    (THROW_GATE, TrapKind::BadObject, TrapValue::Given),
    (THROW_GATE, TrapKind::BadType, TrapValue::Type),
    (THROW_GATE, TrapKind::ObjectRead, TrapValue::Found),
    (BEGIN_CATCH_GATE, TrapKind::BadUcb, TrapValue::Given),
    (BEGIN_CATCH_GATE, TrapKind::CaughtOrder, TrapValue::Given),
    (END_CATCH_GATE, TrapKind::NoCaught, TrapValue::Is(0)),
    (RETHROW_GATE, TrapKind::CaughtOrder, TrapValue::Caught),
    (RETHROW_GATE, TrapKind::BadType, TrapValue::Found),
    (RETHROW_GATE, TrapKind::ObjectRead, TrapValue::Found),
    (END_CLEANUP_GATE, TrapKind::NoCleanup, TrapValue::Is(0)),
    (
        END_CLEANUP_GATE,
        TrapKind::CleanupElsewhere,
        TrapValue::Found,
    ),
    (UNKNOWN_GATE, TrapKind::UnknownGate, TrapValue::Is(26)),
];

/// The causes by which gates terminate. Phase 2 alone has no limit and meets no catch (docs/rules/phases-and-exceptions.md).
static CAUSES: [(u8, Cause); 17] = [
    (ALLOCATE_GATE, Cause::PoolFull),
    (THROW_GATE, Cause::NoHandler),
    (THROW_GATE, Cause::CannotUnwind),
    (THROW_GATE, Cause::NoThrow),
    (THROW_GATE, Cause::LeavesCleanup),
    (THROW_GATE, Cause::Unexpected),
    (RETHROW_GATE, Cause::NothingCaught),
    (RETHROW_GATE, Cause::NoHandler),
    (RETHROW_GATE, Cause::CannotUnwind),
    (RETHROW_GATE, Cause::NoThrow),
    (RETHROW_GATE, Cause::LeavesCleanup),
    (RETHROW_GATE, Cause::Unexpected),
    (END_CLEANUP_GATE, Cause::NoHandler),
    (END_CLEANUP_GATE, Cause::CannotUnwind),
    (END_CLEANUP_GATE, Cause::Unexpected),
    (UNEXPECTED_GATE, Cause::Unexpected),
    (TERMINATE_GATE, Cause::Called),
];

fn is_value(what: TrapValue, value: u32, core: &Core) -> bool {
    match what {
        TrapValue::Given => value == core.regs.r[0],
        TrapValue::Type => value == core.regs.r[1],
        TrapValue::Caught => value == core.globals.caught,
        TrapValue::Is(number) => value == number,
        TrapValue::Found => true,
    }
}

/// Whether a gate may trap so, given the registers and heads before it.
fn may_trap(gate: u8, kind: TrapKind, value: u32, core: &Core) -> bool {
    for (number, trap, what) in &TRAPS {
        if *number == gate && *trap == kind {
            return is_value(*what, value, core);
        }
    }
    false
}

/// Whether a gate may terminate with this cause.
fn may_terminate(gate: u8, cause: Cause) -> bool {
    for (number, terminates) in &CAUSES {
        if *number == gate && *terminates == cause {
            return true;
        }
    }
    false
}

fn is_head(head: u32) -> bool {
    head == 0 || slot_of_block(head).is_some()
}

/// Whether each head after a gate is a head from before, none, or a control block.
fn are_heads(old: &Globals, new: &Globals) -> bool {
    (new.caught == old.caught || is_head(new.caught))
        && (new.cleanup == old.cleanup || is_head(new.cleanup))
}

/// Whether a gate went on or ended as it may. A trap must leave registers and heads, a terminate the registers.
fn is_well(gate: u8, desk: &Desk) -> bool {
    let before = &desk.before;
    let after = &desk.machine.core;
    match desk.end {
        End::Budget => are_heads(&before.globals, &after.globals),
        End::Terminate(cause) => after.regs == before.regs && may_terminate(gate, cause),
        End::Trap(kind, value, pc) => after == before
            && pc == before.regs.pc
            && may_trap(gate, kind, value, before),
        End::Exit(_) | End::ReadFault | End::WriteFault => false,
    }
}

fn gate_of(number: u32) -> Result<u8, Unanswered> {
    u8::try_from(number).map_err(|_why| Unanswered::NotNumber)
}

/// `well GATE`: whether the last run, one event at a gate, went on or ended as the gate may.
pub fn well(alloc: Global, desk: &Desk, given: &[u32]) -> Result<String, Unanswered> {
    let [gate] = given else {
        return Err(Unanswered::NoWord);
    };
    Ok(answers::yes_or_no(alloc, is_well(gate_of(*gate)?, desk))?)
}

/// The address in gates.s of the gate with a number.
fn gate_place(gate: u8) -> u32 {
    0x7FE2u32.wrapping_add(u32::from(gate).wrapping_mul(2))
}

/// Puts main at a gate, with something in r0 and a type in r1.
fn stand(desk: &mut Desk, gate: u8, given: u32, ty: u32) {
    desk.set_reg(0, given);
    desk.set_reg(1, ty);
    desk.set_reg(13, MAIN_SP);
    desk.set_reg(15, gate_place(gate));
    desk.put_stack(&STACK);
}

/// `at-gate GATE GIVEN TYPE`: puts main at a gate, with GIVEN in r0 and TYPE in r1.
pub fn at_gate(alloc: Global, desk: &mut Desk, given: &[u32]) -> Result<String, Unanswered> {
    let [gate, given, ty] = given else {
        return Err(Unanswered::NoWord);
    };
    stand(desk, gate_of(*gate)?, *given, *ty);
    Ok(answers::nothing(alloc))
}

/// A caught exception, one whose cleanup is in progress, and one that isn't thrown yet.
static FILLED: [(u32, u32, u32); 10] = [
    (0, STATE, CAUGHT),
    (0, SIZE, 4),
    (0, COUNT, 1),
    (1, STATE, FLYING),
    (1, SIZE, 4),
    (1, BARRIER_SP, CALLER_SP),
    (1, CLEANUP_SP, CALLER_SP),
    (1, CLEANUP_SITE, 0x8002),
    (2, STATE, FRESH),
    (2, SIZE, 4),
];

/// The number of words of a slot before its object.
const CLOSED: u32 = 32;

/// Frees the first four slots, with zeros before their objects.
pub fn clear(desk: &mut Desk) {
    for slot in 0..4 {
        for k in 0..CLOSED {
            desk.put(slot, k, 0);
        }
    }
}

/// Fills the first slots, with exceptions of a type.
fn fill(desk: &mut Desk, ty: u32) {
    clear(desk);
    for (slot, k, value) in &FILLED {
        desk.put(*slot, *k, *value);
    }
    desk.put(0, TYPE, ty);
    desk.put(1, TYPE, ty);
}

/// Restores the machine, except for the pool and the stack, with no guarded word and with these heads.
fn begin_again(desk: &mut Desk, core: &Core, caught: u32, cleanup: u32) {
    desk.machine.core = *core;
    desk.machine.core.globals = Globals {
        caught,
        cleanup,
        uncaught: 1,
    };
    desk.release();
}

/// A trial: a type, a changed word of a slot, and both heads.
#[derive(Clone, Copy)]
struct Trial {
    ty: u32,
    word: (u32, u32, u32),
    caught: u32,
    cleanup: u32,
}

/// Whether a gate goes on or ends as it may in this state. The run then goes on for at most 1,000 events.
fn goes_well(alloc: Global, desk: &mut Desk, core: &Core, trial: &Trial, call: (u8, u32)) -> bool {
    let (gate, given) = call;
    let (slot, k, value) = trial.word;
    begin_again(desk, core, trial.caught, trial.cleanup);
    fill(desk, trial.ty);
    desk.put(slot, k, value);
    stand(desk, gate, given, trial.ty);
    desk.go(alloc, 1);
    let is_well = is_well(gate, desk);
    desk.go(alloc, 1000);
    is_well
}

/// The first gate that doesn't, by its number and its r0.
fn first_unwell(alloc: Global, desk: &mut Desk, core: &Core, trial: &Trial) -> Option<(u8, u32)> {
    for call in &CALLS {
        if !goes_well(alloc, desk, core, trial, *call) {
            return Some(*call);
        }
    }
    None
}

/// Whether all gates do as they may, or which one doesn't, with which value.
fn verdict_text(
    alloc: Global,
    unwell: Option<(u8, u32)>,
    value: u32,
) -> Result<Option<String>, Unanswered> {
    match unwell {
        None => Ok(None),
        Some((gate, given)) => Ok(Some(format!(in alloc;
            "gate {gate:X} of {given:X} isn't well over {value:X}"
        )?)),
    }
}

/// `any-word TYPE SLOT K`: each gate with each value of a word.
pub fn any_word(alloc: Global, desk: &mut Desk, given: &[u32]) -> Result<String, Unanswered> {
    let [ty, slot, k] = given else {
        return Err(Unanswered::NoWord);
    };
    let core = desk.machine.core;
    for value in &VALUES {
        let trial = Trial {
            ty: *ty,
            word: (*slot, *k, *value),
            caught: BLOCK,
            cleanup: SECOND,
        };
        let unwell = first_unwell(alloc, desk, &core, &trial);
        if let Some(text) = verdict_text(alloc, unwell, *value)? {
            return Ok(text);
        }
    }
    Ok(format!(in alloc; "well")?)
}

/// `any-head TYPE CAUGHT`: each gate with each head of the cleanups, and this head of the caught stack.
pub fn any_head(alloc: Global, desk: &mut Desk, given: &[u32]) -> Result<String, Unanswered> {
    let [ty, caught] = given else {
        return Err(Unanswered::NoWord);
    };
    let core = desk.machine.core;
    for value in &VALUES {
        let trial = Trial {
            ty: *ty,
            word: (2, STATE, FRESH),
            caught: *caught,
            cleanup: *value,
        };
        let unwell = first_unwell(alloc, desk, &core, &trial);
        if let Some(text) = verdict_text(alloc, unwell, *value)? {
            return Ok(text);
        }
    }
    Ok(format!(in alloc; "well")?)
}
