//! A throw and a rethrow (IHI 0038, "Phase 1 unwinding", "Phase 2 unwinding"; docs/rules/machine.md, "A throw").
ghost use Rattle.std.specs.Prelude.{◌≡◌, ◌<◌, ◌≤◌, IsSome};
ghost use Rattle.eh_cxa.specs.Words.{block_slot, object_slot};
ghost use Rattle.thumb_core.specs.Registers.{all_of};
ghost use Rattle.eh_gates.specs.State.{state_of, tables_of};
ghost use Rattle.eh_gates.specs.Throwing.{barrier_words, handler_object, handler_pointer, throw_to, byte_of, throw_event, barrier_in, find_barrier, throw_gate, rethrow_end, rethrow_gate};

use crate::calls::fault_end;
use crate::landing::enter_landing;
use crate::state::{Core, Turned};
use eh_bus::bus::Bus;
use eh_bytecode::Vrs;
use eh_cxa::layout::{BARRIER_POINTER, BLOCK};
use eh_cxa::{
    BarrierWords, CxaFault, innermost_sp, may_rethrow, may_throw, object_size, rethrow,
    set_barrier, start_throw, thrown,
};
use eh_match::Match;
use eh_phase::{Barrier, Cursor, Found, Goal, Tables, Thrown, find_landing, search};
use eh_trace::event::MAX_BYTES;
use eh_trace::{Event, EventKind, Events};
use thumb_core::ends::{Cause, End, TrapKind};
use thumb_core::regs::Regs;

/// Offset of the pointer that a handler of a pointer type is given, in bytes from the start of the control block.
pub const POINTER_AT: u32 = 4 * BARRIER_POINTER - BLOCK;

/// The registers as those of a frame, r0 to pc.
pub(crate) fn frame_of(regs: &Regs) -> Vrs
    ensures { result.r ≡ all_of regs.now }
{
    let r = &regs.r;
    Vrs {
        r: [
            r[0], r[1], r[2], r[3], r[4], r[5], r[6], r[7], r[8], r[9], r[10], r[11], r[12], r[13],
            r[14], regs.pc,
        ],
    }
}

/// The address that the handler is given: the object, or the place of the pointer to its base.
fn handler_object(block: u32, hit: Match) -> u32
    ensures { result ≡ handler_object block hit }
{
    match hit {
        Match::Object(object) => object,
        Match::PointerToBase(_) => block.wrapping_add(POINTER_AT),
        Match::Failed | Match::Unreadable(_) => 0,
    }
}

fn handler_pointer(hit: Match) -> u32
    ensures { result ≡ handler_pointer hit }
{
    match hit {
        Match::PointerToBase(pointer) => pointer,
        Match::Object(_) | Match::Failed | Match::Unreadable(_) => 0,
    }
}

fn barrier_words(block: u32, b: &Barrier) -> BarrierWords
    ensures { result ≡ barrier_words block b.now }
{
    BarrierWords {
        sp: b.sp,
        object: handler_object(block, b.hit),
        desc: b.desc,
        pointer: handler_pointer(b.hit),
    }
}

/// Goes on with a throw or rethrow whose exception is flying. Records its barrier, runs phase 2 from the current registers and `site`,
/// and enters what it finds, with its event; or terminates, and then leaves the registers.
#[tactic(auto, unfolding(crate::specs::Throwing::throw_to))]
pub fn throw_to<B: Bus>(
    t: &Tables,
    core: &mut Core,
    bus: &mut B,
    events: &mut Events,
    site: u32,
    block: u32,
    b: &Barrier,
) -> Turned
    requires { IsSome (block_slot block) }
    ensures { (result, state_of core.new (B.memory bus.new) events.new) ≡ throw_to (tables_of t.now.index t.now.types.now) (state_of core.old (B.memory bus.old) events.old) site block b.now }
{
    let words = barrier_words(block, b);
    set_barrier(bus, block, &words);
    let goal = Goal {
        sp: b.sp,
        desc: b.desc,
    };
    let mut cursor = Cursor {
        vrs: frame_of(&core.regs),
        site,
        innermost: true,
    };
    let mut near = events.near_rows();
    let landing = find_landing(t, bus, &mut cursor, 0, &goal, &mut near.frame);
    events.keep_rows(near);
    enter_landing(core, bus, events, block, words.object, &cursor, landing)
}

/// Byte `k` of an object of `count` bytes; 0 past its end.
fn byte_of<B: Bus>(bus: &B, at: u32, count: u32, k: u32) -> u8
    ensures { result ≡ byte_of (B.memory bus.now) at count k }
{
    if k < count {
        bus.load8(at.wrapping_add(k)).unwrap_or(0)
    } else {
        0
    }
}

/// The event of a throw or rethrow, with the first bytes of the object.
fn throw_event<B: Bus>(bus: &B, kind: EventKind, what: &Thrown, size: u32) -> Event
    ensures is { result ≡ throw_event kind (B.memory bus.now) what.now size }
    ensures count { result.count ≤ MAX_BYTES }
{
    let at = what.object;
    let n = size.min(MAX_BYTES as u32);
    Event {
        kind,
        a: at,
        b: what.ty,
        c: 0,
        bytes: [
            byte_of(bus, at, n, 0),
            byte_of(bus, at, n, 1),
            byte_of(bus, at, n, 2),
            byte_of(bus, at, n, 3),
            byte_of(bus, at, n, 4),
            byte_of(bus, at, n, 5),
            byte_of(bus, at, n, 6),
            byte_of(bus, at, n, 7),
            byte_of(bus, at, n, 8),
            byte_of(bus, at, n, 9),
            byte_of(bus, at, n, 10),
            byte_of(bus, at, n, 11),
            byte_of(bus, at, n, 12),
            byte_of(bus, at, n, 13),
            byte_of(bus, at, n, 14),
            byte_of(bus, at, n, 15),
        ],
        count: n,
    }
}

/// The barrier that phase 1 found; without one, how the run ends.
fn barrier_in(pc: u32, found: Found) -> Result<Barrier, End>
    ensures { result ≡ barrier_in pc found }
{
    match found {
        Found::Barrier(b) => Ok(b),
        Found::Terminate(cause) => Err(End::Terminate(cause)),
        Found::ObjectRead(a) => Err(End::Trap(TrapKind::ObjectRead, a, pc)),
    }
}

/// Finds the barrier of a throw, after adding its event; else how the run ends. Trap `BadType`, without an event, if the graph doesn't
/// have the type.
#[tactic(auto, unfolding(crate::specs::Throwing::find_barrier))]
fn sought<B: Bus>(
    t: &Tables,
    core: &Core,
    bus: &B,
    events: &mut Events,
    kind: EventKind,
    what: &Thrown,
) -> Result<Barrier, End>
    requires { IsSome (object_slot what.now.object) }
    ensures { (result, state_of core.now (B.memory bus.now) events.new) ≡ find_barrier (tables_of t.now.index t.now.types.now) (state_of core.now (B.memory bus.now) events.old) kind what.now }
{
    let pc = core.regs.pc;
    if !t.types.holds(what.ty) {
        return Err(End::Trap(TrapKind::BadType, what.ty, pc));
    }
    events.push(throw_event(bus, kind, what, object_size(bus, what.object)));
    let limit = innermost_sp(bus, &core.globals);
    let found = search(t, bus, &frame_of(&core.regs), pc, what, limit);
    barrier_in(pc, found)
}

/// Throws the object at r0, of the type at r1, with the destructor at r2. Traps: `BadObject` with r0, `BadType` with r1, `ObjectRead`
/// with the address that can't be read. Terminates if there is no barrier. In all these cases registers, globals and memory stay.
pub(crate) fn throw_gate<B: Bus>(
    t: &Tables,
    core: &mut Core,
    bus: &mut B,
    events: &mut Events,
) -> Turned
    ensures { (result, state_of core.new (B.memory bus.new) events.new) ≡ throw_gate (tables_of t.now.index t.now.types.now) (state_of core.old (B.memory bus.old) events.old) }
{
    let pc = core.regs.pc;
    let [object, ty, destructor, ..] = core.regs.r;
    if let Err(fault) = may_throw(bus, object) {
        return Turned::Ended(fault_end(fault, object, pc));
    }
    match sought(
        t,
        core,
        bus,
        events,
        EventKind::Throw,
        &Thrown { object, ty },
    ) {
        Err(end) => Turned::Ended(end),
        Ok(b) => match start_throw(bus, &mut core.globals, object, ty, destructor) {
            Err(fault) => Turned::Ended(fault_end(fault, object, pc)),
            Ok(block) => throw_to(t, core, bus, events, pc, block, &b),
        },
    }
}

/// How a refused rethrow ends the run: it terminates if nothing is caught.
fn rethrow_end(fault: CxaFault, given: u32, pc: u32) -> End
    ensures { result ≡ rethrow_end fault given pc }
{
    match fault {
        CxaFault::NoCaught => End::Terminate(Cause::NothingCaught),
        CxaFault::PoolFull
        | CxaFault::TooBig
        | CxaFault::BadObject
        | CxaFault::BadUcb
        | CxaFault::CaughtOrder
        | CxaFault::NoCleanup
        | CxaFault::CleanupElsewhere => fault_end(fault, given, pc),
    }
}

/// Throws the exception on top of the caught stack again. Terminates with `NothingCaught` if the stack is empty; trap `CaughtOrder`
/// with the control block of a top that isn't caught; else as a throw.
pub(crate) fn rethrow_gate<B: Bus>(
    t: &Tables,
    core: &mut Core,
    bus: &mut B,
    events: &mut Events,
) -> Turned
    ensures { (result, state_of core.new (B.memory bus.new) events.new) ≡ rethrow_gate (tables_of t.now.index t.now.types.now) (state_of core.old (B.memory bus.old) events.old) }
{
    let pc = core.regs.pc;
    let block = match may_rethrow(bus, &core.globals) {
        Ok(block) => block,
        Err(fault) => return Turned::Ended(rethrow_end(fault, core.globals.caught, pc)),
    };
    let (object, ty) = thrown(bus, block);
    match sought(
        t,
        core,
        bus,
        events,
        EventKind::Rethrow,
        &Thrown { object, ty },
    ) {
        Err(end) => Turned::Ended(end),
        Ok(b) => match rethrow(bus, &mut core.globals) {
            Err(fault) => Turned::Ended(fault_end(fault, block, pc)),
            Ok(block) => throw_to(t, core, bus, events, pc, block, &b),
        },
    }
}
