//! A landing pad is entered (IHI 0038, "Phase 2 unwinding"; docs/rules/machine.md, "Landing").
ghost use Rattle.std.specs.Prelude.{◌≡◌, IsSome};
ghost use Rattle.eh_cxa.specs.Words.{block_slot};
ghost use Rattle.eh_phase.specs.Calls.{frame_at};
ghost use Rattle.eh_phase.specs.Landings.{landing_in_frame};
ghost use Rattle.eh_gates.specs.State.{state_of};
ghost use Rattle.eh_gates.specs.Landing.{landing_registers, pad_event, words_of, enter_cleanup, enter_handler, enter_landing};

use crate::state::{Core, Turned};
use eh_bus::bus::Bus;
use eh_bytecode::Vrs;
use eh_cxa::{CleanupWords, begin_cleanup, land};
use eh_phase::{Cursor, Landing};
use eh_trace::event::MAX_BYTES;
use eh_trace::{Event, EventKind, Events};
use thumb_core::ends::{Cause, End};
use thumb_core::regs::{Regs, SP};

/// The registers at a landing pad: sp and r4 to r11 of the frame that is entered, `first` in r0, 0 in the others, and the flags
/// unchanged.
fn landing_registers(regs: &Regs, vrs: &Vrs, pad: u32, first: u32) -> Regs
    ensures { result ≡ landing_registers regs.now vrs.now.r pad first }
{
    let r = &vrs.r;
    Regs {
        r: [
            first,
            0,
            0,
            0,
            r[4],
            r[5],
            r[6],
            r[7],
            r[8],
            r[9],
            r[10],
            r[11],
            0,
            r[SP as usize],
            0,
        ],
        pc: pad - pad % 2,
        n: regs.n,
        z: regs.z,
        c: regs.c,
        v: regs.v,
    }
}

/// The event of a landing pad that is entered with this `sp`.
fn pad_event(kind: EventKind, pad: u32, sp: u32, object: u32) -> Event
    ensures { result ≡ pad_event kind pad sp object }
{
    Event {
        kind,
        a: pad,
        b: sp,
        c: object,
        bytes: [0; MAX_BYTES],
        count: 0,
    }
}

/// What is recorded of a cleanup in progress.
fn words_of(vrs: &Vrs, next: u32, site: u32) -> CleanupWords
    ensures { result ≡ words_of vrs.now.r next site }
{
    CleanupWords {
        next,
        sp: vrs.r[SP as usize],
        site,
    }
}

/// Enters a cleanup in the frame with these registers; it becomes the innermost in progress.
fn enter_cleanup<B: Bus>(
    core: &mut Core,
    bus: &mut B,
    events: &mut Events,
    block: u32,
    vrs: &Vrs,
    pad: u32,
    words: &CleanupWords,
)
    requires { IsSome (block_slot block) }
    ensures { state_of core.new (B.memory bus.new) events.new ≡ enter_cleanup (state_of core.old (B.memory bus.old) events.old) block vrs.now.r pad words.now }
{
    let sp = vrs.r[SP as usize];
    begin_cleanup(bus, &mut core.globals, block, words);
    core.regs = landing_registers(&core.regs, vrs, pad, 0);
    bus.release_below(sp);
    events.push(pad_event(EventKind::Cleanup, pad, sp, 0));
}

/// Enters a handler of the exception in the frame with these registers, and records the event.
fn enter_handler<B: Bus>(
    core: &mut Core,
    bus: &mut B,
    events: &mut Events,
    block: u32,
    vrs: &Vrs,
    pad: u32,
    event: Event,
)
    requires block { IsSome (block_slot block) }
    requires count { event.count ≡ 0 }
    ensures { state_of core.new (B.memory bus.new) events.new ≡ enter_handler (state_of core.old (B.memory bus.old) events.old) block vrs.now.r pad event }
{
    land(bus, block);
    core.regs = landing_registers(&core.regs, vrs, pad, block);
    bus.release_below(vrs.r[SP as usize]);
    events.push(event);
}

/// Enters what phase 2 found in a frame, for the exception of a control block. The handler of a catch is given `object`.
pub(crate) fn enter_landing<B: Bus>(
    core: &mut Core,
    bus: &mut B,
    events: &mut Events,
    block: u32,
    object: u32,
    frame: &Cursor,
    landing: Landing,
) -> Turned
    requires { IsSome (block_slot block) }
    ensures { (result, state_of core.new (B.memory bus.new) events.new) ≡ enter_landing (state_of core.old (B.memory bus.old) events.old) block object (landing_in_frame (frame_at frame.now) landing) }
{
    let vrs = &frame.vrs;
    let sp = vrs.r[SP as usize];
    match landing {
        Landing::Cleanup { pad, next } => {
            let words = words_of(vrs, next, frame.site);
            enter_cleanup(core, bus, events, block, vrs, pad, &words);
            Turned::Went
        }
        Landing::Catch { pad } => {
            let event = pad_event(EventKind::Catch, pad, sp, object);
            enter_handler(core, bus, events, block, vrs, pad, event);
            Turned::Went
        }
        Landing::Spec { pad } => {
            let event = pad_event(EventKind::Unexpected, pad, sp, 0);
            enter_handler(core, bus, events, block, vrs, pad, event);
            Turned::Went
        }
        Landing::Unexpected => Turned::Ended(End::Terminate(Cause::Unexpected)),
        Landing::Terminate(cause) => Turned::Ended(End::Terminate(cause)),
    }
}
