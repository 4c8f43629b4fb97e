//! Forced unwinding: an exception is thrown to a frame given by its number, past all handlers inside that frame
//! (docs/guide/walks-and-threads.md, "Forced unwinding").
ghost use Rattle.std.specs.Prelude.{◌≡◌, ◌≤◌};
ghost use Rattle.eh_gates.specs.State.{state_of};
ghost use Rattle.sim_machines.specs.Checked.{program_of};
ghost use Rattle.eh_walk.specs.Forced.{force_outcome, allocate_and_fly, forced_event, stop_barrier};
ghost use Rattle.eh_walk.specs.Laws.{ForcesActivations};

use crate::sites::site;
use crate::stopping::{ForceFault, StopFrame, StopRequest, stop_from};
use eh_bus::bus::Bus;
use eh_cxa::{allocate, innermost_sp, start_throw};
use eh_gates::throw_to;
use eh_machine::{Core, Shared, tables};
use eh_match::Match;
use eh_phase::Barrier;
use eh_trace::event::MAX_BYTES;
use eh_trace::{Event, EventKind, Events};
use frame_check::Accepted;

/// What a forced unwinding throws, from where and to where.
#[derive(Clone, Copy)]
pub(crate) struct Forcing {
    /// The site of the innermost frame.
    pub site: u32,
    /// The address of the type that is thrown.
    pub ty: u32,
    /// Where it stops.
    pub stop: StopFrame,
}

/// The event of a throw of an object without bytes.
fn forced_event(object: u32, ty: u32) -> Event
    ensures is { result ≡ forced_event object ty }
    ensures count { result.count ≤ MAX_BYTES }
{
    Event {
        kind: EventKind::Throw,
        a: object,
        b: ty,
        c: 0,
        bytes: [0; MAX_BYTES],
        count: 0,
    }
}

fn stop_barrier(object: u32, stop: &StopFrame) -> Barrier
    ensures { result ≡ stop_barrier object stop.now }
{
    Barrier {
        sp: stop.sp,
        desc: stop.desc,
        site: stop.site,
        hit: Match::Object(object),
    }
}

/// Makes a new exception, records the event of its throw, and lets it fly to the stop. `PoolFull` if no slot is free, and then nothing
/// changes.
fn allocate_and_fly<B: Bus>(
    a: &Accepted,
    core: &mut Core,
    shared: &mut Shared<B>,
    events: &mut Events,
    f: &Forcing,
) -> Result<(), ForceFault>
    ensures { (result, state_of core.new (B.memory shared.new.bus) events.new) ≡ allocate_and_fly (program_of a.now) f.now (state_of core.old (B.memory shared.old.bus) events.old) }
{
    let object = match allocate(&mut shared.bus, 0) {
        Ok(object) => object,
        Err(_) => return Err(ForceFault::PoolFull),
    };
    events.push(forced_event(object, f.ty));
    match start_throw(&mut shared.bus, &mut core.globals, object, f.ty, 0) {
        Ok(block) => {
            let b = stop_barrier(object, &f.stop);
            let _turned = throw_to(&tables(a), core, &mut shared.bus, events, f.site, block, &b);
            Ok(())
        }
        Err(_) => Ok(()),
    }
}

/// Unwinds to frame `number` (0 is the innermost), past all handlers inside it. An object without bytes, of a given type, is thrown from
/// the state's site. Its barrier is the first catch of everything in scope in that frame. Each refusal leaves everything as it was; the
/// first that applies is given. Takes no memory. The machine with recorded activations does the same.
pub fn force<B: Bus>(
    a: &Accepted,
    core: &mut Core,
    shared: &mut Shared<B>,
    events: &mut Events,
    stop: usize,
    ty: u32,
) -> Result<(), ForceFault>
    ensures bytes { (result, state_of core.new (B.memory shared.new.bus) events.new) ≡ force_outcome (program_of a.now) stop ty (state_of core.old (B.memory shared.old.bus) events.old) }
    ensures recorded { ForcesActivations a.now stop ty (state_of core.old (B.memory shared.old.bus) events.old) result (state_of core.new (B.memory shared.new.bus) events.new) }
{
    a.holds();
    let _ = a.image().functions();
    let Some(from) = site(a, core, shared) else {
        return Err(ForceFault::NotSite);
    };
    let t = tables(a);
    let sought = StopRequest {
        number: stop,
        limit: innermost_sp(&shared.bus, &core.globals),
        holds: t.types.holds(ty),
    };
    match stop_from(&t, &shared.bus, &core.regs, from, &sought) {
        Ok(stop) => allocate_and_fly(
            a,
            core,
            shared,
            events,
            &Forcing {
                site: from,
                ty,
                stop,
            },
        ),
        Err(fault) => Err(fault),
    }
}
