//! One event of the machine (docs/rules/machine.md, "An event").
ghost use Rattle.std.specs.Prelude.{◌≡◌, IfSome, IfOk, IfErr, Err};
ghost use Rattle.eh_bus.specs.Map.{SameMap};
ghost use Rattle.eh_gates.specs.State.{State, state_of};
ghost use Rattle.run_gates.specs.Given.{OnGiven};
ghost use Rattle.sim_machines.specs.Checked.{program_of};
ghost use Rattle.thumb_ahead.specs.Ahead.{IsAhead};
ghost use Rattle.eh_machine.specs.Cached.{IsCache, IsConfirmed};
ghost use Rattle.eh_machine.specs.Passes.{IsFetched, Passes, TriesInstruction};
ghost use Rattle.eh_machine.specs.Turns.{TurnedOnce, CountsFaults};
ghost use Rattle.eh_machine.specs.Follows.{FollowsOnce};

use crate::accepted::{holds, tables};
use crate::decode_cache::DecodeCache;
use crate::pass::{CheckedInstr, fast_path, fetch_checked, pass_instruction};
use eh_bus::bus::Bus;
use eh_gates::{Core, Turned, gate};
use eh_port::{Sink, Source};
use eh_trace::Events;
use frame_check::Accepted;
use run_gates::INPUT_GATE;
use thumb_ahead::{Ahead, look_ahead};
use thumb_core::ends::End;
use thumb_core::regs::Stepped;

/// What the threads of a run share: the memory.
#[derive(Drop)]
pub struct Shared<B> {
    /// The memory.
    pub bus: B,
}

/// Does one event of a run of an accepted image: the instruction at pc, and its gate if it is an SVC. A trap, an exit and a fault leave
/// registers, globals and memory as they were. So does a terminate before the exception flies. `ReadFault` comes only at the input gate,
/// and `WriteFault` only at the output gate, where the fault count of the source or the sink rose in this call. `given` says the same of a
/// source whose remaining bytes aren't known, on the bytes that it gave. The machine with recorded activations does the same event. Takes
/// no memory, and constant time except for a throw.
pub fn turn<B: Bus, I: Source, O: Sink>(
    a: &Accepted,
    core: &mut Core,
    shared: &mut Shared<B>,
    events: &mut Events,
    input: &mut I,
    out: &mut O,
) -> Turned
    ensures told { IfSome (I.left input.old) (λ bytes.
        let old : State = state_of core.old (B.memory shared.old.bus) events.old in
        let new : State = state_of core.new (B.memory shared.new.bus) events.new in
        TurnedOnce (program_of a.now) old bytes result new (I.left input.new) (O.written out.old) (O.written out.new)) }
    ensures given { OnGiven (λ bytes left.
        let old : State = state_of core.old (B.memory shared.old.bus) events.old in
        let new : State = state_of core.new (B.memory shared.new.bus) events.new in
        TurnedOnce (program_of a.now) old bytes result new left (O.written out.old) (O.written out.new)) }
    ensures recorded { IfSome (I.left input.old) (λ bytes.
        let old : State = state_of core.old (B.memory shared.old.bus) events.old in
        let new : State = state_of core.new (B.memory shared.new.bus) events.new in
        FollowsOnce a.now old bytes result new (I.left input.new) (O.written out.old) (O.written out.new)) }
    ensures faults { CountsFaults (λ end. result ≡ Turned.Ended end) (I.faults input.old) (I.faults input.new) (O.faults out.old) (O.faults out.new) }
{
    holds(a);
    match fetch_checked(a, core, &shared.bus) {
        Ok(at) => turn_at(a, None, &at, core, shared, events, input, out),
        Err(end) => Turned::Ended(end),
    }
}

/// The same with a decode cache, which is updated. Its confirmed lines must hold of this memory. No event changes the segments, so they
/// still hold afterwards.
#[inline(always)]
pub(crate) fn turn_confirmed<B: Bus, I: Source, O: Sink>(
    a: &Accepted,
    cache: &mut DecodeCache,
    core: &mut Core,
    shared: &mut Shared<B>,
    events: &mut Events,
    input: &mut I,
    out: &mut O,
) -> Turned
    requires cache { IsCache (program_of a.now) cache.old }
    requires confirmed { IsConfirmed (B.memory shared.old.bus) cache.old }
    ensures cache { IsCache (program_of a.now) cache.new }
    ensures confirmed { IsConfirmed (B.memory shared.new.bus) cache.new }
    ensures told { IfSome (I.left input.old) (λ bytes.
        let old : State = state_of core.old (B.memory shared.old.bus) events.old in
        let new : State = state_of core.new (B.memory shared.new.bus) events.new in
        TurnedOnce (program_of a.now) old bytes result new (I.left input.new) (O.written out.old) (O.written out.new)) }
    ensures given { OnGiven (λ bytes left.
        let old : State = state_of core.old (B.memory shared.old.bus) events.old in
        let new : State = state_of core.new (B.memory shared.new.bus) events.new in
        TurnedOnce (program_of a.now) old bytes result new left (O.written out.old) (O.written out.new)) }
    ensures faults { CountsFaults (λ end. result ≡ Turned.Ended end) (I.faults input.old) (I.faults input.new) (O.faults out.old) (O.faults out.new) }
{
    if turn_fast(a, cache, core, &mut shared.bus) {
        return Turned::Went;
    }
    turn_slow(a, cache, core, shared, events, input, out)
}

/// Whether the instruction at pc is confirmed and took the fast path. Otherwise nothing is changed. Most events are of this kind, so it
/// answers nothing else.
#[inline(always)]
pub(crate) fn turn_fast<B: Bus>(
    a: &Accepted,
    cache: &DecodeCache,
    core: &mut Core,
    bus: &mut B,
) -> bool
    requires cache { IsCache (program_of a.now) cache.now }
    requires confirmed { IsConfirmed (B.memory bus.old) cache.now }
    ensures { TriesInstruction (program_of a.now) core.old (B.memory bus.old) result core.new (B.memory bus.new) }
{
    let Some(at) = cache.find_confirmed(core.regs.pc) else {
        return false;
    };
    let ahead = look_ahead(at.instr, &core.regs);
    fast_path(a, Some(cache), at, ahead, core, bus)
}

/// Any other event: its instruction isn't confirmed, or the fast path doesn't do it.
pub(crate) fn turn_slow<B: Bus, I: Source, O: Sink>(
    a: &Accepted,
    cache: &mut DecodeCache,
    core: &mut Core,
    shared: &mut Shared<B>,
    events: &mut Events,
    input: &mut I,
    out: &mut O,
) -> Turned
    requires cache { IsCache (program_of a.now) cache.old }
    requires confirmed { IsConfirmed (B.memory shared.old.bus) cache.old }
    ensures cache { IsCache (program_of a.now) cache.new }
    ensures confirmed { IsConfirmed (B.memory shared.new.bus) cache.new }
    ensures told { IfSome (I.left input.old) (λ bytes.
        let old : State = state_of core.old (B.memory shared.old.bus) events.old in
        let new : State = state_of core.new (B.memory shared.new.bus) events.new in
        TurnedOnce (program_of a.now) old bytes result new (I.left input.new) (O.written out.old) (O.written out.new)) }
    ensures given { OnGiven (λ bytes left.
        let old : State = state_of core.old (B.memory shared.old.bus) events.old in
        let new : State = state_of core.new (B.memory shared.new.bus) events.new in
        TurnedOnce (program_of a.now) old bytes result new left (O.written out.old) (O.written out.new)) }
    ensures faults { CountsFaults (λ end. result ≡ Turned.Ended end) (I.faults input.old) (I.faults input.new) (O.faults out.old) (O.faults out.new) }
{
    let Some(at) = cache.find_confirmed(core.regs.pc) else {
        return turn_unconfirmed(a, cache, core, shared, events, input, out);
    };
    let ahead = look_ahead(at.instr, &core.regs);
    slow_path(a, at, ahead, core, shared, events, input, out)
}

/// The instruction at pc, which isn't confirmed: from its cache line if the memory still has its halfwords there, otherwise fetched.
#[inline(always)]
fn find_or_fetch<B: Bus>(
    a: &Accepted,
    cache: &DecodeCache,
    core: &Core,
    bus: &B,
) -> Result<CheckedInstr, End>
    requires { IsCache (program_of a.now) cache.now }
    ensures fetched { IfOk result (λ at. IsFetched (program_of a.now) core.now.regs.pc (B.memory bus.now) at) }
    ensures ends { IfErr result (λ end. Passes (program_of a.now) core.now (B.memory bus.now) (Err end) core.now (B.memory bus.now)) }
{
    if let Some(at) = cache.find(core.regs.pc, bus) {
        return Ok(*at);
    }
    fetch_checked(a, core, bus)
}

/// An event whose instruction isn't confirmed: it is found or fetched, and kept. A call of its own, so that no other event pays for it.
#[inline(never)]
fn turn_unconfirmed<B: Bus, I: Source, O: Sink>(
    a: &Accepted,
    cache: &mut DecodeCache,
    core: &mut Core,
    shared: &mut Shared<B>,
    events: &mut Events,
    input: &mut I,
    out: &mut O,
) -> Turned
    requires cache { IsCache (program_of a.now) cache.old }
    requires confirmed { IsConfirmed (B.memory shared.old.bus) cache.old }
    ensures cache { IsCache (program_of a.now) cache.new }
    ensures confirmed { IsConfirmed (B.memory shared.new.bus) cache.new }
    ensures told { IfSome (I.left input.old) (λ bytes.
        let old : State = state_of core.old (B.memory shared.old.bus) events.old in
        let new : State = state_of core.new (B.memory shared.new.bus) events.new in
        TurnedOnce (program_of a.now) old bytes result new (I.left input.new) (O.written out.old) (O.written out.new)) }
    ensures given { OnGiven (λ bytes left.
        let old : State = state_of core.old (B.memory shared.old.bus) events.old in
        let new : State = state_of core.new (B.memory shared.new.bus) events.new in
        TurnedOnce (program_of a.now) old bytes result new left (O.written out.old) (O.written out.new)) }
    ensures faults { CountsFaults (λ end. result ≡ Turned.Ended end) (I.faults input.old) (I.faults input.new) (O.faults out.old) (O.faults out.new) }
{
    let at = match find_or_fetch(a, cache, core, &shared.bus) {
        Ok(at) => at,
        Err(end) => return Turned::Ended(end),
    };
    let begins = a.is_function(core.regs.pc);
    cache.keep(core.regs.pc, at, begins, &mut shared.bus);
    turn_at(a, Some(cache), &at, core, shared, events, input, out)
}

/// The event of the instruction `at` pc. Most instructions take the fast path: they are checked before they are done. The others are done
/// first.
#[inline(always)]
fn turn_at<B: Bus, I: Source, O: Sink>(
    a: &Accepted,
    cache: Option<&DecodeCache>,
    at: &CheckedInstr,
    core: &mut Core,
    shared: &mut Shared<B>,
    events: &mut Events,
    input: &mut I,
    out: &mut O,
) -> Turned
    requires cache { IfSome cache (λ c. IsCache (program_of a.now) c.now) }
    requires fetched { IsFetched (program_of a.now) core.old.regs.pc (B.memory shared.old.bus) at.now }
    ensures told { IfSome (I.left input.old) (λ bytes.
        let old : State = state_of core.old (B.memory shared.old.bus) events.old in
        let new : State = state_of core.new (B.memory shared.new.bus) events.new in
        TurnedOnce (program_of a.now) old bytes result new (I.left input.new) (O.written out.old) (O.written out.new)) }
    ensures given { OnGiven (λ bytes left.
        let old : State = state_of core.old (B.memory shared.old.bus) events.old in
        let new : State = state_of core.new (B.memory shared.new.bus) events.new in
        TurnedOnce (program_of a.now) old bytes result new left (O.written out.old) (O.written out.new)) }
    ensures faults { CountsFaults (λ end. result ≡ Turned.Ended end) (I.faults input.old) (I.faults input.new) (O.faults out.old) (O.faults out.new) }
    ensures map { SameMap (B.memory shared.old.bus).segments (B.memory shared.new.bus).segments }
{
    let ahead = look_ahead(at.instr, &core.regs);
    // most instructions end here, and don't pay for what the others need
    if fast_path(a, cache, at, ahead, core, &mut shared.bus) {
        return Turned::Went;
    }
    slow_path(a, at, ahead, core, shared, events, input, out)
}

/// Any other instruction `at` pc, in the order of the definition: it is done and checked, its saved words are guarded, and then its gate is
/// done.
#[inline(always)]
fn slow_path<B: Bus, I: Source, O: Sink>(
    a: &Accepted,
    at: &CheckedInstr,
    ahead: Ahead,
    core: &mut Core,
    shared: &mut Shared<B>,
    events: &mut Events,
    input: &mut I,
    out: &mut O,
) -> Turned
    requires fetched { IsFetched (program_of a.now) core.old.regs.pc (B.memory shared.old.bus) at.now }
    requires told { IsAhead at.now.instr core.old.regs ahead }
    ensures told { IfSome (I.left input.old) (λ bytes.
        let old : State = state_of core.old (B.memory shared.old.bus) events.old in
        let new : State = state_of core.new (B.memory shared.new.bus) events.new in
        TurnedOnce (program_of a.now) old bytes result new (I.left input.new) (O.written out.old) (O.written out.new)) }
    ensures given { OnGiven (λ bytes left.
        let old : State = state_of core.old (B.memory shared.old.bus) events.old in
        let new : State = state_of core.new (B.memory shared.new.bus) events.new in
        TurnedOnce (program_of a.now) old bytes result new left (O.written out.old) (O.written out.new)) }
    ensures faults { CountsFaults (λ end. result ≡ Turned.Ended end) (I.faults input.old) (I.faults input.new) (O.faults out.old) (O.faults out.new) }
    ensures map { SameMap (B.memory shared.old.bus).segments (B.memory shared.new.bus).segments }
{
    let pc = core.regs.pc;
    let what = match pass_instruction(a, at, ahead, core, &mut shared.bus) {
        Ok(what) => what,
        Err(end) => return Turned::Ended(end),
    };
    let Stepped::Gate(number) = what else {
        return Turned::Went;
    };
    if number > INPUT_GATE {
        let next = core.regs.pc;
        core.regs.pc = pc;
        return gate(&tables(a), number, next, core, &mut shared.bus, events);
    }
    match run_gates::given::gate(number, pc, &mut core.regs, input, out) {
        None => Turned::Went,
        Some(end) => Turned::Ended(end),
    }
}
