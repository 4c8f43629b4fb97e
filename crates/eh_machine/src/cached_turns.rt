//! Single events of an accepted image, with a decode cache that is kept between them (docs/rules/machine.md, "An event").
ghost use Rattle.std.specs.Prelude.{◌≡◌, IfSome};
ghost use Rattle.eh_bus.specs.Memory.{Memory};
ghost use Rattle.eh_gates.specs.State.{State, state_of};
ghost use Rattle.run_gates.specs.Given.{OnGiven};
ghost use Rattle.sim_machines.specs.Checked.{program_of};
ghost use Rattle.eh_machine.specs.Turns.{TurnedOnce, CountsFaults};
ghost use Rattle.eh_machine.specs.Ready.{IsReady};

use crate::decode_cache::DecodeCache;
use crate::event::{Shared, turn_confirmed};
use eh_bus::bus::Bus;
use eh_gates::{Core, Turned};
use eh_port::{Sink, Source};
use eh_trace::Events;
use frame_check::Accepted;
use std::marker::Model;

/// An accepted image and the instructions decoded from it so far. A run of several threads shares one among them.
#[derive(Drop)]
pub struct CachedTurns<'a> {
    accepted: &'a Accepted<'a>,
    cache: DecodeCache,
}

impl<'a> Model for CachedTurns<'a> {
    ghost use Rattle.sim_machines.specs.Checked.{program_of};
    ghost use Rattle.eh_machine.specs.Cached.{IsCache, IsCounting};
    ghost use Rattle.eh_machine.specs.Ready.{CachedImage};

    ghost Value = { CachedImage };

    ghost view = { λ t. record { image = t.accepted.now; cache = t.cache } };

    ghost invariant = { λ t. IsCache (program_of t.accepted.now) t.cache × IsCounting t.cache };
}

impl<'a> CachedTurns<'a> {
    /// Of an image, with nothing decoded yet.
    pub fn of(a: &'a Accepted<'a>) -> CachedTurns<'a>
        ensures image { result.image ≡ a.now }
        ensures ready { (m : Memory) → IsReady m result }
    {
        CachedTurns {
            accepted: a,
            cache: DecodeCache::new(),
        }
    }

    /// From here on each cached instruction is compared with memory again before it is used. So the cache is ready for every memory. Takes
    /// no memory.
    pub fn doubt(&mut self)
        ensures image { self.new.image ≡ self.old.image }
        ensures ready { (m : Memory) → IsReady m self.new }
    {
        self.cache.doubt();
    }

    /// Does one event of a run of the image, as `turn` does. The cache must be ready for this memory, and is ready for it afterwards too.
    /// An instruction decoded before isn't fetched again. Memory isn't read for one whose bytes were found to lie where nothing may be
    /// written. Takes no memory.
    #[inline(always)]
    #[tactic(auto, using(crate::proofs::Confirmed::counting))]
    pub fn turn_confirmed<B: Bus, I: Source, O: Sink>(
        &mut self,
        core: &mut Core,
        shared: &mut Shared<B>,
        events: &mut Events,
        input: &mut I,
        out: &mut O,
    ) -> Turned
        requires { IsReady (B.memory shared.old.bus) self.old }
        ensures image { self.new.image ≡ self.old.image }
        ensures ready { IsReady (B.memory shared.new.bus) self.new }
        ensures told { IfSome (I.left input.old) (λ bytes.
            let old : State = state_of core.old (B.memory shared.old.bus) events.old in
            let new : State = state_of core.new (B.memory shared.new.bus) events.new in
            TurnedOnce (program_of self.old.image) old bytes result new (I.left input.new) (O.written out.old) (O.written out.new)) }
        ensures given { OnGiven (λ bytes left.
            let old : State = state_of core.old (B.memory shared.old.bus) events.old in
            let new : State = state_of core.new (B.memory shared.new.bus) events.new in
            TurnedOnce (program_of self.old.image) old bytes result new left (O.written out.old) (O.written out.new)) }
        ensures faults { CountsFaults (λ end. result ≡ Turned.Ended end) (I.faults input.old) (I.faults input.new) (O.faults out.old) (O.faults out.new) }
    {
        turn_confirmed(
            self.accepted,
            &mut self.cache,
            core,
            shared,
            events,
            input,
            out,
        )
    }
}
