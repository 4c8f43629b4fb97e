//! Runs of at most a given number of events (docs/rules/machine.md).
ghost use Rattle.std.specs.Prelude.{◌≡◌, IfSome};
ghost use Rattle.run_events.specs.Runs.{Runs};
ghost use Rattle.eh_gates.specs.State.{State, state_of};
ghost use Rattle.run_gates.specs.Runs.{RunsGiven};
ghost use Rattle.sim_machines.specs.Checked.{program_of};
ghost use Rattle.sim_machines.specs.Machine.{machine_of};
ghost use Rattle.eh_machine.specs.Turns.{CountsFaults};
ghost use Rattle.eh_machine.specs.Follows.{FollowsRun};

use crate::accepted::holds;
use crate::decode_cache::DecodeCache;
use crate::event::{Shared, turn_fast, turn_slow};
use eh_bus::bus::Bus;
use eh_gates::{Core, Turned};
use eh_port::{Sink, Source};
use eh_trace::Events;
use frame_check::Accepted;
use thumb_core::ends::End;

/// A run of an accepted image: its whole state except input and output.
#[derive(Drop)]
pub struct Machine<'a, B: Bus> {
    /// The image that runs.
    pub accepted: &'a Accepted<'a>,
    /// The registers, and the heads of the runtime's chains of exceptions.
    pub core: Core,
    /// The memory, with its guarded words.
    pub shared: Shared<B>,
    /// The trace so far.
    pub events: Events,
    /// The number of events left of the budget.
    pub left: u64,
}

impl<'a, B: Bus> Machine<'a, B> {
    /// Runs until an event ends the run or the budget is spent. The event that ends the run counts too. A further call goes on where this
    /// one stopped. If the source doesn't tell what it holds, each event is one on bytes that it gave (`given`). The machine with recorded
    /// activations makes the same run. Takes no memory.
    pub fn run<I: Source, O: Sink>(&mut self, input: &mut I, out: &mut O) -> End
        ensures told { IfSome (I.left input.old) (λ bytes.
            let old : State = state_of self.old.core (B.memory self.old.shared.bus) self.old.events in
            let new : State = state_of self.new.core (B.memory self.new.shared.bus) self.new.events in
            Runs (machine_of (program_of self.old.accepted.now)) self.old.left old bytes result new self.new.left (I.left input.new) (O.written out.old) (O.written out.new)) }
        ensures given { let old : State = state_of self.old.core (B.memory self.old.shared.bus) self.old.events in
            let new : State = state_of self.new.core (B.memory self.new.shared.bus) self.new.events in
            RunsGiven (machine_of (program_of self.old.accepted.now)) self.old.left old result new self.new.left (O.written out.old) (O.written out.new) }
        ensures recorded { IfSome (I.left input.old) (λ bytes.
            let old : State = state_of self.old.core (B.memory self.old.shared.bus) self.old.events in
            let new : State = state_of self.new.core (B.memory self.new.shared.bus) self.new.events in
            FollowsRun self.old.accepted.now self.old.left old bytes result new self.new.left (I.left input.new) (O.written out.old) (O.written out.new)) }
        ensures faults { CountsFaults (λ end. result ≡ end) (I.faults input.old) (I.faults input.new) (O.faults out.old) (O.faults out.new) }
        ensures accepted { self.new.accepted ≡ self.old.accepted }
    {
        let accepted = self.accepted;
        holds(accepted);
        let mut cache = DecodeCache::new();
        // counted in a local, so that an event needn't write it to the machine
        let mut left = self.left;
        while left > 0 {
            if turn_fast(accepted, &cache, &mut self.core, &mut self.shared.bus) {
                left -= 1;
                continue;
            }
            match turn_slow(
                accepted,
                &mut cache,
                &mut self.core,
                &mut self.shared,
                &mut self.events,
                input,
                out,
            ) {
                Turned::Went => left -= 1,
                Turned::Ended(end) => {
                    self.left = left - 1;
                    return end;
                }
            }
        }
        self.left = left;
        End::Budget
    }

    /// The events so far.
    pub fn events(&self) -> &Events
        ensures { result.now ≡ self.now.events }
    {
        &self.events
    }

    /// The registers, and the runtime's state of exceptions outside the pool.
    pub fn core(&self) -> &Core
        ensures { result.now ≡ self.now.core }
    {
        &self.core
    }
}
