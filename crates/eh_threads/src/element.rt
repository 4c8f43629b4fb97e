//! One element of a schedule (docs/guide/walks-and-threads.md, "Ends and runs").
ghost use Rattle.std.specs.Prelude.{◌≡◌, ◌<◌, IfSome};
ghost use Rattle.std.specs.Coded.{Coded-set};
ghost use Rattle.eh_machine.specs.Ready.{IsReady};
ghost use Rattle.eh_machine.specs.Turns.{CountsFaults};
ghost use Rattle.thread_memory.specs.Seen.{thread_view};
ghost use Rattle.thread_memory.specs.declared.homes.TheConstants.{THREADS};
ghost use Rattle.sim_machines.specs.Checked.{program_of};
ghost use Rattle.eh_threads.specs.Elements.{Joint, joint_of, cache_for_image};
ghost use Rattle.eh_threads.specs.Done.{ElementDone};

use crate::ending::apply_turn;
use crate::entering::enter;
use crate::tags::Tags;
use crate::thread::{Thread, running};
use eh_bus::bus::Bus;
use eh_machine::{CachedTurns, Shared, Turned};
use eh_port::{Sink, Source};
use eh_trace::Events;
use frame_check::Accepted;
use thread_memory::{Owners, THREADS, ThreadBus};

/// Threads of an accepted image that share a memory: the whole state of their run except its schedule, input and output.
#[derive(Drop)]
pub struct Threads<'a, B: Bus> {
    /// The image that runs.
    pub accepted: &'a Accepted<'a>,
    /// The same image, with the instructions decoded from it so far.
    pub turns: CachedTurns<'a>,
    /// The threads by number; `None` for one that was never started.
    pub threads: [Option<Thread>; THREADS],
    /// The number of the thread that ran last. The memory reads as that thread sees it.
    pub entered: usize,
    /// What each slot of the pool held when that thread was entered.
    pub owners: Owners,
    /// The memory, as the thread that ran last sees it.
    pub shared: Shared<ThreadBus<B>>,
    /// The trace of all threads so far.
    pub events: Events,
    /// The thread of each event that is kept.
    pub tags: Tags,
    ghost of_image: { turns ≡ cache_for_image accepted.now turns } by { Coded-set turns-code turns (cache_for_image accepted.now turns) },
}

impl<'a, B: Bus> Threads<'a, B> {
    /// Does one element of a schedule, for the thread that it names. A running thread does one event, starts a thread, or ends. An element
    /// of any other thread is passed over. A trap, a terminate, a fault of input or output, and the end of the last running thread end the
    /// run. Cached instructions are compared with memory once more. Takes no memory.
    #[tactic(auto, using(crate::proofs::Elements::still_of))]
    pub fn element<I: Source, O: Sink>(
        &mut self,
        named: Option<usize>,
        input: &mut I,
        out: &mut O,
    ) -> Turned
        requires { IfSome named (λ thread. thread < THREADS) }
        ensures told { IfSome (I.left input.old) (λ bytes.
            let old : Joint = joint_of self.old.threads self.old.entered self.old.owners.slots
            (thread_view (B.memory self.old.shared.bus.inner) self.old.shared.bus.guards self.old.shared.bus.thread) self.old.events self.old.tags in
            let new : Joint = joint_of self.new.threads self.new.entered self.new.owners.slots
            (thread_view (B.memory self.new.shared.bus.inner) self.new.shared.bus.guards self.new.shared.bus.thread) self.new.events self.new.tags in
            ElementDone (program_of self.old.accepted.now) named old bytes result new (I.left input.new) (O.written out.old) (O.written out.new)) }
        ensures faults { CountsFaults (λ end. result ≡ Turned.Ended end) (I.faults input.old) (I.faults input.new) (O.faults out.old) (O.faults out.new) }
        ensures accepted { self.new.accepted ≡ self.old.accepted }
    {
        self.turns.doubt();
        self.element_confirmed(named, input, out)
    }

    /// The same; the decode cache must be ready for this memory, and is ready for it afterwards too.
    #[inline(always)]
    #[tactic(auto, using(crate::proofs::Elements::still_of))]
    pub(crate) fn element_confirmed<I: Source, O: Sink>(
        &mut self,
        named: Option<usize>,
        input: &mut I,
        out: &mut O,
    ) -> Turned
        requires named { IfSome named (λ thread. thread < THREADS) }
        requires ready { IsReady (thread_view (B.memory self.old.shared.bus.inner) self.old.shared.bus.guards self.old.shared.bus.thread) self.old.turns }
        ensures ready { IsReady (thread_view (B.memory self.new.shared.bus.inner) self.new.shared.bus.guards self.new.shared.bus.thread) self.new.turns }
        ensures told { IfSome (I.left input.old) (λ bytes.
            let old : Joint = joint_of self.old.threads self.old.entered self.old.owners.slots
            (thread_view (B.memory self.old.shared.bus.inner) self.old.shared.bus.guards self.old.shared.bus.thread) self.old.events self.old.tags in
            let new : Joint = joint_of self.new.threads self.new.entered self.new.owners.slots
            (thread_view (B.memory self.new.shared.bus.inner) self.new.shared.bus.guards self.new.shared.bus.thread) self.new.events self.new.tags in
            ElementDone (program_of self.old.accepted.now) named old bytes result new (I.left input.new) (O.written out.old) (O.written out.new)) }
        ensures faults { CountsFaults (λ end. result ≡ Turned.Ended end) (I.faults input.old) (I.faults input.new) (O.faults out.old) (O.faults out.new) }
        ensures accepted { self.new.accepted ≡ self.old.accepted }
    {
        let Some(thread) = running(&self.threads, named) else {
            return Turned::Went;
        };
        enter(&mut self.shared.bus, &mut self.owners, self.entered, thread);
        self.entered = thread;
        let Some(slot) = &mut self.threads[thread] else {
            return Turned::Went;
        };
        let did = self.turns.turn_confirmed(
            &mut slot.core,
            &mut self.shared,
            &mut self.events,
            input,
            out,
        );
        let answer = apply_turn(self.accepted, &mut self.threads, thread, did);
        self.tags.reach(thread as u8, self.events.kept().len());
        answer
    }
}
