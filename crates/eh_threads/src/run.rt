//! Runs of at most a given number of elements of a schedule (docs/guide/walks-and-threads.md, "Ends and runs").
ghost use Rattle.std.specs.Prelude.{◌≡◌, IfSome, None};
ghost use Rattle.eh_machine.specs.Ready.{IsReady};
ghost use Rattle.eh_machine.specs.Turns.{CountsFaults};
ghost use Rattle.thread_memory.specs.Seen.{thread_view};
ghost use Rattle.sim_machines.specs.Checked.{program_of};
ghost use Rattle.eh_threads.specs.Threads.{exit_number_of_all};
ghost use Rattle.eh_threads.specs.Elements.{Joint, joint_of};
ghost use Rattle.eh_threads.specs.Done.{RunsSchedule};

use crate::element::Threads;
use crate::schedule::{place_after, thread_at};
use crate::thread::exit_number_of_all;
use eh_bus::bus::Bus;
use eh_machine::Turned;
use eh_port::{Sink, Source};
use thumb_core::ends::End;

impl<'a, B: Bus> Threads<'a, B> {
    /// Runs at most `budget` elements of a schedule. Its bytes are digits of threads; after the last byte comes the first again. Any other
    /// byte names no thread, and its element is passed over. When every started thread has ended, the run ends with the number of the
    /// first; this may be before any element. A further call goes on with the threads as this one left them. Takes no memory.
    #[tactic(auto, using(crate::proofs::Elements::still_of))]
    pub fn run_schedule<I: Source, O: Sink>(
        &mut self,
        schedule: &[u8],
        budget: u64,
        input: &mut I,
        out: &mut O,
    ) -> End
        ensures told { IfSome (I.left input.old) (λ bytes.
            let old : Joint = joint_of self.old.threads self.old.entered self.old.owners.slots
            (thread_view (B.memory self.old.shared.bus.inner) self.old.shared.bus.guards self.old.shared.bus.thread) self.old.events self.old.tags in
            let new : Joint = joint_of self.new.threads self.new.entered self.new.owners.slots
            (thread_view (B.memory self.new.shared.bus.inner) self.new.shared.bus.guards self.new.shared.bus.thread) self.new.events self.new.tags in
            RunsSchedule (program_of self.old.accepted.now) schedule.now budget old bytes result new (I.left input.new) (O.written out.old) (O.written out.new)) }
        ensures faults { CountsFaults (λ end. result ≡ end) (I.faults input.old) (I.faults input.new) (O.faults out.old) (O.faults out.new) }
        ensures accepted { self.new.accepted ≡ self.old.accepted }
    {
        match exit_number_of_all(&self.threads) {
            Some(number) => End::Exit(number),
            None => {
                // the memory may have changed since the last run
                self.turns.doubt();
                self.elements(schedule, budget, input, out)
            }
        }
    }

    /// The same while a thread runs; the decode cache must be ready for this memory.
    fn elements<I: Source, O: Sink>(
        &mut self,
        schedule: &[u8],
        budget: u64,
        input: &mut I,
        out: &mut O,
    ) -> End
        requires runs { exit_number_of_all self.old.threads ≡ None }
        requires ready { IsReady (thread_view (B.memory self.old.shared.bus.inner) self.old.shared.bus.guards self.old.shared.bus.thread) self.old.turns }
        ensures told { IfSome (I.left input.old) (λ bytes.
            let old : Joint = joint_of self.old.threads self.old.entered self.old.owners.slots
            (thread_view (B.memory self.old.shared.bus.inner) self.old.shared.bus.guards self.old.shared.bus.thread) self.old.events self.old.tags in
            let new : Joint = joint_of self.new.threads self.new.entered self.new.owners.slots
            (thread_view (B.memory self.new.shared.bus.inner) self.new.shared.bus.guards self.new.shared.bus.thread) self.new.events self.new.tags in
            RunsSchedule (program_of self.old.accepted.now) schedule.now budget old bytes result new (I.left input.new) (O.written out.old) (O.written out.new)) }
        ensures faults { CountsFaults (λ end. result ≡ end) (I.faults input.old) (I.faults input.new) (O.faults out.old) (O.faults out.new) }
        ensures accepted { self.new.accepted ≡ self.old.accepted }
    {
        // an empty schedule names no thread
        if schedule.is_empty() {
            return End::Budget;
        }
        let mut left = budget;
        let mut at = 0;
        while left > 0 {
            match self.element_confirmed(thread_at(schedule, at), input, out) {
                Turned::Went => {
                    left -= 1;
                    at = place_after(schedule, at);
                }
                Turned::Ended(end) => return end,
            }
        }
        End::Budget
    }
}
