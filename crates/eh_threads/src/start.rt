//! The threads at the start of a run (docs/guide/walks-and-threads.md, "Ends and runs").
ghost use Rattle.std.specs.Prelude.{◌≡◌, [], IfOk};
ghost use Rattle.mem_buses.specs.Paged.{memory_of};
ghost use Rattle.eh_gates.specs.State.{state_of};
ghost use Rattle.thread_memory.specs.Seen.{thread_view};
ghost use Rattle.sim_machines.specs.Checked.{program_of};
ghost use Rattle.sim_machines.specs.Start.{start_of};
ghost use Rattle.eh_threads.specs.Elements.{joint_of, joint_over};
ghost use Rattle.eh_threads.specs.declared.start.RunMemory.TheVariants.{OutOfMemory};

use crate::element::Threads;
use crate::tags::Tags;
use crate::thread::Thread;
use eh_bus::bus::Bus;
use eh_machine::{CachedTurns, Core, MachineMemory, Shared, start_parts};
use eh_trace::{Events, TraceMemory};
use frame_check::Accepted;
use mem_buses::paged::PagedBus;
use std::alloc::Global;
use thread_memory::{Owners, THREADS, ThreadBus, ThreadMemory};

/// There was no memory for a run of threads.
#[derive(Clone, Copy)]
pub enum RunMemory {
    /// An allocation failed.
    OutOfMemory,
}

impl From<MachineMemory> for RunMemory {
    ghost from_gives = { λ _ e. e ≡ OutOfMemory };

    fn from(_e: MachineMemory) -> RunMemory {
        RunMemory::OutOfMemory
    }
}

impl From<TraceMemory> for RunMemory {
    ghost from_gives = { λ _ e. e ≡ OutOfMemory };

    fn from(_e: TraceMemory) -> RunMemory {
        RunMemory::OutOfMemory
    }
}

impl From<ThreadMemory> for RunMemory {
    ghost from_gives = { λ _ e. e ≡ OutOfMemory };

    fn from(_e: ThreadMemory) -> RunMemory {
        RunMemory::OutOfMemory
    }
}

/// Thread 0 alone, with this core.
fn first_alone(core: Core) -> [Option<Thread>; THREADS]
    ensures { result ≡ Rattle.eh_threads.specs.Elements.first_alone core }
{
    [Some(Thread { core, ended: None }), None, None, None]
}

impl<'a, B: Bus + Drop> Threads<'a, B> {
    /// Thread 0 alone, with a core, over a memory without guarded words. The events so far get no tags. `OutOfMemory` if there was none.
    fn over(
        alloc: Global,
        a: &'a Accepted<'a>,
        core: Core,
        bus: B,
        events: Events,
    ) -> Result<Self, RunMemory>
        requires { (B.memory bus).guards ≡ [] }
        ensures state { IfOk result (λ t. joint_of t.threads t.entered t.owners.slots (thread_view (B.memory t.shared.bus.inner) t.shared.bus.guards t.shared.bus.thread) t.events t.tags
            ≡ joint_over (state_of core (B.memory bus) events)) }
        ensures program { IfOk result (λ t. t.accepted.now ≡ a.now) }
    {
        let tags = Tags::reserve(alloc)?;
        let owners = Owners::unowned(&bus);
        let bus = ThreadBus::over(alloc, bus)?;
        Ok(Threads {
            accepted: a,
            turns: CachedTurns::of(a),
            threads: first_alone(core),
            entered: 0,
            owners,
            shared: Shared { bus },
            events,
            tags,
        })
    }
}

impl<'a> Threads<'a, PagedBus> {
    /// The start of a run: thread 0 alone, at the start of the program. `OutOfMemory` if there was no memory for it.
    pub fn start(alloc: Global, a: &'a Accepted<'a>) -> Result<Self, RunMemory>
        ensures state { IfOk result (λ t. joint_of t.threads t.entered t.owners.slots (thread_view (memory_of t.shared.bus.inner) t.shared.bus.guards t.shared.bus.thread) t.events t.tags
            ≡ joint_over (start_of (program_of a.now))) }
        ensures program { IfOk result (λ t. t.accepted.now ≡ a.now) }
    {
        let (core, shared, events) = start_parts(alloc, a)?;
        Threads::over(alloc, a, core, shared.bus, events)
    }
}
