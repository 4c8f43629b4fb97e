//! Switching to another thread, when an element of the schedule names one (docs/guide/walks-and-threads.md, "Ends and runs").
ghost use Rattle.std.specs.Prelude.{◌≡◌, ◌<◌};
ghost use Rattle.eh_bus.specs.Map.{SameMap};
ghost use Rattle.thread_memory.specs.Seen.{thread_view};
ghost use Rattle.thread_memory.specs.declared.homes.TheConstants.{THREADS};
ghost use Rattle.eh_threads.specs.Elements.{owners_at_switch, memory_at_switch};

use eh_bus::bus::Bus;
use thread_memory::{Owners, THREADS, ThreadBus};

/// Switches to a thread from the one that ran last. If it is the same one, nothing is done. The memory map stays.
pub(crate) fn enter<B: Bus>(
    bus: &mut ThreadBus<B>,
    owners: &mut Owners,
    entered: usize,
    thread: usize,
)
    requires { thread < THREADS }
    ensures owners { owners.new.slots ≡ owners_at_switch thread entered (thread_view (B.memory bus.old.inner) bus.old.guards bus.old.thread) owners.old.slots }
    ensures map { SameMap (B.memory bus.old.inner).segments (B.memory bus.new.inner).segments }
    ensures memory { thread_view (B.memory bus.new.inner) bus.new.guards bus.new.thread ≡ memory_at_switch thread entered (thread_view (B.memory bus.old.inner) bus.old.guards bus.old.thread) owners.old.slots }
{
    if thread == entered {
        return;
    }
    bus.enter(owners, entered, thread);
}
