//! The stacks of threads, one home for each thread; docs/guide/walks-and-threads.md states where they lie.
ghost use Rattle.std.specs.Prelude.{◌≡◌, ◌<◌};
ghost use Rattle.thread_memory.specs.Homes.{home_of};

use eh_bus::map::STACK_END;
use mem_guards::guards::{HOME_SIZE, HOMES};

/// The greatest number of threads: one for each home.
pub const THREADS: usize = HOMES;

/// The stack of a thread: its first address, and the one after its last. The home of thread 0 ends where the whole stack ends.
pub fn home_of(thread: usize) -> (u32, u32)
    requires { thread < THREADS }
    ensures { result ≡ home_of thread }
{
    let end = STACK_END - HOME_SIZE * thread as u32;
    (end - HOME_SIZE, end)
}
