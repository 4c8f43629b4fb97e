//! The threads of a run, by their numbers (docs/guide/walks-and-threads.md, "Threads").
ghost use Rattle.std.specs.Prelude.{◌≡◌, ◌<◌, IfNone, IfSome, None, Some, is_some, slice_index_or, true};
ghost use Rattle.thread_memory.specs.declared.homes.TheConstants.{THREADS};
ghost use Rattle.eh_threads.specs.Threads.{core_of, running, none_runs, exit_number, exit_number_of_all, put_thread};

use eh_gates::Core;
use thread_memory::THREADS;

/// A started thread.
#[derive(Clone, Copy)]
pub struct Thread {
    /// Its registers, and its state of exceptions outside the pool.
    pub core: Core,
    /// The number that it ended with; `None` while it runs.
    pub ended: Option<u32>,
}

/// Whether a thread runs. One that was never started doesn't.
#[inline(always)]
pub(crate) fn runs(thread: &Option<Thread>) -> bool
    ensures { result ≡ is_some (core_of thread.now) }
{
    match thread {
        None => false,
        Some(thread) => thread.ended.is_none(),
    }
}

/// The number of the named thread, if it runs.
#[inline(always)]
pub(crate) fn running(threads: &[Option<Thread>; THREADS], named: Option<usize>) -> Option<usize>
    requires { IfSome named (λ thread. thread < THREADS) }
    ensures none { IfNone result (running threads.now named ≡ None) }
    ensures named { IfSome result (λ thread. named ≡ Some thread) }
    ensures runs { IfSome result (λ thread. is_some (core_of (slice_index_or threads.now thread None)) ≡ true) }
    ensures within { IfSome result (λ thread. thread < THREADS) }
{
    match named {
        Some(thread) if runs(&threads[thread]) => Some(thread),
        Some(_) | None => None,
    }
}

/// Whether no thread runs.
fn none_runs(threads: &[Option<Thread>]) -> bool
    ensures { result ≡ none_runs threads.now }
{
    for thread in threads {
        if runs(thread) {
            return false;
        }
    }
    true
}

/// The number that a thread ended with, if it ended.
fn exit_number(thread: &Option<Thread>) -> Option<u32>
    ensures { result ≡ exit_number thread.now }
{
    match thread {
        None => None,
        Some(thread) => thread.ended,
    }
}

/// The number that the first thread ended with, if every started thread has ended.
pub(crate) fn exit_number_of_all(threads: &[Option<Thread>; THREADS]) -> Option<u32>
    ensures { result ≡ exit_number_of_all threads.now }
{
    if none_runs(threads) {
        exit_number(&threads[0])
    } else {
        None
    }
}

/// Stores a thread under its number.
pub(crate) fn put_thread(
    threads: &mut [Option<Thread>; THREADS],
    thread: usize,
    core: &Core,
    ended: Option<u32>,
)
    requires { thread < THREADS }
    ensures { threads.new ≡ put_thread threads.old thread core.now ended }
{
    threads[thread] = Some(Thread { core: *core, ended });
}
