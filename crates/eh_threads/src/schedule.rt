//! Stepping through the elements of a schedule (docs/guide/walks-and-threads.md, "Schedules").
ghost use Rattle.std.specs.Prelude.{◌≡◌, ◌<◌, length, IfSome};
ghost use Rattle.thread_memory.specs.declared.homes.TheConstants.{THREADS};
ghost use Rattle.eh_threads.specs.Schedules.{thread_of, thread_at, place_after};

use thread_memory::THREADS;
use thread_schedule::schedule::FIRST_DIGIT;

/// The thread that a byte names, if it is a thread's digit.
#[inline(always)]
fn thread_of(byte: u8) -> Option<usize>
    ensures is { result ≡ thread_of byte }
    ensures within { IfSome result (λ thread. thread < THREADS) }
{
    let thread = usize::from(byte.wrapping_sub(FIRST_DIGIT));
    if thread < THREADS { Some(thread) } else { None }
}

/// The thread that the element at an index names, if it names one.
#[inline(always)]
#[tactic(auto, using(crate::proofs::Looking::named_at))]
pub(crate) fn thread_at(schedule: &[u8], at: usize) -> Option<usize>
    requires { at < length schedule.now }
    ensures is { result ≡ thread_at schedule.now at }
    ensures within { IfSome result (λ thread. thread < THREADS) }
{
    thread_of(schedule[at])
}

/// The index of the next element: after the last comes the first again.
#[inline(always)]
pub(crate) fn place_after(schedule: &[u8], at: usize) -> usize
    requires { at < length schedule.now }
    ensures is { result ≡ place_after schedule.now at }
    ensures within { result < length schedule.now }
{
    let next = at + 1;
    if next < schedule.len() { next } else { 0 }
}
