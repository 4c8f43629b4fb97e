//! What happens to the threads when an event of one of them ends (docs/guide/walks-and-threads.md, "Ends and runs").
ghost use Rattle.std.specs.Prelude.{◌≡◌, ◌<◌, List, Option, None, is_some, slice_index_or, true};
ghost use Rattle.sim_machines.specs.Checked.{program_of};
ghost use Rattle.thread_memory.specs.declared.homes.TheConstants.{THREADS};
ghost use Rattle.eh_threads.specs.Ending.{thread_ends, is_start_gate, stop_thread, after_end, turn_outcome};
ghost use Rattle.eh_threads.specs.Starting.{Outcome};
ghost use Rattle.eh_threads.specs.Threads.{put_thread};
ghost use Rattle.eh_threads.specs.declared.thread.Thread.{Thread};

use crate::starting::{START_GATE, start_gate};
use crate::thread::{Thread, exit_number_of_all, put_thread};
use eh_gates::{Core, Turned};
use frame_check::Accepted;
use thread_memory::THREADS;
use thumb_core::ends::{End, TrapKind};

/// Ends a thread with a number. The run goes on unless it was the last running thread.
fn thread_ends(
    threads: &mut [Option<Thread>; THREADS],
    thread: usize,
    core: &Core,
    number: u32,
) -> Turned
    requires { thread < THREADS }
    ensures { (result, threads.new) ≡ thread_ends thread core.now number threads.old }
{
    put_thread(threads, thread, core, Some(number));
    match exit_number_of_all(threads) {
        None => Turned::Went,
        Some(number) => Turned::Ended(End::Exit(number)),
    }
}

/// Whether a trap of one thread's machine is the gate that starts a thread.
fn is_start_gate(kind: TrapKind, value: u32) -> bool
    ensures { result ≡ is_start_gate kind value }
{
    if let TrapKind::UnknownGate = kind {
        return value == START_GATE;
    }
    false
}

/// Any other end ends the run, and the thread stays where it was.
fn stop_thread(
    threads: &mut [Option<Thread>; THREADS],
    thread: usize,
    core: &Core,
    end: End,
) -> Turned
    requires { thread < THREADS }
    ensures { (result, threads.new) ≡ stop_thread thread core.now end threads.old }
{
    put_thread(threads, thread, core, None);
    Turned::Ended(end)
}

/// What the end of a thread's event does to the threads.
fn after_end(
    a: &Accepted,
    threads: &mut [Option<Thread>; THREADS],
    thread: usize,
    core: &Core,
    end: End,
) -> Turned
    requires { thread < THREADS }
    ensures { (result, threads.new) ≡ after_end (program_of a.now) thread core.now end threads.old }
{
    match end {
        End::Exit(number) => thread_ends(threads, thread, core, number),
        End::Trap(kind, value, _) => {
            if is_start_gate(kind, value) {
                start_gate(a, threads, thread, core)
            } else {
                stop_thread(threads, thread, core, end)
            }
        }
        End::Terminate(_) | End::Budget | End::ReadFault | End::WriteFault => {
            stop_thread(threads, thread, core, end)
        }
    }
}

/// The same, for an event that was done on the thread's own core. A call of its own, so that an event without an end pays nothing for it.
#[cold]
#[inline(never)]
fn end_in_place(
    a: &Accepted,
    threads: &mut [Option<Thread>; THREADS],
    thread: usize,
    end: End,
) -> Turned
    requires { thread < THREADS }
    ensures { (before : List (Option Thread)) (core : Core) → is_some (slice_index_or before thread None) ≡ true → threads.old ≡ put_thread before thread core None
        → ◌≡◌ {A = Outcome} (result, threads.new) (after_end (program_of a.now) thread core end before) }
{
    let Some(stood) = threads[thread] else {
        return Turned::Ended(end);
    };
    after_end(a, threads, thread, &stood.core, end)
}

/// Updates the threads after an event that was done on the thread's own core.
#[inline(always)]
pub(crate) fn apply_turn(
    a: &Accepted,
    threads: &mut [Option<Thread>; THREADS],
    thread: usize,
    turned: Turned,
) -> Turned
    requires { thread < THREADS }
    ensures { (before : List (Option Thread)) (core : Core) → is_some (slice_index_or before thread None) ≡ true → threads.old ≡ put_thread before thread core None
        → ◌≡◌ {A = Outcome} (result, threads.new) (turn_outcome (program_of a.now) thread core turned before) }
{
    match turned {
        Turned::Went => Turned::Went,
        Turned::Ended(end) => end_in_place(a, threads, thread, end),
    }
}
