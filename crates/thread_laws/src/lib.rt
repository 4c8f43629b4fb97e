//! Threads with recorded activations that run by a schedule, and laws that threads over bytes do the same
//! (docs/guide/walks-and-threads.md, "Threads with recorded activations").
#![tactic(auto)]

ghost use Rattle.thread_laws.specs.Leaving.{EventsLeaveOthers};
ghost use Rattle.thread_laws.specs.Laws.{EachStands, SlotsAreGuarded, SlotsStopRuns, StartsStand, RunsStand, SchedulesSame};

use sim_changes::{free_after_gates, free_memory, free_starts};
use sim_runs::{beyond_stays, turns_same};

/// An event leaves the guarded words beyond the running stack, and the slots that are out of use, as they were.
pub fn events_leave_others()
    ensures { EventsLeaveOthers }
{}

/// If threads over bytes stand for threads with recorded activations, each thread's own state stands for its own recorded state.
pub fn each_thread_stands()
    ensures { EachStands }
{}

/// A store to a saved word of any thread's activation is refused with its address, whichever thread stores, and changes nothing.
pub fn slots_of_all_are_guarded()
    ensures one { SlotsAreGuarded }
    ensures several { SlotsStopRuns }
{}

/// The start of a run of threads over bytes stands for the start with recorded activations.
pub fn starts_stand()
    ensures { StartsStand }
{
    free_starts();
}

/// From states that stand for each other, a run does the same over bytes and with recorded activations. This holds for any schedule, any
/// length and any input of bytes.
pub fn runs_stand()
    ensures { RunsStand }
{
    turns_same();
    beyond_stays();
    free_memory();
    free_starts();
    free_after_gates();
}

/// A run from the start gives the same output, the same events with their threads, the same end and the same rest of the input in both
/// machines.
pub fn schedules_same()
    ensures { SchedulesSame }
{
    turns_same();
    beyond_stays();
    free_memory();
    free_starts();
    free_after_gates();
}
