//! Laws of what elements of a schedule do to the threads (docs/guide/walks-and-threads.md, "What is proved").
ghost use Rattle.eh_threads.specs.Laws.{OthersPassOver, EventsAreTheMachines, OwnEventsFollow, OthersStand, ThirdStarts, NoFifthStarts, OverWhereAllEnded, InDigits};

/// An element does the event of the machine that unwinds, on its thread's state. It is also the event of the machine with recorded
/// activations, on that thread's own activations. If the thread doesn't run, nothing is done.
pub fn elements_are_events()
    ensures passed { OthersPassOver }
    ensures event { EventsAreTheMachines }
    ensures recorded { OwnEventsFollow }
{}

/// A started thread is unchanged by an element of another thread.
pub fn others_stand()
    ensures { OthersStand }
{}

/// The next thread that starts is the first that never was started, and after four none starts.
pub fn four_threads_start()
    ensures third { ThirdStarts }
    ensures fifth { NoFifthStarts }
{}

/// A run is over when no thread runs, with the number of the first thread.
pub fn runs_end_where_all_ended()
    ensures { OverWhereAllEnded }
{}

/// The number of the gate, and its answer if no thread can start.
pub fn numbers_in_digits()
    ensures { InDigits }
{}
