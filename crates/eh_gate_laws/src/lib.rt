//! What the gates of exceptions guarantee, in the terms of their users
//! (docs/rules/machine.md, "Gates", "A throw", "Landing", "The end of a cleanup").
#![tactic(auto)]

ghost use Rattle.eh_gate_laws.specs.Landings.{LandingsAreAsTold, ThrowsLand, GatesGoAfter};
ghost use Rattle.eh_gate_laws.specs.CallAnswers.{CallsAnswer};
ghost use Rattle.eh_gate_laws.specs.PadEvents.{LandingsHaveTheirEvent};
ghost use Rattle.eh_gate_laws.specs.Refusals.{GatesEndAsTold, OtherGatesAreNone, RefusalsComeInOrder};
ghost use Rattle.eh_gate_laws.specs.Resumes.{CleanupsGoOnFromTheKept};
ghost use Rattle.eh_gate_laws.specs.Throws.{ThrowsAddTheirEvent, FailedSearchesAddOne};
ghost use Rattle.eh_gate_laws.specs.Pointers.{PointersCanBeLoaded, ObjectsAreGiven, CatchesGive};

/// At a landing pad, sp and r4 to r11 are the frame's, r1 to r3, r12 and lr are 0, the flags are unchanged, and pc is the pad's address
/// with bit 0 clear. r0 is 0 for a cleanup, and the control block for a handler or a violated specification.
pub fn landings_are_as_told()
    ensures { LandingsAreAsTold }
{}

/// Each landing adds one event, with the landing pad and the frame's sp: of a cleanup, of a handler with the object that it is given,
/// or of a violated specification.
pub fn landings_have_their_event()
    ensures { LandingsHaveTheirEvent }
{}

/// If a throw, a rethrow or the end of a cleanup goes on, it is at a landing pad.
pub fn throws_land()
    ensures { ThrowsLand }
{}

/// If any other gate goes on, it goes on at the next address, and leaves r2 to r14 and the flags unchanged.
pub fn gates_go_after()
    ensures { GatesGoAfter }
{}

/// Each gate can end the run only in these ways, each with its value.
pub fn gates_end_as_told()
    ensures { GatesEndAsTold }
{}

/// Refusals come in this order: an object that can't be thrown, before its type is looked at; a rethrow of nothing, before everything
/// else; a type that the graph doesn't have, before anything is done.
pub fn refusals_come_in_order()
    ensures { RefusalsComeInOrder }
{}

/// A gate below 16 or above 25 isn't an exception gate.
pub fn other_gates_are_none()
    ensures { OtherGatesAreNone }
{}

/// The end of a cleanup is refused as NoCleanup if none is in progress, and as CleanupElsewhere with the sp that was found, or 0 if
/// there is none. Otherwise phase 2 goes on from the recorded site and the recorded next descriptor.
pub fn cleanups_go_on_from_the_kept()
    ensures { CleanupsGoOnFromTheKept }
{}

/// The first event of a throw is its own, with the object, its type, and the object's first bytes, 16 at most.
pub fn throws_add_their_event()
    ensures { ThrowsAddTheirEvent }
{}

/// A throw or rethrow that finds no barrier adds one event, to the total of its kind and to the stored ones, and does nothing else.
pub fn failed_searches_add_one()
    ensures { FailedSearchesAddOne }
{}

/// A handler of a pointer to a base can load its pointer from the address that it is given.
pub fn pointers_can_be_loaded()
    ensures { PointersCanBeLoaded }
{}

/// Any other handler is given the object that matched.
pub fn objects_are_given()
    ensures { ObjectsAreGiven }
{}

/// After the begin of a catch, r0 is the address that the handler is given.
pub fn catches_give()
    ensures { CatchesGive }
{}

/// If they go on, gate 16 returns the new object in r0. Gate 20 returns an object to destroy in r0 and its destructor in r1. Gate 25
/// returns the number of uncaught exceptions in r0.
pub fn calls_answer()
    ensures { CallsAnswer }
{}
