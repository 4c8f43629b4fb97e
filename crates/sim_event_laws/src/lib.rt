//! What users can rely on for one event, and for a run (docs/rules/machine.md, "An event").
#![tactic(auto)]

ghost use Rattle.sim_event_laws.specs.Stack.{LoweringsNeverRaise, OnlyLoweringsAreRaised, RisesAreRefused, OnlyRisesAreRefused};
ghost use Rattle.sim_event_laws.specs.Tests.{TestsEndSo, EventsGoOn};
ghost use Rattle.sim_event_laws.specs.GoingOn.{GatesGoOn, GatesFallOff};
ghost use Rattle.sim_event_laws.specs.PlainGates.{PlainGatesAreAsTold};
ghost use Rattle.sim_event_laws.specs.Saves.{PushesGuardTheirSaves};
ghost use Rattle.sim_event_laws.specs.Raises.{RaisesLetGo};
ghost use Rattle.sim_event_laws.specs.Refused.{RefusedStoresEnd};
ghost use Rattle.sim_event_laws.specs.Ends.{NoEventIsBudget};
ghost use Rattle.sim_event_laws.specs.Heads.{HeadsStayHeads};

use sim_machines::laws::guards_are_released;

/// If sp rises at a lowering place, the event is SpRaised with the new sp. This check of sp comes first.
pub fn lowerings_never_raise()
    ensures { LoweringsNeverRaise }
{}

/// SpRaised comes only then: at no other place, and never if sp stays or falls.
pub fn only_lowerings_are_raised()
    ensures { OnlyLoweringsAreRaised }
{}

/// If sp rises above the landing sp of the innermost cleanup in progress, the event is SpInCleanup with the new sp. At a lowering place it
/// is SpRaised.
pub fn rises_are_refused()
    ensures { RisesAreRefused }
{}

/// SpInCleanup comes only then: not if sp rises to the landing sp at most, and not at a lowering place.
pub fn only_rises_are_refused()
    ensures { OnlyRisesAreRefused }
{}

/// The ends by the other checks. If the checker reached no instruction at pc: FellOff with pc. If sp falls below the running stack:
/// StackLimit with the new sp. For a call whose target is no function's start: BadCallTarget with the target. A return to FFFFFFFF exits
/// with r0 if no cleanup is in progress. Any other return to a function's start: FellOff with that address; so too an instruction that
/// takes no branch, if a function begins after it. A trap of the core ends the run by its name and value.
pub fn tests_end_so()
    ensures { TestsEndSo }
{}

/// If no check fails the run goes on: at the next address, at the target of a branch, at a called function, or at the target of a return if
/// no function begins there. sp may be the first address of the stack. Nothing is written, and exceptions and events are unchanged.
pub fn events_go_on()
    ensures { EventsGoOn }
{}

/// Gate 0 exits with r0. Gate 1 writes the low byte of r0. Gate 2 takes the next byte of the input into r0, or FFFFFFFF at its end. Gates 1
/// and 2 leave all else but pc. A number that is no gate is UnknownGate with the number. A failed write may come only at gate 1, a failed
/// read only at gate 2. All this holds over bytes, with recorded activations and in raw code.
pub fn plain_gates_are_as_told()
    ensures { PlainGatesAreAsTold }
{}

/// A gate that goes on, except 18, 21 and 22, goes on at the next address.
pub fn gates_go_on()
    ensures { GatesGoOn }
{}

/// If a function begins at that address, each of the gates that go on ends by FellOff.
pub fn gates_fall_off()
    ensures { GatesFallOff }
{}

/// A PUSH guards exactly the saves of its function among the words that it stores.
pub fn pushes_guard_their_saves()
    ensures { PushesGuardTheirSaves }
{}

/// An instruction that raises sp releases exactly the guarded words of the running stack below the new sp. One that doesn't raise sp and
/// pushes nothing leaves the memory as it made it.
pub fn raises_let_go()
    ensures { RaisesLetGo }
{
    guards_are_released();
}

/// A PUSH or an STM whose store is refused by a guarded word ends the run by SavedSlot with that word's address, and leaves the state as it
/// was.
pub fn refused_stores_end()
    ensures { RefusedStoresEnd }
{}

/// No event ends a run by Budget: over bytes, with recorded activations, and in raw code.
pub fn no_event_is_budget()
    ensures { NoEventIsBudget }
{}

/// If the head of each chain of exceptions is none or a slot's control block, the same holds after every event and every run.
pub fn heads_stay_heads()
    ensures { HeadsStayHeads }
{}
