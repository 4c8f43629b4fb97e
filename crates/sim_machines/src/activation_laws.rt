//! Laws of how the machine with recorded activations fits the machine over bytes (docs/rules/machine.md, "Laws").
ghost use Rattle.sim_machines.specs.ActivationLaws.{PlainEventsMatch, MachinesStartAlike, ReturnsGiveBack, FramesAreActivations, LandingsStandInTheirFrames, CallsRecord};
ghost use Rattle.sim_machines.specs.Agreeing.{AgreeingFramesAreOne};
ghost use Rattle.sim_machines.specs.Corresponds.{CallsMatch, ListsAreKept};
ghost use Rattle.sim_machines.specs.FrameEnds.{FramesEndAsTold};
ghost use Rattle.sim_machines.specs.Landings.{LandingsMatch, LandingsAreInTheirActivation};
ghost use Rattle.sim_machines.specs.RecordedGates.{FailedSearchesAddTheirEvent, CleanupsEndInTheirOwn};
ghost use Rattle.sim_machines.specs.Throws.{ThrowsMatch, RethrowsMatch, ThrowsToMatch};
ghost use Rattle.sim_machines.specs.RecordedSlots.{SlotsAreGuarded, SavesBecomeSlots, ReturnsMatch, FirstEventsMatch, WordsBeyondStay};
ghost use Rattle.sim_machines.specs.SlotWords.{ReturnsReadNoSlot, ThrowsReadNoSlots};

/// An instruction that is no return and no gate of exceptions does the same in both machines.
pub fn plain_events_match()
    ensures { PlainEventsMatch }
{}

/// Both machines start in the same state. Their first events are the same, unless the first is a return.
pub fn machines_start_alike()
    ensures { MachinesStartAlike }
{}

/// A return restores pc, sp and r4 to r11 as they were recorded at the call, whatever the stack holds.
pub fn returns_give_back()
    ensures { ReturnsGiveBack }
{}

/// A throw sees one frame for each activation, from the innermost outwards to where the frames end. Each has the site and sp that were
/// recorded.
pub fn frames_are_activations()
    ensures { FramesAreActivations }
{}

/// Phase 2 enters the first frame that it doesn't pass, with that frame's registers and site.
pub fn landings_stand_in_their_frames()
    ensures { LandingsStandInTheirFrames }
{}

/// A call adds an activation in front, which records the return address, and sp and r4 to r11 as they are.
pub fn calls_record()
    ensures { CallsRecord }
{}

/// The frames of a throw end at the activation of the innermost cleanup in progress; without one, at the outermost. They end earlier at the
/// first frame that can't be unwound.
pub fn frames_end_as_told()
    ensures { FramesEndAsTold }
{}

/// A throw or a rethrow that finds no barrier adds its own event and nothing else.
pub fn failed_searches_add_their_event()
    ensures { FailedSearchesAddTheirEvent }
{}

/// A cleanup ends only in an activation that was called from the cleanup's own, at its landing sp. Phase 2 of its exception then goes on
/// there.
pub fn cleanups_end_in_their_own()
    ensures { CleanupsEndInTheirOwn }
{}

/// The guarded words are the saved words of all activations. A store to one of them is refused with its address.
pub fn slots_are_guarded()
    ensures { SlotsAreGuarded }
{}

/// The words that an instruction saves become saved words of the running activation and of no other. If sp rises, the saved words below it
/// are dropped.
pub fn saves_become_slots()
    ensures { SavesBecomeSlots }
{}

/// A return that finds on the stack what was recorded does the same in both machines.
pub fn returns_match()
    ensures { ReturnsMatch }
{}

/// The first event of a run is the same in both machines, even if it is a return.
pub fn first_events_match()
    ensures { FirstEventsMatch }
{}

/// If the pool's words stand for the lists of exceptions, the gates that walk no frames do the same in both machines. Afterwards the words
/// stand for the lists again.
pub fn calls_match()
    ensures { CallsMatch }
{}

/// Phase 2 enters an activation alike in both machines. Afterwards the words stand for the lists again.
pub fn landings_match()
    ensures { LandingsMatch }
{}

/// A landing is in the activation that is entered, and those outside it are unchanged. A cleanup names its activation by the number of
/// those outside it.
pub fn landings_are_in_their_activation()
    ensures { LandingsAreInTheirActivation }
{}

/// An instruction that is no gate of exceptions leaves the lists unchanged, and the pool's words still stand for them.
pub fn lists_are_kept()
    ensures { ListsAreKept }
{}

/// If two lists of frames agree in their sites, sp, descriptors, r4 to r11 and end, both phases and a landing in either machine do the same
/// with them.
pub fn agreeing_frames_are_one()
    ensures { AgreeingFramesAreOne }
{}

/// A throw does the same in both machines if their frames agree and no saved word of an activation that is cut remains.
pub fn throws_match()
    ensures { ThrowsMatch }
{}

/// The same for a rethrow.
pub fn rethrows_match()
    ensures { RethrowsMatch }
{}

/// The same for phase 2 from any site to a barrier, for an exception in flight.
pub fn throws_to_match()
    ensures { ThrowsToMatch }
{}

/// A return does the same whatever the saved words hold, unless a POP loads one into r0 to r3.
pub fn returns_read_no_slot()
    ensures { ReturnsReadNoSlot }
{}

/// Guarded words outside the running stack stay after every event that leaves sp in that stack.
pub fn words_beyond_stay()
    ensures { WordsBeyondStay }
{}

/// A throw and a rethrow do the same whatever the saved words hold, if the thrown object and the words that matching reads are the same.
pub fn throws_read_no_slot()
    ensures { ThrowsReadNoSlots }
{}
