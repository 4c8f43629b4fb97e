//! Laws of memories on guarded words and stores (docs/rules/memory.md, "Faults", "Guards").
#![tactic(auto)]

ghost use Rattle.mem_laws.specs.Guarded.{StoresAreRefused, RunsAreRefused, OnlyGuardsRefuse, GuardedWordsStay};
ghost use Rattle.mem_laws.specs.Runs.{RunsStopAtTheirFirst, RunsAreDone, RefusalsChangeNothing};

/// An aligned store of one, two or four bytes that touches a guarded word is refused as SavedSlot with that word's
/// address, and stores nothing.
pub fn stores_are_refused()
    ensures { StoresAreRefused }
{}

/// Words stored upwards (STM, PUSH): if the first one that can't be stored is guarded, the store is refused as
/// SavedSlot with that word's address, and none is stored.
pub fn runs_are_refused()
    ensures { RunsAreRefused }
{}

/// SavedSlot is reported only with the address of a guarded word that the store touches.
pub fn only_guards_refuse()
    ensures { OnlyGuardsRefuse }
{}

/// No store changes the value of a guarded word, or which words are guarded.
pub fn guarded_words_stay()
    ensures { GuardedWordsStay }
{}

/// The fault of words stored upwards is that of the first word that can't be stored alone, and then none is stored.
pub fn runs_stop_at_their_first()
    ensures { RunsStopAtTheirFirst }
{}

/// If each of the words can be stored alone, all are stored.
pub fn runs_are_done()
    ensures { RunsAreDone }
{}

/// A refused store changes nothing, and neither does a refused store of several words.
pub fn refusals_change_nothing()
    ensures { RefusalsChangeNothing }
{}
