//! Stores of several words along runs of accepted images (docs/inside/simulation.md, "What is proved").
#![tactic(auto)]

ghost use Rattle.sim_guards.specs.Words.{RunsGuardWords};
ghost use Rattle.sim_guards.specs.Stores.{RunsTrapStores};

/// In every state of a run of an accepted image: words stored upwards (STM, PUSH) are refused by SavedSlot if the first that can't be
/// stored is a saved word of a live activation. The refusal names that word's address, and none of the words is stored.
pub fn runs_guard_words()
    ensures { RunsGuardWords }
{}

/// There a PUSH or an STM that would store to such a word, and could store the words before it, is the trap SavedSlot with that word's
/// address. It leaves the state as it was.
pub fn runs_trap_stores()
    ensures { RunsTrapStores }
{}
