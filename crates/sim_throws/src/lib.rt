//! Throws and rethrows do the same in both machines, and their states still stand for each other (docs/inside/simulation.md).
#![tactic(auto)]

ghost use Rattle.sim_throws.specs.KeptLandings.{BarriersAreWithin};
ghost use Rattle.sim_throws.specs.ThrowLaws.{ThrowGatesKeep};
ghost use Rattle.sim_throws.specs.ThrowEvents.{ThrowGatesMatch};

/// A throw's barrier lies at or below the landing sp of the innermost cleanup in progress.
pub fn barriers_are_within()
    ensures { BarriersAreWithin }
{}

/// The invariants of the machine with recorded activations hold after a throw and a rethrow, whether they land in a handler or cleanup or
/// end the run.
pub fn throw_gates_keep()
    ensures { ThrowGatesKeep }
{}

/// A throw and a rethrow do the same in both machines, and the states after them stand for each other.
pub fn throw_gates_match()
    ensures { ThrowGatesMatch }
{}
