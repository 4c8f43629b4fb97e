//! Which states of the machine over bytes stand for which states of the machine with recorded activations (docs/inside/simulation.md).
#![tactic(auto)]

ghost use Rattle.sim_relation.specs.Stands.{StartsStand};

/// The start of a run of an accepted image over bytes stands for the start with recorded activations.
pub fn starts_stand()
    ensures { StartsStand }
{}
