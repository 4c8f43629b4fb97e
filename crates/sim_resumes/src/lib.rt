//! The end of a cleanup, and an exception that flies from any site, do the same in both machines, and their states still stand for each
//! other (docs/inside/simulation.md).
#![tactic(auto)]

ghost use Rattle.sim_resumes.specs.ResumeLaws.{CleanupsAreOutside};
ghost use Rattle.sim_resumes.specs.Flying.{FlightsMatch, SearchesReach, GatesFly};
ghost use Rattle.sim_resumes.specs.EndEvents.{EndsMatch};

/// If the innermost activation was called at the landing sp of the innermost cleanup in progress, its caller is that cleanup's activation.
pub fn cleanups_are_outside()
    ensures { CleanupsAreOutside }
{}

/// An exception that flies to a barrier within reach, from a site where a throw may begin, does the same in both machines. The states after
/// it stand for each other.
pub fn flights_match()
    ensures { FlightsMatch }
{}

/// A barrier that a search finds is within reach.
pub fn searches_reach()
    ensures { SearchesReach }
{}

/// With recorded activations, a throw whose exception flies is such a flight from pc.
pub fn gates_fly()
    ensures { GatesFly }
{}

/// The end of a cleanup does the same in both machines, and the states after it stand for each other.
pub fn ends_match()
    ensures { EndsMatch }
{}
