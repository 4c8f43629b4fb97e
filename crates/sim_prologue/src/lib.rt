//! The facts in a function's prologue are those of its straight-line run (docs/inside/simulation.md).
#![tactic(auto)]

ghost use Rattle.sim_prologue.specs.PrologueLaws.{StatesAreTheRun};

/// At each place of a prologue's straight-line run, every state of facts is what the run knows there: no path joins before its end.
pub fn states_are_the_run()
    ensures { StatesAreTheRun }
{}
