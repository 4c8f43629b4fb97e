//! Dataflow facts of any kind, on a graph of places: which facts are states, which causes stand, and when a table of facts is valid
//! (docs/rules/acceptance.md, "Valid facts").
#![tactic(auto)]

ghost use Rattle.frame_dataflow.specs.Laws.{Bounds, Decides, SolvingGivesStates};

/// The order of facts by vagueness.
pub trait Vagueness<F> {
    /// The first fact is at most as vague as the second: it tells at least what the second tells.
    ghost at_most: { F → F → Type 0 };
}

/// If a table of facts is valid, every state is at most as vague as the fact of its place, and no cause stands anywhere.
pub fn valid_facts_bound<F, C, V: Vagueness<F>>()
    ensures { Bounds F C V.at_most }
{}

/// In a flow with finitely many places and heights, there are valid facts if and only if no cause stands.
pub fn valid_facts_decide<F, C, V: Vagueness<F>>()
    ensures { Decides F C V.at_most }
{}

/// In a flow with finitely many places and heights in which no cause stands, there are valid facts that are states. So exactly the
/// places that have a state have a fact.
pub fn solving_gives_states<F, C, V: Vagueness<F>>()
    ensures { SolvingGivesStates F C V.at_most }
{}
