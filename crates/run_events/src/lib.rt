//! Definitions and laws on runs of events, for any machine (docs/rules/memory.md).
#![tactic(auto)]

ghost use Rattle.run_events.specs.Laws.{Splits, Spends, RunsAlike};

/// A run of n + m events is a run of n, followed by a run of m from the state that it reached.
pub fn runs_split<S, E>()
    ensures { Splits S E }
{}

/// All n events of a run went through exactly if the run ends as spent with none to spare, in the state that they lead
/// to. One of them ended the run exactly if they did not all go through.
///
/// An event may itself end with the value for spent; then the end alone doesn't tell the two cases apart. Without such
/// events, a run ends as spent exactly if all its events went through.
/// machine with no such event, a run ends as spent exactly where its n events all went.
pub fn runs_spend<S, E>()
    ensures { Spends S E }
{}

/// A relation between the states of two machines.
pub trait Relates<S, T> {
    /// The relation.
    ghost related: { S → T → Type 0 };
}

/// If related states of two machines have alike events, then runs from related states with the same budget and input
/// agree. They have the same output, end, remaining input and events to spare, and reach related states. So do runs
/// that continue from there, however the first ones ended.
pub fn runs_alike<S, T, E, R: Relates<S, T>>()
    ensures { RunsAlike E R.related }
{}
