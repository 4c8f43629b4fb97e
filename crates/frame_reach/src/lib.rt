//! Which places of a function are reached, which are targets of branches or landing pads, and the prologue.
//! docs/rules/acceptance.md, "Reached places", and docs/rules/acceptance.md, "The prologue", state the rules.
#![tactic(auto)]

pub mod laws;
pub mod marks;
pub mod prologue;
pub mod search;

pub use marks::{MOST_REACHED, ReachMarks};
pub use search::{ReachFault, ReachRoom, reach, reach_in};
