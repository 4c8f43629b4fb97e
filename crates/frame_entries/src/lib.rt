//! One unwind entry as the frame checker sees it: how it unwinds, and which of its descriptors have a site in their scope.
//! docs/rules/acceptance.md states the rules.
#![tactic(auto)]

pub mod scopes;
pub mod unwinding;

pub use unwinding::EntrySummary;
