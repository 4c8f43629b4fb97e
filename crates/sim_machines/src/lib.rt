//! The definitions of two machines, and how they fit: one unwinds the bytes on its stack, the other goes by what was recorded at each call
//! (docs/rules/machine.md).
#![tactic(auto)]

pub mod activation_laws;
pub mod laws;
