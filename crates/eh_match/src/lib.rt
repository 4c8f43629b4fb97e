//! Whether a thrown type is caught as another type: the rules of docs/rules/types-and-matching.md, over a graph of types and a memory.
#![tactic(auto)]

pub mod laws;
mod path;
pub mod rules;
mod seen;
mod walk;

pub use rules::{Match, type_match};
