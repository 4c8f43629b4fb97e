//! The types that an exception may have, with their bases (Itanium C++ ABI, "Run-Time Type Information"; IHI 0041). They are read
//! once from an image and looked up by address. docs/rules/types-and-matching.md states the rules.
#![tactic(auto)]

pub mod bases;
pub mod fault;
pub mod graph;
pub mod info;
pub mod kind;
pub mod laws;
mod reader;
mod state;
mod types;
pub mod vtables;
mod words;

pub use bases::Bases;
pub use fault::TypeFault;
pub use graph::TypeGraph;
pub use kind::{Base, TypeKind};
