//! The exception index table of an image (IHI 0038, "Index table entries"): reads it, and finds the entry that covers an address.
//! docs/rules/unwind-tables.md states the rules.
#![tactic(auto)]

pub mod fault;
pub mod index;
pub mod laws;
mod place;
mod row;

pub use eh_codes::{Entry, EntryBody};
pub use fault::IndexFault;
pub use index::Index;
