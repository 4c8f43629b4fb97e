//! Turns an image with GNU's C++ tables into the parts of an image with compact tables: a new segment with the tables and the index,
//! and the symbols that are still needed (IHI 0038). docs/rules/gnu-tables.md states the rules.
#![tactic(auto)]

pub mod limits;
pub mod marks;
pub mod segments;
pub mod symbols;
pub mod translation;

pub use translation::{GnuImage, rewrite, translate};
