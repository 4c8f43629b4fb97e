//! The two implementations of the memory of eh_bus: a list of segments, in which raw code runs, and pages, in which
//! images run (docs/rules/memory.md).
#![tactic(auto)]

mod access;
pub mod flat;
pub mod paged;
mod pages;
mod part;
mod segment;
mod segments;
