//! How a step of a guest ends a run, and the gates 0 to 2, which every machine has (docs/rules/memory.md). `given` describes
//! gates and runs by the bytes that a source gave.
#![tactic(auto)]

mod ends;
mod gates;
pub mod given;

pub use ends::{bus_end, trap_end};
pub use gates::{END_OF_INPUT, EXIT_GATE, INPUT_GATE, NO_CALLER, OUTPUT_GATE, gate};
