//! The machine's memory as a trait: segments of bytes, guarded words of the stack, and the pool with its closed parts
//! (docs/rules/memory.md). The memories that implement it are in mem_buses.
#![tactic(auto)]

pub mod bus;
pub mod fault;
pub mod map;
pub mod segment;
