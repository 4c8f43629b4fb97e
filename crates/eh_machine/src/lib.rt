//! The machine that runs a checked program. It unwinds the bytes on the program's stack by the tables of its image, and records the events
//! (docs/rules/machine.md).
#![tactic(auto)]

mod accepted;
pub mod cached_turns;
mod decode_cache;
mod event;
mod guards;
pub mod memory;
mod pass;
mod read_only;
pub mod run;
mod start;
mod tests_of;

pub use accepted::tables;
pub use cached_turns::CachedTurns;
pub use eh_gates::{Core, Turned};
pub use event::{Shared, turn};
pub use memory::MachineMemory;
pub use run::Machine;
pub use start::{start_parts, throw_to};
