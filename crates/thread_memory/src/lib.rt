//! One memory for several threads. Each has its own stack, the guarded words of all stacks stay, and exceptions of other threads are out of
//! use (docs/guide/walks-and-threads.md).
#![tactic(auto)]

pub mod bus;
pub mod homes;
pub mod laws;
pub mod owners;

pub use bus::{ThreadBus, ThreadMemory};
pub use homes::{THREADS, home_of};
pub use owners::{Holding, Owners};
