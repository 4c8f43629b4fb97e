//! Exceptions, stored as control blocks in a pool of guest memory: docs/rules/phases-and-exceptions.md; IHI 0038 for the control block.
#![tactic(auto)]

pub mod allocation;
pub mod catching;
pub mod cleanups;
pub mod globals;
pub mod laws;
pub mod layout;
pub mod pool;
pub mod state;
pub mod throwing;
mod words;

pub use allocation::{allocate, free, object_size};
pub use catching::{begin_catch, end_catch, may_rethrow, rethrow};
pub use cleanups::{begin_cleanup, end_cleanup, innermost_sp};
pub use globals::{BarrierWords, CleanupWords, CxaFault, Globals};
pub use throwing::{barrier, land, may_throw, set_barrier, start_throw, thrown};
