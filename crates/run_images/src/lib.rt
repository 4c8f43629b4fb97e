//! An image in memory: the memory and registers at the start of a run, and the starts of functions (docs/rules/memory.md,
//! docs/rules/memory.md).
#![tactic(auto)]

mod functions;
mod memory;
pub mod profile;
mod start;

pub use functions::begins_function;
pub use memory::{CODE_START, code_memory, image_memory};
pub use start::start_regs;
