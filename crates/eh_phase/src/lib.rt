//! The two phases of a throw (IHI 0038, "Phase 1 unwinding" and "Phase 2 unwinding"). They tell which frame's descriptor stops an
//! exception, and which landing pad is entered next, for the frames that registers and a memory give. docs/rules/phases-and-exceptions.md states the rules.
#![tactic(auto)]

pub mod joined;
pub mod laws;
pub mod phase1;
pub mod phase2;
pub mod verdict;
pub mod walk;

pub use phase1::{Barrier, Found, search};
pub use phase2::{Entered, Goal, Landing, advance, find_landing};
pub use verdict::Thrown;
pub use walk::{Cursor, Tables, caller_at, to_caller};
