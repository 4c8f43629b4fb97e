//! Walks over the frames of a running program, and forced unwinding to one of them (docs/guide/walks-and-threads.md).
#![tactic(auto)]

pub mod forcing;
pub mod laws;
pub mod reach;
pub mod sites;
mod stands;
pub mod stopping;
pub mod text;
pub mod walk;
pub mod walking;

pub use forcing::force;
pub use reach::{MOST_FURTHER, SiteRun, run_to_site};
pub use sites::site;
pub use stopping::ForceFault;
pub use text::walk_lines;
pub use walk::{Backtrace, WalkEnd, WalkFrame, WalkMemory};
pub use walking::backtrace;
