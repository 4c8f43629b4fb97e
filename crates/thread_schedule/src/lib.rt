//! The text of a schedule, whose digits say which thread does the next event, and the trace lines with the thread of each
//! (docs/guide/walks-and-threads.md).
#![tactic(auto)]

pub mod laws;
mod push;
pub mod schedule;
pub mod tags;

pub use schedule::{ScheduleFault, read_schedule};
pub use tags::{TagMemory, tag_lines};
