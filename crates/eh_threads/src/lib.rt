//! Threads of one program that share a memory and run by a schedule: how a thread starts, what an element of the schedule does, and runs of
//! at most a given number of elements (docs/guide/walks-and-threads.md).
#![tactic(auto)]

pub mod element;
pub mod ending;
mod entering;
pub mod laws;
pub mod run;
mod schedule;
pub mod start;
pub mod starting;
pub mod tags;
pub mod thread;

pub use element::Threads;
pub use starting::{NO_THREAD, START_GATE};
pub use tags::Tags;
pub use thread::Thread;
