//! Runs the cases of threads/, in the data/ of test_layers_main: calls over the memory of several threads, texts of schedules, and lines
//! with tags. A line is a question, ` : ` and its answer, by hand from docs/guide/walks-and-threads.md. Writes what differs, and of each file how many
//! lines are right.

mod exceptions;
mod memory;
mod texts;

use memory::InMemory;
use std::io::Error;
use test_rows::run_telling;
use texts::{Schedules, Tagged};

/// Asks all rows.
pub fn run(host: &HostRuntime) -> Result<(), Error> {
    run_telling(host, "threads/guards.txt", &InMemory)?;
    run_telling(host, "threads/slots.txt", &InMemory)?;
    run_telling(host, "threads/schedules.txt", &Schedules)?;
    run_telling(host, "threads/tags.txt", &Tagged)
}
