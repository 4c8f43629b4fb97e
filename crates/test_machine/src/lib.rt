//! Rows for the machine that unwinds, through public calls only: whole programs from sources that the checker accepts, single gates and
//! events over any registers, pools and stacks, and runs in parts. A line is a question, ` : ` and its answer, by hand from
//! docs/rules/machine.md, docs/rules/phases-and-exceptions.md and docs/rules/phases-and-exceptions.md.
#![tactic(auto)]

pub mod answers;
mod asked;
mod build;
mod code;
pub mod desk;
mod hostile;
mod landing;
mod programs;
mod stacks;
mod stops;
mod witness;

use frame_check::Accepted;
pub use programs::{Commanded, run_programs};
use std::alloc::Global;
use std::io::Error;
use test_rows::Unanswered;

/// A machine whose state can be changed freely.
struct AnyMachine;

impl Commanded for AnyMachine {
    fn answer_over(
        &self,
        alloc: Global,
        accepted: &Accepted,
        commands: &str,
    ) -> Result<String, Unanswered> {
        asked::answer_all(alloc, accepted, commands)
    }
}

/// The files of rows.
static FILES: [&str; 8] = [
    "programs.txt",
    "parts.txt",
    "rethrown.txt",
    "landing.txt",
    "gates.txt",
    "hostile.txt",
    "stacks.txt",
    "witness.txt",
];

/// Asks all rows of the machine, from files of the folder where the program runs.
pub fn run(host: &HostRuntime) -> Result<(), Error> {
    for name in &FILES {
        run_programs(host, "", name, &AnyMachine)?;
    }
    Ok(())
}
