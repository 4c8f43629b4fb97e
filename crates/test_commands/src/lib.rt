//! Cases of whole commands, over files, an input and an output in memory. Beside each stands what it must write, its status, and what it
//! leaves of its input (CONTRIBUTING.md says how a file of cases is written). Also hostile files and ports: `check` of every prefix of an
//! image's file and of every byte of it changed, each call of files, input and output failing in turn, and what the system can't read. And
//! the examples. The programs that are asked are parameters, so that this crate doesn't depend on them. Answers are by hand from the pages
//! of docs/ that the files name.
#![tactic(auto)]

mod calls;
mod case_file;
mod changed;
mod command;
mod definitions;
mod examples;
mod failing;
mod hand_image;
mod listing;
mod outcome;
mod outside;
mod parts;
mod programs;
mod rules;
mod texts;

use changed::{run_changes, run_parts};
use command::run_build;
use examples::run_examples;
use failing::Calls;
use outside::Outside;
pub use programs::Programs;
use std::io::Error;

/// The files of cases.
static FILES: [&str; 20] = [
    "commands.txt",
    "sources.txt",
    "bytes.txt",
    "lengths.txt",
    "check_code.txt",
    "check_calls.txt",
    "check_functions.txt",
    "check_images.txt",
    "throws.txt",
    "budgets.txt",
    "traps.txt",
    "variable_frames.txt",
    "profiles.txt",
    "walks.txt",
    "forced.txt",
    "gnu.txt",
    "threads.txt",
    "generated.txt",
    "failing.txt",
    "large.txt",
];

/// Runs the tests of hostile files and failing ports.
fn run_hostile<P: Programs>(host: &HostRuntime, programs: &P) -> Result<(), Error> {
    let thrown = run_build(host, programs, "a.s")?;
    run_parts(host, programs, "parts.txt", thrown.as_slice())?;
    run_changes(host, programs, "changes.txt", thrown.as_slice())?;
    let reading = run_build(host, programs, "reading.s")?;
    let unwell = run_build(host, programs, "unwell.s")?;
    let calls = Calls {
        host,
        programs,
        reading: reading.as_slice(),
        unwell: unwell.as_slice(),
    };
    test_rows::run_file(host, "calls.txt", &calls)?;
    test_rows::run_file(host, "outside.txt", &Outside { host, programs })
}

/// Runs all cases, on the files of the folder where the program runs. Err if a file can't be read or the output fails.
pub fn run<P: Programs>(host: &HostRuntime, programs: &P) -> Result<(), Error> {
    for name in &FILES {
        case_file::run_file(host, programs, name)?;
    }
    run_hostile(host, programs)?;
    run_examples(host, programs)
}
