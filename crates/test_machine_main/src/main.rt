//! Runs the cases of data/ over the machine that unwinds: the rows of test_machine; walks and forced unwinding from states that no run
//! reaches; and threads that run by a schedule. A line is a question, ` : ` and its answer, by hand from docs/rules/machine.md, docs/rules/phases-and-exceptions.md,
//! docs/rules/phases-and-exceptions.md, docs/guide/walks-and-threads.md and docs/guide/walks-and-threads.md.
#![tactic(auto)]

mod threads;
mod walks;

use std::io::Error;
use test_machine::run_programs;
use threads::Threading;
use walks::Walking;

fn main(host: HostRuntime) -> Result<(), Error> {
    test_machine::run(&host)?;
    for name in ["walks/states.txt", "walks/forcings.txt"] {
        run_programs(&host, "walks/", name, &Walking)?;
    }
    for name in ["threads/runs.txt", "threads/starts.txt"] {
        run_programs(&host, "threads/", name, &Threading)?;
    }
    Ok(())
}
