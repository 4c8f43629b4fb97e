//! Commands over files of the system that are missing or can't be read.
use crate::command::run_command;
use crate::programs::Programs;
use std::alloc::Global;
use test_rows::{Asked, Unanswered};

/// Commands over the files of the folder where the program runs.
#[derive(Drop)]
pub struct Outside<'a, P> {
    /// The system that the tests run on.
    pub host: &'a HostRuntime,
    /// The programs that are asked.
    pub programs: &'a P,
}

impl<P: Programs> Asked for Outside<'_, P> {
    /// What a command writes, line by line, and its status.
    fn answer(&self, alloc: Global, question: &str) -> Result<String, Unanswered> {
        let words: Vec<&str> = question.split(' ').collect(alloc)?;
        let came = run_command(self.host, self.programs, words.as_slice(), Vec::new(alloc));
        let written = String::from_utf8_lossy(alloc, came.written.as_slice())?;
        let lines = written.replace(alloc, "\n", "; ")?;
        let status = came.status;
        Ok(format!(in alloc; "{lines}status {status}")?)
    }
}
