//! Runs a file of rows: each question is answered, and the answer compared.
ghost use Rattle.std.specs.Prelude.{◌≤◌, ◌≡◌};

use crate::unanswered::{Unanswered, text_of};
use std::alloc::Global;
use std::fs;
use std::io::Error;

/// Something that can be asked.
pub trait Asked {
    /// The answer to a question, or why there is none.
    fn answer(&self, alloc: Global, question: &str) -> Result<String, Unanswered>;
}

/// How many rows were run, and how many were right.
#[derive(Drop)]
struct Score {
    right: u64,
    asked: u64,
    ghost in_all: { right ≤ asked },
}

impl Score {
    /// Counts a row.
    fn count(&mut self, is_right: bool) {
        self.asked = self.asked.saturating_add(1);
        if is_right {
            self.right = self.right.saturating_add(1);
        }
    }
}

/// Whether a row is right. If it isn't, the difference is written.
fn is_right<A: Asked>(
    host: &HostRuntime,
    asked: &A,
    question: &str,
    want: &str,
) -> Result<bool, Error> {
    let answer = asked.answer(host.alloc(), question);
    let got = text_of(host.alloc(), answer)?;
    let is_right = got.as_str() == want;
    if !is_right {
        println!(host; "{question} : {want}, but it is: {got}")?;
    }
    Ok(is_right)
}

/// Asks the rows of a file in the folder where the program runs. Writes each difference, `QUESTION : WANT, but it is: GOT`, and then how
/// many rows are right, `NAME: R of N`. Fails if the file can't be read or the output not written.
pub fn run_file<A: Asked>(host: &HostRuntime, name: &str, asked: &A) -> Result<(), Error> {
    let text = fs::read_to_string(host, name)?;
    let mut score = Score { right: 0, asked: 0 };
    for line in text.lines() {
        if let Some((question, want)) = line.split_once(" : ") {
            score.count(is_right(host, asked, question, want)?);
        }
    }
    let Score { right, asked } = score;
    println!(host; "{name}: {right} of {asked}")?;
    Ok(())
}
