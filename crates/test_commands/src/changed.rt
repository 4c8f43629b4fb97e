//! `check` of every prefix of a file, and of the file with every byte changed.
use crate::command::{CommandResult, run_check};
use crate::programs::Programs;
use crate::rules::{Rule, rule_text, rules_of};
use std::alloc::{AllocError, Global};
use std::fs;
use std::io::Error;

/// The values that a byte is changed to.
const VALUES: [u8; 6] = [0, 1, 127, 128, 254, 255];

/// The statuses of an accepted and of a refused image.
const ACCEPTED: u8 = 0;

const REFUSED: u8 = 3;

/// The question, and how many answers were right.
#[derive(Drop)]
struct Score<'a> {
    rules: Vec<Rule<'a>>,
    asked: u32,
    right: u32,
}

impl<'a> Score<'a> {
    fn new(alloc: Global, text: &'a str) -> Result<Score<'a>, AllocError> {
        Ok(Score {
            rules: rules_of(alloc, text)?,
            asked: 0,
            right: 0,
        })
    }

    /// Checks bytes. A result that differs from the rule for this place and value is written.
    fn ask<P: Programs>(
        &mut self,
        host: &HostRuntime,
        programs: &P,
        place: usize,
        value: u8,
        bytes: &[u8],
    ) -> Result<(), Error> {
        let came = run_check(programs, host.alloc(), bytes)?;
        let want = rule_text(self.rules.as_slice(), place, value).unwrap_or("no row");
        self.asked = self.asked.saturating_add(1);
        if is_answer(&came, want) {
            self.right = self.right.saturating_add(1);
            return Ok(());
        }
        let CommandResult { written, status } = came;
        let got = String::from_utf8_lossy(host.alloc(), written.as_slice())?;
        println!(host; "{place} {value} : {want}, but it is, with status {status}: {got}")
    }
}

/// Whether the result is this line, with its status.
fn is_line(came: &CommandResult, line: &str) -> bool {
    let status = if line.starts_with("accepted ") {
        ACCEPTED
    } else {
        REFUSED
    };
    came.status == status && came.written.strip_suffix(b"\n") == Some(line.as_bytes())
}

/// Whether the result is an answer: a line, or one of several lines separated by ` | `.
fn is_answer(came: &CommandResult, answer: &str) -> bool {
    answer.split(" | ").any(|line| is_line(came, line))
}

/// Checks each prefix of a file, from no bytes to all, and writes how many answers are right.
pub fn run_parts<P: Programs>(
    host: &HostRuntime,
    programs: &P,
    name: &str,
    file: &[u8],
) -> Result<(), Error> {
    let text = fs::read_to_string(host, name)?;
    let mut score = Score::new(host.alloc(), text.as_str())?;
    for count in 0..=file.len() {
        if let Some((part, _rest)) = file.split_at_checked(count) {
            score.ask(host, programs, count, 0, part)?;
        }
    }
    let Score { asked, right, .. } = score;
    println!(host; "{name}: {right} of {asked}")
}

/// Checks a file with one byte changed.
fn ask_changed<P: Programs>(
    host: &HostRuntime,
    programs: &P,
    score: &mut Score,
    file: &[u8],
    place: usize,
    value: u8,
) -> Result<(), Error> {
    let mut bytes = file.to_vec(host.alloc())?;
    if let Some(byte) = bytes.get_mut(place) {
        *byte = value;
    }
    score.ask(host, programs, place, value, bytes.as_slice())
}

/// Checks a file with each byte changed to each other value of `VALUES`, and writes how many answers are right.
pub fn run_changes<P: Programs>(
    host: &HostRuntime,
    programs: &P,
    name: &str,
    file: &[u8],
) -> Result<(), Error> {
    let text = fs::read_to_string(host, name)?;
    let mut score = Score::new(host.alloc(), text.as_str())?;
    for (place, old) in file.iter().enumerate() {
        for value in VALUES {
            if value != *old {
                ask_changed(host, programs, &mut score, file, place, value)?;
            }
        }
    }
    let Score { asked, right, .. } = score;
    println!(host; "{name}: {right} of {asked}")
}
