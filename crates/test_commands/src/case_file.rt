//! A file of cases, line by line.
use crate::calls::answer;
use crate::definitions::define;
use crate::programs::Programs;
use crate::texts::{Texts, text_of};
use std::alloc::{AllocError, Global};
use std::fs;
use std::io::Error;

/// The cases of a file, as far as it was read.
#[derive(Drop)]
struct Cases {
    texts: Texts,
    /// The calls to ask for each row; the row replaces `[row]` in them.
    calls: String,
    /// The definitions to make for each row, `NAME = VALUE`.
    row_texts: Vec<String>,
    asked: u32,
    right: u32,
}

/// Reports an answer that differs.
fn tell(host: &HostRuntime, case: (&str, &str), call: &str, got: &[u8]) -> Result<(), Error> {
    let (question, answer) = case;
    let got = String::from_utf8_lossy(host.alloc(), got)?;
    println!(host; "{question} : {answer}\nbut of {call} comes\n{got}")
}

/// Asks a call and counts it. A different answer is written.
fn ask_call<P: Programs>(
    host: &HostRuntime,
    programs: &P,
    cases: &mut Cases,
    case: (&str, &str),
    call: &str,
    want: &[u8],
) -> Result<(), Error> {
    let got = answer(programs, host.alloc(), &mut cases.texts, call)?;
    cases.asked = cases.asked.saturating_add(1);
    if got.as_slice() == want {
        cases.right = cases.right.saturating_add(1);
        return Ok(());
    }
    tell(host, case, call, got.as_slice())
}

/// Asks calls, separated by ` | `, which all have the answer of a case.
fn ask<P: Programs>(
    host: &HostRuntime,
    programs: &P,
    cases: &mut Cases,
    case: (&str, &str),
    calls: &str,
) -> Result<(), Error> {
    let want = text_of(host.alloc(), &cases.texts, case.1)?;
    for call in calls.split(" | ") {
        ask_call(host, programs, cases, case, call, want.as_slice())?;
    }
    Ok(())
}

/// Makes the definitions of a row; the row replaces `[row]` in them.
fn define_for<P: Programs>(
    programs: &P,
    alloc: Global,
    cases: &mut Cases,
    row: &str,
) -> Result<(), AllocError> {
    for line in &cases.row_texts {
        let line = line.replace(alloc, "[row]", row)?;
        if let Some((name, value)) = line.split_once(" = ") {
            define(programs, alloc, &mut cases.texts, name, value)?;
        }
    }
    Ok(())
}

/// Runs the calls of a row.
fn ask_row<P: Programs>(
    host: &HostRuntime,
    programs: &P,
    cases: &mut Cases,
    row: &str,
    answer: &str,
) -> Result<(), Error> {
    define_for(programs, host.alloc(), cases, row)?;
    let calls = cases.calls.replace(host.alloc(), "[row]", row)?;
    ask(host, programs, cases, (row, answer), calls.as_str())
}

/// A row with a choice in it, `FRONT<ONE|OTHER>BACK`.
#[derive(Clone, Copy)]
struct Change<'a> {
    front: &'a str,
    one: &'a str,
    other: &'a str,
    back: &'a str,
}

fn change_of(row: &str) -> Option<Change<'_>> {
    let (front, rest) = row.split_once('<')?;
    let (change, back) = rest.split_once('>')?;
    let (one, other) = change.split_once('|')?;
    Some(Change {
        front,
        one,
        other,
        back,
    })
}

impl Change<'_> {
    /// The row with one of the two choices in it.
    fn row(&self, alloc: Global, one: &str) -> Result<String, AllocError> {
        let front = self.front;
        let back = self.back;
        format!(in alloc; "{front}{one}{back}")
    }
}

/// Asks a row. One with a choice is two rows, whose answers are separated by ` | `.
fn take_row<P: Programs>(
    host: &HostRuntime,
    programs: &P,
    cases: &mut Cases,
    row: &str,
    answer: &str,
) -> Result<(), Error> {
    let Some(change) = change_of(row) else {
        return ask_row(host, programs, cases, row, answer);
    };
    let (first, second) = answer.split_once(" | ").unwrap_or((answer, ""));
    for (one, answer) in [(change.one, first), (change.other, second)] {
        let row = change.row(host.alloc(), one)?;
        ask_row(host, programs, cases, row.as_str(), answer)?;
    }
    Ok(())
}

/// Handles a line with a question and its answer.
fn take_case<P: Programs>(
    host: &HostRuntime,
    programs: &P,
    cases: &mut Cases,
    question: &str,
    answer: &str,
) -> Result<(), Error> {
    match question.strip_prefix("$") {
        Some(calls) => ask(host, programs, cases, (question, answer), calls.trim()),
        None => take_row(host, programs, cases, question, answer),
    }
}

impl Cases {
    fn new(alloc: Global) -> Cases {
        Cases {
            texts: Texts {
                files: Vec::new(alloc),
            },
            calls: String::new(alloc),
            row_texts: Vec::new(alloc),
            asked: 0,
            right: 0,
        }
    }

    /// Begins rows for these calls.
    fn begin_rows(&mut self, alloc: Global, calls: &str) -> Result<(), AllocError> {
        self.calls = String::from_str(alloc, calls)?;
        self.row_texts.clear();
        Ok(())
    }

    /// Adds a definition to be made for each row.
    fn add_text(&mut self, alloc: Global, text: &str) -> Result<(), AllocError> {
        self.row_texts.push(String::from_str(alloc, text)?)?;
        Ok(())
    }

    /// Handles a line `NAME = VALUE`; says whether it is one.
    fn take_text<P: Programs>(
        &mut self,
        programs: &P,
        alloc: Global,
        line: &str,
    ) -> Result<bool, AllocError> {
        match line.split_once(" = ") {
            Some((name, value)) => {
                define(programs, alloc, &mut self.texts, name, value)?;
                Ok(true)
            }
            None => Ok(false),
        }
    }

    /// Handles a line that defines something; says whether it is one.
    fn take_definition<P: Programs>(
        &mut self,
        programs: &P,
        alloc: Global,
        line: &str,
    ) -> Result<bool, AllocError> {
        let (what, rest) = line.split_once(' ').unwrap_or((line, ""));
        match what {
            "rows" => self.begin_rows(alloc, rest)?,
            "each" => self.add_text(alloc, rest)?,
            _ => return self.take_text(programs, alloc, line),
        }
        Ok(true)
    }
}

/// Handles a line. A line of no known form is written.
fn take_line<P: Programs>(
    host: &HostRuntime,
    programs: &P,
    cases: &mut Cases,
    line: &str,
) -> Result<(), Error> {
    if line.is_empty() || line.starts_with('#') {
        return Ok(());
    }
    if let Some((question, answer)) = line.split_once(" : ") {
        return take_case(host, programs, cases, question, answer);
    }
    if cases.take_definition(programs, host.alloc(), line)? {
        return Ok(());
    }
    println!(host; "nothing is asked: {line}")
}

/// Appends a line to those before it. One that begins with a blank continues the line before. They are joined by `;`, unless the line
/// before ends in `=` or `:`.
fn push_joined(joined: &mut String, line: &str) -> Result<(), AllocError> {
    let between = if !line.starts_with(' ') {
        "\n"
    } else if joined.ends_with(" =") || joined.ends_with(" :") {
        " "
    } else {
        "; "
    };
    joined.push_str(between)?;
    joined.push_str(line.trim())
}

/// The lines of a text, with continued lines joined.
fn joined(alloc: Global, text: &str) -> Result<String, AllocError> {
    let mut joined = String::new(alloc);
    for line in text.lines() {
        push_joined(&mut joined, line)?;
    }
    Ok(joined)
}

/// Runs the cases of a file; writes what differs, and how many answers are right.
pub fn run_file<P: Programs>(host: &HostRuntime, programs: &P, name: &str) -> Result<(), Error> {
    let text = fs::read_to_string(host, name)?;
    let text = joined(host.alloc(), text.as_str())?;
    let mut cases = Cases::new(host.alloc());
    for line in text.lines() {
        take_line(host, programs, &mut cases, line)?;
    }
    let asked = cases.asked;
    let right = cases.right;
    println!(host; "{name}: {right} of {asked}")
}
