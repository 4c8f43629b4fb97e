//! Calls of the program, with texts as its files and an input and an output in memory.
use crate::listing::{entry, segments};
use crate::outcome::{Outcome, push_status, told};
use crate::programs::Programs;
use crate::texts::Texts;
use eh_port::{
    Bytes, CallNumbers, FileList, HostSink, HostSource, MemFiles, MemSink, MemSource, SureFiles,
    SureSink, SureSource,
};
use std::alloc::{AllocError, Global};
use std::io::Cursor;
use std::mem;

/// A call as a case file writes it: `COMMAND`, then its input after ` < `, then after ` ! ` which calls of a port fail.
#[derive(Clone, Copy)]
pub struct Call<'a> {
    /// The words of the command.
    pub command: &'a str,
    /// The text of its input.
    pub input: &'a str,
    /// The failing call: `file N`, `read N` or `write N`; empty if none fails.
    pub failing: &'a str,
}

/// The parts of a call. A call without an input has `in` as its input.
pub fn call_of(text: &str) -> Call<'_> {
    let (front, failing) = text.split_once(" !").unwrap_or((text, ""));
    let (command, input) = front.split_once(" <").unwrap_or((front, "in"));
    Call {
        command,
        input: input.trim(),
        failing: failing.trim(),
    }
}

impl Call<'_> {
    /// The numbers of a port's calls that fail; 0 for none.
    fn failing_at(&self, alloc: Global, port: &str) -> Result<CallNumbers, AllocError> {
        let mut numbers = CallNumbers::new(alloc);
        if let Some(number) = self.failing.strip_prefix(port) {
            numbers.push(number.trim().parse().unwrap_or(0))?;
        }
        Ok(numbers)
    }

    fn input_bytes(&self, alloc: Global) -> Result<Bytes, AllocError> {
        Ok(Bytes::of_vec(self.input.as_bytes().to_vec(alloc)?))
    }

    fn source(&self, alloc: Global) -> Result<MemSource, AllocError> {
        Ok(MemSource {
            left: self.input_bytes(alloc)?,
            next: 1,
            failing: self.failing_at(alloc, "read")?,
            faults: 0,
        })
    }

    fn sink(&self, alloc: Global) -> Result<MemSink, AllocError> {
        Ok(MemSink {
            written: Bytes::of_vec(Vec::new(alloc)),
            next: 1,
            failing: self.failing_at(alloc, "write")?,
            faults: 0,
        })
    }
}

/// A word of a command. `''` is the empty word, and `~` stands for a blank in a word.
fn word_of(alloc: Global, word: &str) -> Result<String, AllocError> {
    word.replace(alloc, "''", "")?.replace(alloc, "~", " ")
}

/// The words of a command.
fn words_of(alloc: Global, command: &str) -> Result<Vec<String>, AllocError> {
    let mut words = Vec::new(alloc);
    if !command.is_empty() {
        for word in command.split(' ') {
            words.push(word_of(alloc, word)?)?;
        }
    }
    Ok(words)
}

/// Takes the texts as files; `give_back` gives them back.
fn take_files(alloc: Global, texts: &mut Texts) -> FileList {
    FileList::of_vec(mem::replace(&mut texts.files, Vec::new(alloc)))
}

fn give_back(texts: &mut Texts, files: FileList) {
    texts.files = files.into_vec();
}

/// Calls the program over files, an input and an output that may fail.
fn perform<P: Programs>(
    programs: &P,
    alloc: Global,
    texts: &mut Texts,
    call: &Call,
    words: &[&str],
) -> Result<Outcome, AllocError> {
    let failing = call.failing_at(alloc, "file")?;
    let mut input = call.source(alloc)?;
    let mut out = call.sink(alloc)?;
    let mut held = MemFiles {
        files: take_files(alloc, texts),
        next: 1,
        failing,
        faults: 0,
    };
    let status = programs.run(alloc, words, &mut held, &mut input, &mut out);
    let file_faults = held.faults;
    give_back(texts, held.files);
    Ok(Outcome {
        status,
        input,
        out,
        file_faults,
    })
}

/// Calls the program over files, an input and an output that never fail: its status, and how many bytes it writes.
fn perform_surely<P: Programs>(
    programs: &P,
    alloc: Global,
    texts: &mut Texts,
    call: &Call,
    words: &[&str],
) -> Result<Vec<u8>, AllocError> {
    let mut input = SureSource {
        left: call.input_bytes(alloc)?,
    };
    let mut held = SureFiles {
        files: take_files(alloc, texts),
    };
    let mut out = SureSink { taken: 0 };
    let status = programs.run(alloc, words, &mut held, &mut input, &mut out);
    give_back(texts, held.files);
    let taken = out.taken;
    Ok(format!(in alloc; "status {status}\n{taken} bytes\n")?.into_bytes())
}

/// Calls the program over a reader and a writer of std: what it writes, and its status.
fn perform_by_std<P: Programs>(
    programs: &P,
    alloc: Global,
    texts: &mut Texts,
    call: &Call,
    words: &[&str],
) -> Result<Vec<u8>, AllocError> {
    let mut held = SureFiles {
        files: take_files(alloc, texts),
    };
    let mut input = HostSource {
        reader: Cursor::new(call.input.as_bytes()),
        faults: 0,
    };
    let mut out = HostSink {
        writer: Vec::new(alloc),
        faults: 0,
    };
    let status = programs.run(alloc, words, &mut held, &mut input, &mut out);
    give_back(texts, held.files);
    let mut told = out.writer;
    push_status(alloc, &mut told, status)?;
    Ok(told)
}

/// What a question asks about a call.
#[derive(Clone, Copy)]
enum Asked {
    /// What it writes, its status, what it leaves of its input, and how many calls failed.
    Outcome,
    /// What it writes, and nothing else.
    Written,
    /// As `Outcome`, over files, an input and an output that never fail.
    Surely,
    /// As `Outcome`, over a reader and a writer of std.
    ByStd,
}

/// What a call writes, its status, what it leaves of its input, and how many calls failed.
fn outcome_lines<P: Programs>(
    programs: &P,
    alloc: Global,
    texts: &mut Texts,
    call: &Call,
    words: &[&str],
) -> Result<Vec<u8>, AllocError> {
    let outcome = perform(programs, alloc, texts, call, words)?;
    told(alloc, &outcome, call.input)
}

/// What a call writes.
fn output_text<P: Programs>(
    programs: &P,
    alloc: Global,
    texts: &mut Texts,
    call: &Call,
    words: &[&str],
) -> Result<Vec<u8>, AllocError> {
    let outcome = perform(programs, alloc, texts, call, words)?;
    outcome.out.written.as_slice().to_vec(alloc)
}

/// The result of a call with these words.
fn asked_lines<P: Programs>(
    programs: &P,
    alloc: Global,
    texts: &mut Texts,
    asked: Asked,
    call: &Call,
    words: &[&str],
) -> Result<Vec<u8>, AllocError> {
    match asked {
        Asked::Outcome => outcome_lines(programs, alloc, texts, call, words),
        Asked::Written => output_text(programs, alloc, texts, call, words),
        Asked::Surely => perform_surely(programs, alloc, texts, call, words),
        Asked::ByStd => perform_by_std(programs, alloc, texts, call, words),
    }
}

/// The result of a call.
fn run_call<P: Programs>(
    programs: &P,
    alloc: Global,
    texts: &mut Texts,
    asked: Asked,
    text: &str,
) -> Result<Vec<u8>, AllocError> {
    let call = call_of(text);
    let owned = words_of(alloc, call.command)?;
    let words: Vec<&str> = owned.iter().map(|word| word.as_str()).collect(alloc)?;
    asked_lines(programs, alloc, texts, asked, &call, words.as_slice())
}

/// What a command writes. `AllocError` if there was no memory.
pub fn command_output<P: Programs>(
    programs: &P,
    alloc: Global,
    texts: &mut Texts,
    command: &str,
) -> Result<Vec<u8>, AllocError> {
    run_call(programs, alloc, texts, Asked::Written, command)
}

/// The answer to a question: `COMMAND`, `sure COMMAND`, `std COMMAND`, or one about an image, `entry FILE` and `segments FILE`.
pub fn answer<P: Programs>(
    programs: &P,
    alloc: Global,
    texts: &mut Texts,
    question: &str,
) -> Result<Vec<u8>, AllocError> {
    let (what, rest) = question.split_once(' ').unwrap_or((question, ""));
    match what {
        "entry" => entry(alloc, texts.get(rest).unwrap_or(b"")),
        "segments" => segments(alloc, texts.get(rest).unwrap_or(b"")),
        "sure" => run_call(programs, alloc, texts, Asked::Surely, rest),
        "std" => run_call(programs, alloc, texts, Asked::ByStd, rest),
        _ => run_call(programs, alloc, texts, Asked::Outcome, question),
    }
}
