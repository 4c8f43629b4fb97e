//! The result of a call as text.
use eh_port::{MemSink, MemSource};
use std::alloc::{AllocError, Global};

/// The result of a call.
#[derive(Drop)]
pub struct Outcome {
    /// Its status.
    pub status: u8,
    /// Its input, after the call.
    pub input: MemSource,
    /// Its output, after the call.
    pub out: MemSink,
    /// The number of file reads that failed.
    pub file_faults: u64,
}

/// Appends a line.
pub fn push_line(text: &mut Vec<u8>, line: &[u8]) -> Result<(), AllocError> {
    text.extend_from_slice(line)?;
    text.extend_from_slice(b"\n")
}

/// Appends what was written; `\c` and an end follow a last line without one.
fn push_written(text: &mut Vec<u8>, written: &[u8]) -> Result<(), AllocError> {
    text.extend_from_slice(written)?;
    if written.is_empty() || written.ends_with(b"\n") {
        return Ok(());
    }
    push_line(text, b"\\c")
}

/// Appends what is left of an input, if some of it was read.
fn push_left(text: &mut Vec<u8>, given: &[u8], left: &[u8]) -> Result<(), AllocError> {
    if left == given {
        return Ok(());
    }
    text.extend_from_slice(b"left \"")?;
    text.extend_from_slice(left)?;
    push_line(text, b"\"")
}

/// Appends how many calls of a port failed, if any did.
fn push_faults(
    alloc: Global,
    text: &mut Vec<u8>,
    port: &str,
    faults: u64,
) -> Result<(), AllocError> {
    if faults == 0 {
        return Ok(());
    }
    let line = format!(in alloc; "{port} faults {faults}")?;
    push_line(text, line.as_bytes())
}

/// Appends a line with a status.
pub fn push_status(alloc: Global, text: &mut Vec<u8>, status: u8) -> Result<(), AllocError> {
    let line = format!(in alloc; "status {status}")?;
    push_line(text, line.as_bytes())
}

/// Appends all that is told of a call.
fn push_outcome(
    alloc: Global,
    text: &mut Vec<u8>,
    outcome: &Outcome,
    given: &str,
) -> Result<(), AllocError> {
    push_written(text, outcome.out.written.as_slice())?;
    push_status(alloc, text, outcome.status)?;
    push_left(text, given.as_bytes(), outcome.input.left.as_slice())?;
    push_faults(alloc, text, "file", outcome.file_faults)?;
    push_faults(alloc, text, "read", outcome.input.faults)?;
    push_faults(alloc, text, "write", outcome.out.faults)
}

/// What a call wrote, and a line with its status. If some of the input was read, a line with the rest follows, and for each port of which
/// calls failed a line with their number.
pub fn told(alloc: Global, outcome: &Outcome, given: &str) -> Result<Vec<u8>, AllocError> {
    let mut text = Vec::new(alloc);
    push_outcome(alloc, &mut text, outcome, given)?;
    Ok(text)
}
