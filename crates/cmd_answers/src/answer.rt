//! The last text that a program writes, and its status (docs/guide/command-line.md).
ghost use Rattle.std.specs.Prelude.{◌++◌};
ghost use Rattle.cmd_answers.specs.Files.{missing_line, too_long_line};
ghost use Rattle.cmd_answers.specs.Writes.{Answers};
ghost use Rattle.cmd_answers.specs.declared.status.TheConstants.{FILE_UNAVAILABLE};

use crate::status::FILE_UNAVAILABLE;
use crate::stop::Stop;
use eh_port::{Sink, put_all};

/// Writes this text and returns this status, or the stop of a failed write.
pub fn answer_text<O: Sink>(out: &mut O, text: &[u8], status: u8) -> Result<u8, Stop>
    ensures { Answers text.now status result (O.written out.old) (O.written out.new) (O.faults out.old) (O.faults out.new) }
{
    match put_all(out, text) {
        Ok(()) => Ok(status),
        Err(_) => Err(Stop::Write),
    }
}

/// Writes these two texts and returns this status, or the stop of a failed write.
pub fn answer_both<O: Sink>(
    out: &mut O,
    first: &[u8],
    second: &[u8],
    status: u8,
) -> Result<u8, Stop>
    ensures { Answers (first.now ++ second.now) status result (O.written out.old) (O.written out.new) (O.faults out.old) (O.faults out.new) }
{
    match put_all(out, first) {
        Ok(()) => answer_text(out, second, status),
        Err(_) => Err(Stop::Write),
    }
}

/// Writes these three texts and returns this status, or the stop of a failed write.
pub fn answer_three<O: Sink>(
    out: &mut O,
    first: &[u8],
    second: &[u8],
    third: &[u8],
    status: u8,
) -> Result<u8, Stop>
    ensures { Answers (first.now ++ (second.now ++ third.now)) status result (O.written out.old) (O.written out.new) (O.faults out.old) (O.faults out.new) }
{
    match put_all(out, first) {
        Ok(()) => answer_both(out, second, third, status),
        Err(_) => Err(Stop::Write),
    }
}

/// Writes the line of a missing file and returns its status.
pub fn answer_missing<O: Sink>(out: &mut O, name: &str) -> Result<u8, Stop>
    ensures { Answers (missing_line name.now) FILE_UNAVAILABLE result (O.written out.old) (O.written out.new) (O.faults out.old) (O.faults out.new) }
{
    answer_both(out, name.as_bytes(), b": missing\n", FILE_UNAVAILABLE)
}

/// Writes the line of a file that is too long and returns its status.
pub fn answer_too_long<O: Sink>(out: &mut O, name: &str) -> Result<u8, Stop>
    ensures { Answers (too_long_line name.now) FILE_UNAVAILABLE result (O.written out.old) (O.written out.new) (O.faults out.old) (O.faults out.new) }
{
    answer_both(out, name.as_bytes(), b": too long\n", FILE_UNAVAILABLE)
}
