//! `ehabi_run` as one function, over any files, input and output (docs/guide/command-line.md).
#![tactic(auto)]

ghost use Rattle.cmd_top.specs.Answered.{IsAnswer};
ghost use Rattle.cmd_answers.specs.Words.{texts};
ghost use Rattle.cmd_answers.specs.Files.{file_state};
ghost use Rattle.cmd_perform.specs.Yields.{streams};

use cmd_perform::perform;
use eh_port::{Files, Sink, Source};
use std::alloc::Global;

/// The whole of `ehabi_run`. It takes the words after the program's name, and gives the status:
///
/// - 0: the guest exits with 0, `build` wrote the image, `check` accepts it, or `walk` wrote the frames;
/// - 1: the guest exits with another number;
/// - 2: the words are no command;
/// - 3: the contents of the files, a generated program or a forced unwinding is refused, and the line says why;
/// - 4: the run ends by terminate; 5: by a trap; 6: the budget is spent;
/// - 7: a read of a file or of the input failed;
/// - 8: a write of the output failed;
/// - 9: there was no memory;
/// - 10: a named file is missing, or has more than 4,194,304 bytes.
pub fn ehabi_main<F: Files, I: Source, O: Sink>(
    alloc: Global,
    words: &[&str],
    files: &mut F,
    input: &mut I,
    out: &mut O,
) -> u8
    // The promise is in the fields of `IsAnswer`: it wrote the whole report and returned its status, or a first part of the report with a
    // cause. They also say exactly when the status is 2, 3 or 10.
    ensures { IsAnswer (texts words.now) (file_state (F.held files.old) (F.faults files.old) (F.asked files.old) F.with_name) (file_state (F.held files.new) (F.faults files.new) (F.asked files.new) F.with_name)
        (streams (I.left input.old) (I.faults input.old) (O.written out.old) (O.faults out.old))
        (streams (I.left input.new) (I.faults input.new) (O.written out.new) (O.faults out.new)) result }
{
    match perform(alloc, words, files, input, out) {
        Ok(status) => status,
        Err(stop) => stop.status(),
    }
}
