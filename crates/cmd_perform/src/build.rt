//! `build FILE..`: builds sources into the bytes of an image.
ghost use Rattle.std.specs.Prelude.{ℕ, List, Option, Some};
ghost use Rattle.cmd_perform.specs.Report.{Does};
ghost use Rattle.cmd_input.specs.Words.{BuildSources};
ghost use Rattle.cmd_answers.specs.Words.{texts};
ghost use Rattle.cmd_answers.specs.Files.{file_state};
ghost use Rattle.cmd_perform.specs.Yields.{streams};

use cmd_answers::Stop;
use cmd_answers::answer::answer_text;
use cmd_answers::status::DONE;
use cmd_input::build::built_files;
use cmd_input::refusal::answer_files_fault;
use eh_port::{Files, Sink};
use std::alloc::Global;

/// Writes the image built from the sources of these names. The input isn't used.
pub(crate) fn build<F: Files, O: Sink>(
    alloc: Global,
    names: &[&str],
    files: &mut F,
    out: &mut O,
) -> Result<u8, Stop>
    ensures { (input : Option (List ℕ)) (faults : ℕ) → Does (Some (BuildSources (texts names.now))) (file_state (F.held files.old) (F.faults files.old) (F.asked files.old) F.with_name) (file_state (F.held files.new) (F.faults files.new) (F.asked files.new) F.with_name)
        (streams input faults (O.written out.old) (O.faults out.old)) (streams input faults (O.written out.new) (O.faults out.new)) result }
{
    match built_files(alloc, names, files) {
        Ok(Ok(bytes)) => answer_text(out, bytes.as_slice(), DONE),
        Ok(Err(fault)) => answer_files_fault(out, &fault),
        Err(stop) => Err(stop),
    }
}
