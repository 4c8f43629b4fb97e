//! `check FILE` and `check FILE..`: whether the checker accepts an image, or the one built from sources (docs/rules/acceptance.md).
ghost use Rattle.std.specs.Prelude.{ℕ, List, Option, Some};
ghost use Rattle.cmd_input.specs.Accepting.{BytesReportsBy, IsUnaccepted};
ghost use Rattle.cmd_perform.specs.CheckReport.{ChecksAccepted};
ghost use Rattle.cmd_perform.specs.Report.{Does};
ghost use Rattle.cmd_input.specs.Words.{CheckFile, CheckSources};
ghost use Rattle.cmd_answers.specs.Words.{texts};
ghost use Rattle.cmd_perform.specs.Yields.{Yields, streams};
ghost use Rattle.cmd_answers.specs.Files.{file_state};

use cmd_answers::Stop;
use cmd_answers::answer::answer_text;
use cmd_answers::status::DONE;
use cmd_input::accept::{accept_bytes, answer_refused};
use cmd_input::build::built_files;
use cmd_input::refusal::answer_files_fault;
use cmd_input::sources::read_file;
use cmd_lines::accepted_line;
use eh_port::{Files, Sink};
use std::alloc::Global;

// Checks the image that these bytes are.
fn check_bytes<O: Sink>(alloc: Global, bytes: &[u8], out: &mut O) -> Result<u8, Stop>
    ensures { (input : Option (List ℕ)) (faults : ℕ) → Yields (BytesReportsBy ChecksAccepted bytes.now) (IsUnaccepted bytes.now)
        (streams input faults (O.written out.old) (O.faults out.old)) (streams input faults (O.written out.new) (O.faults out.new)) result }
{
    match accept_bytes(alloc, bytes) {
        Ok(Ok(accepted)) => {
            let count = accepted.image().functions().len();
            answer_text(out, accepted_line(count).as_slice(), DONE)
        }
        Ok(Err(fault)) => answer_refused(alloc, out, &fault),
        Err(stop) => Err(stop),
    }
}

/// Checks the image in a file. The input isn't used.
pub(crate) fn check_file<F: Files, O: Sink>(
    alloc: Global,
    name: &str,
    files: &mut F,
    out: &mut O,
) -> Result<u8, Stop>
    ensures { (input : Option (List ℕ)) (faults : ℕ) → Does (Some (CheckFile name.now)) (file_state (F.held files.old) (F.faults files.old) (F.asked files.old) F.with_name) (file_state (F.held files.new) (F.faults files.new) (F.asked files.new) F.with_name)
        (streams input faults (O.written out.old) (O.faults out.old)) (streams input faults (O.written out.new) (O.faults out.new)) result }
{
    match read_file(alloc, name, files) {
        Ok(Ok(bytes)) => check_bytes(alloc, bytes.as_slice(), out),
        Ok(Err(fault)) => answer_files_fault(out, &fault),
        Err(stop) => Err(stop),
    }
}

/// Checks the image built from the sources of these names. The input isn't used.
pub(crate) fn check_sources<F: Files, O: Sink>(
    alloc: Global,
    names: &[&str],
    files: &mut F,
    out: &mut O,
) -> Result<u8, Stop>
    ensures { (input : Option (List ℕ)) (faults : ℕ) → Does (Some (CheckSources (texts names.now))) (file_state (F.held files.old) (F.faults files.old) (F.asked files.old) F.with_name) (file_state (F.held files.new) (F.faults files.new) (F.asked files.new) F.with_name)
        (streams input faults (O.written out.old) (O.faults out.old)) (streams input faults (O.written out.new) (O.faults out.new)) result }
{
    match built_files(alloc, names, files) {
        Ok(Ok(bytes)) => check_bytes(alloc, bytes.as_slice(), out),
        Ok(Err(fault)) => answer_files_fault(out, &fault),
        Err(stop) => Err(stop),
    }
}
