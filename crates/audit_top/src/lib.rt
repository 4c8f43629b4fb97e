//! `ehabi_audit FILE` as one function, over any files and output (docs/guide/audit.md, "The program").
#![tactic(auto)]

ghost use Rattle.audit_top.specs.Answered.{IsAuditAnswer};
ghost use Rattle.audit_top.specs.Does.{Does};
ghost use Rattle.audit_top.specs.Words.{name_of};
ghost use Rattle.cmd_answers.specs.Files.{file_state};
ghost use Rattle.cmd_answers.specs.Words.{texts};

mod audited;
pub mod laws;
mod listing;
mod report;
mod summary;
mod tables;
mod words;

use cmd_answers::Stop;
use cmd_answers::answer::answer_text;
use cmd_answers::status::USAGE;
use eh_port::{Files, Sink};
pub use report::MOST_BYTES;
use report::answer_file;
use std::alloc::Global;
pub use words::{HYPHEN, name_of};

// Audits the file that the words name.
fn do_audit<F: Files, O: Sink>(
    alloc: Global,
    words: &[&str],
    files: &mut F,
    out: &mut O,
) -> Result<u8, Stop>
    ensures { Does (name_of (texts words.now)) (file_state (F.held files.old) (F.faults files.old) (F.asked files.old) F.with_name) (file_state (F.held files.new) (F.faults files.new) (F.asked files.new) F.with_name)
        result (O.written out.old) (O.written out.new) (O.faults out.old) (O.faults out.new) }
{
    match name_of(words) {
        None => answer_text(out, b"usage: ehabi_audit FILE\n", USAGE),
        Some(name) => answer_file(alloc, name, files, out),
    }
}

/// The whole of `ehabi_audit`. It takes the words after the program's name, and gives the status:
///
/// - 0: the checker accepts the image, and nothing is listed (an image with a C++ compiler's tables is rewritten first);
/// - 2: the words aren't one name;
/// - 3: entries, functions or types are listed, or the line says why the file isn't audited;
/// - 7: a read of the file failed;
/// - 8: a write of the output failed;
/// - 9: there was no memory;
/// - 10: the file is missing, or has more than 67,108,864 bytes.
pub fn audit_main<F: Files, O: Sink>(
    alloc: Global,
    words: &[&str],
    files: &mut F,
    out: &mut O,
) -> u8
    // The promise is in the fields of `IsAuditAnswer`: it wrote a whole report and returned its status, or a first part of one with a
    // cause. They also say exactly when the status is 0, 2, 3 or 10.
    ensures { IsAuditAnswer (texts words.now) (file_state (F.held files.old) (F.faults files.old) (F.asked files.old) F.with_name) (file_state (F.held files.new) (F.faults files.new) (F.asked files.new) F.with_name)
        (O.written out.old) (O.written out.new) (O.faults out.old) (O.faults out.new) result }
{
    match do_audit(alloc, words, files, out) {
        Ok(status) => status,
        Err(stop) => stop.status(),
    }
}
