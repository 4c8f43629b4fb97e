//! What `ehabi_audit` does with the words, the files and the output of its system, and the status that it ends with. The rules are those of
//! docs/guide/audit.md; how the system's files and streams are used is in docs/rules/memory.md.

ghost use Rattle.std.specs.Prelude.{◌≡◌, map, IfOk, OnErr, string_bytes};
ghost use Rattle.audit_top.specs.Answered.{IsAuditAnswer};
ghost use Rattle.cmd_answers.specs.Files.{file_state};

use audit_top::audit_main;
use cmd_words::{after_name, exit_code, texts_of, words_of};
use eh_port::{Files, HostFiles, HostSink, Sink};
use std::alloc::{AllocError, Global};
use std::process::ExitCode;
use std::{io, rt};

/// Audits the file that the words name, and returns the status. `AllocError` if there was no memory for the words; then nothing is done.
pub fn run_words<F: Files, O: Sink>(
    alloc: Global,
    words: &[String],
    files: &mut F,
    out: &mut O,
) -> Result<u8, AllocError>
    // If there is memory for the words, the promise of `audit_main` holds of them.
    ensures answer { IfOk result (IsAuditAnswer (map string_bytes words.now)
        (file_state (F.held files.old) (F.faults files.old) (F.asked files.old) F.with_name) (file_state (F.held files.new) (F.faults files.new) (F.asked files.new) F.with_name)
        (O.written out.old) (O.written out.new) (O.faults out.old) (O.faults out.new)) }
    ensures nothing { OnErr result ((F.asked files.new ≡ F.asked files.old) × (O.written out.new ≡ O.written out.old)) }
{
    let texts = texts_of(alloc, words)?;
    Ok(audit_main(alloc, &texts, files, out))
}

/// The status of a program for the words, the files and the output of its system. `AllocError` if there was no memory for the words.
pub fn run<R: rt::Env + rt::Files + Print + AllocGlobal>(host: &R) -> Result<u8, AllocError> {
    let words = words_of(host)?;
    let mut files = HostFiles {
        host,
        faults: 0,
        asked: 0,
    };
    let mut out = HostSink {
        writer: io::writer(host),
        faults: 0,
    };
    run_words(host.alloc(), after_name(&words), &mut files, &mut out)
}

/// The whole program: its exit code is the status of its words, files and output.
pub fn program<R: rt::Env + rt::Files + Print + AllocGlobal>(host: &R) -> ExitCode {
    exit_code(run(host))
}
