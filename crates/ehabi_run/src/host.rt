//! What a program does with the words, the files and the streams of its system, and the status that it ends with. The rules are those of
//! docs/guide/command-line.md; how the system's files and streams are used is in docs/rules/memory.md.

ghost use Rattle.std.specs.Prelude.{◌≡◌, map, IfOk, OnErr, string_bytes};
ghost use Rattle.cmd_top.specs.Answered.{IsAnswer};
ghost use Rattle.cmd_answers.specs.Files.{file_state};
ghost use Rattle.cmd_perform.specs.Yields.{streams};

use cmd_top::ehabi_main;
use cmd_words::{after_name, exit_code, texts_of, words_of};
use eh_port::{Files, HostFiles, HostSink, HostSource, Sink, Source};
use std::alloc::{AllocError, Global};
use std::process::ExitCode;
use std::{io, rt};

/// Does all that the words ask for, and returns the status. `AllocError` if there was no memory for the words; then nothing is done.
pub fn run_words<F: Files, I: Source, O: Sink>(
    alloc: Global,
    words: &[String],
    files: &mut F,
    input: &mut I,
    out: &mut O,
) -> Result<u8, AllocError>
    // If there is memory for the words, the promise of `ehabi_main` holds of them.
    ensures answer { IfOk result (IsAnswer (map string_bytes words.now)
        (file_state (F.held files.old) (F.faults files.old) (F.asked files.old) F.with_name) (file_state (F.held files.new) (F.faults files.new) (F.asked files.new) F.with_name)
        (streams (I.left input.old) (I.faults input.old) (O.written out.old) (O.faults out.old))
        (streams (I.left input.new) (I.faults input.new) (O.written out.new) (O.faults out.new))) }
    ensures nothing { OnErr result ((I.left input.new ≡ I.left input.old) × (O.written out.new ≡ O.written out.old)) }
{
    let texts = texts_of(alloc, words)?;
    Ok(ehabi_main(alloc, &texts, files, input, out))
}

/// The status of a program for the words, the files and the streams of its system. `AllocError` if there was no memory for the words.
pub fn run<R: rt::Env + rt::Files + Input + Print + AllocGlobal>(
    host: &R,
) -> Result<u8, AllocError> {
    let words = words_of(host)?;
    let mut files = HostFiles {
        host,
        faults: 0,
        asked: 0,
    };
    let mut input = HostSource {
        reader: host.reader(),
        faults: 0,
    };
    let mut out = HostSink {
        writer: io::writer(host),
        faults: 0,
    };
    run_words(
        host.alloc(),
        after_name(&words),
        &mut files,
        &mut input,
        &mut out,
    )
}

/// The whole program: its exit code is the status of its words, files and streams.
pub fn program<R: rt::Env + rt::Files + Input + Print + AllocGlobal>(host: &R) -> ExitCode {
    exit_code(run(host))
}
