//! Runs the cases of data/ on the top functions of `ehabi_run` and `ehabi_audit` (CONTRIBUTING.md).
#![tactic(auto)]

use audit_top::audit_main;
use cmd_top::ehabi_main;
use eh_port::{Files, Sink, Source};
use std::alloc::Global;
use std::io::Error;
use test_commands::Programs;

/// The programs of this repository.
struct Ehabi;

impl Programs for Ehabi {
    fn run<F: Files, I: Source, O: Sink>(
        &self,
        alloc: Global,
        words: &[&str],
        files: &mut F,
        input: &mut I,
        out: &mut O,
    ) -> u8 {
        ehabi_main(alloc, words, files, input, out)
    }

    fn audit<F: Files, O: Sink>(
        &self,
        alloc: Global,
        words: &[&str],
        files: &mut F,
        out: &mut O,
    ) -> u8 {
        audit_main(alloc, words, files, out)
    }
}

fn main(host: HostRuntime) -> Result<(), Error> {
    test_commands::run(&host, &Ehabi)
}
