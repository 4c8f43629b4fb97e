//! The programs under test.
use eh_port::{Files, Sink, Source};
use std::alloc::Global;

/// The two programs, each by its top call: it does what its words ask for, over files and ports, and returns the status.
pub trait Programs {
    /// Calls `ehabi_run`.
    fn run<F: Files, I: Source, O: Sink>(
        &self,
        alloc: Global,
        words: &[&str],
        files: &mut F,
        input: &mut I,
        out: &mut O,
    ) -> u8;

    /// Calls `ehabi_audit`, which has no input.
    fn audit<F: Files, O: Sink>(
        &self,
        alloc: Global,
        words: &[&str],
        files: &mut F,
        out: &mut O,
    ) -> u8;
}
