//! The lines of a trace, as letters and digits (docs/guide/command-line.md, "What is written"), and the file that a name gives
//! (docs/rules/memory.md).
#![tactic(auto)]

ghost use Rattle.eh_trace_laws.specs.Files.{FilesAreAnswered};
ghost use Rattle.eh_trace_laws.specs.Traces.{TracesAreWritten};

/// The lines of a trace: one line of its kind for each event, with its code location and the name of its type, and one line with the
/// number of further events.
pub fn traces_are_written()
    ensures { TracesAreWritten }
{}

/// A name gives the first file of that name, if the file isn't over the given size; else the answer is that it is too long, or missing.
pub fn files_are_answered()
    ensures { FilesAreAnswered }
{}
