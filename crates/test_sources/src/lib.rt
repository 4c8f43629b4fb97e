//! Runs the cases of sources/, in the data/ of test_layers_main, on the reader of sources, the assembler and the linker. A line is a
//! question, ` : ` and its answer, by hand from the pages under docs/ and the standards that they name. Writes what differs, and of each
//! file how many lines are right.
#![tactic(auto)]

mod described;
mod frames;
mod images;
mod kit;
mod objects;
mod shown;
mod statements;
mod texts;

use frames::FrameDirectives;
use kit::Stubs;
use objects::{Parts, TextBytes};
use statements::Statements;
use std::io::Error;
use test_rows::run_telling;

/// Asks how sources are read.
fn run_reader(host: &HostRuntime) -> Result<(), Error> {
    run_telling(host, "sources/statements.txt", &Statements)?;
    run_telling(host, "sources/refused_lines.txt", &Statements)?;
    run_telling(host, "sources/places.txt", &Statements)
}

/// Asks what sources are assembled to.
fn run_assembler(host: &HostRuntime) -> Result<(), Error> {
    run_telling(host, "sources/codes.txt", &TextBytes)?;
    run_telling(host, "sources/refused_sources.txt", &TextBytes)?;
    run_telling(host, "sources/frames.txt", &FrameDirectives)?;
    run_telling(host, "sources/objects.txt", &Parts { host })
}

/// Asks about the stubs and generated programs.
fn run_kit(host: &HostRuntime) -> Result<(), Error> {
    run_telling(host, "sources/stubs.txt", &Stubs)?;
    run_telling(
        host,
        "sources/generated_texts.txt",
        &kit::GeneratedTexts { host },
    )?;
    run_telling(host, "sources/generated_images.txt", &kit::GeneratedImages)
}

/// Runs all rows. Err if a file can't be read or the output fails.
pub fn run(host: &HostRuntime) -> Result<(), Error> {
    run_reader(host)?;
    run_assembler(host)?;
    run_telling(host, "sources/links.txt", &images::Images { host })?;
    run_kit(host)
}
