//! Rows of programs. A question has the names of a program's sources, and commands for its image at the start of a run.
use crate::build::build_sources;
use elf_image::image::Image;
use elf_image::read::read_image;
use frame_check::{Accepted, check};
use std::alloc::Global;
use std::io::Error;
use test_rows::{Asked, Unanswered, run_file};

/// Something that answers commands.
pub trait Commanded {
    /// Answers commands separated by `; `, over an accepted image at the start of a run.
    fn answer_over(
        &self,
        alloc: Global,
        accepted: &Accepted,
        commands: &str,
    ) -> Result<String, Unanswered>;
}

/// Programs from sources in a folder.
#[derive(Drop)]
struct Programs<'a, C> {
    host: &'a HostRuntime,
    /// The folder of the sources, relative to where the program runs; empty, or ending in `/`.
    folder: &'a str,
    commanded: &'a C,
}

/// The answer to commands over an image, if the checker accepts it.
fn over_checked<C: Commanded>(
    alloc: Global,
    commanded: &C,
    image: Image,
    commands: &str,
) -> Result<String, Unanswered> {
    match check(alloc, image) {
        Ok(accepted) => commanded.answer_over(alloc, &accepted, commands),
        Err(_fault) => Err(Unanswered::Because("refused")),
    }
}

/// The same over the image that these bytes are.
fn over<C: Commanded>(
    alloc: Global,
    commanded: &C,
    file: &[u8],
    commands: &str,
) -> Result<String, Unanswered> {
    match read_image(alloc, file) {
        Ok(image) => over_checked(alloc, commanded, image, commands),
        Err(_fault) => Err(Unanswered::Because("no image")),
    }
}

impl<C: Commanded> Asked for Programs<'_, C> {
    /// A question has the names of a program's sources, and then commands.
    fn answer(&self, alloc: Global, question: &str) -> Result<String, Unanswered> {
        let (names, commands) = question.split_once("; ").unwrap_or((question, ""));
        let file = build_sources(self.host, self.folder, names)?;
        over(alloc, self.commanded, file.as_slice(), commands)
    }
}

/// Asks the rows of a file; their sources are in a folder.
pub fn run_programs<C: Commanded>(
    host: &HostRuntime,
    folder: &str,
    name: &str,
    commanded: &C,
) -> Result<(), Error> {
    let programs = Programs {
        host,
        folder,
        commanded,
    };
    run_file(host, name, &programs)
}
