//! Writes Arm ELF images (docs/rules/elf.md).
#![tactic(auto)]

ghost use Rattle.elf_write.specs.Parts.{ReadsBack, FilesMeanTheirParts};

pub mod layout;
pub mod parts;
pub mod plan;
pub mod rows;
pub mod write;

pub use parts::{ImageParts, OwnBytes, OwnSegment, OwnSegments, OwnSymbol, OwnSymbols, SymbolKind};
pub use write::write_image;

/// If no name of the parts contains a zero byte, the file written for them gives their image, wherever the file is
/// accepted.
pub fn what_is_written_stands_for_its_parts()
    ensures { FilesMeanTheirParts }
{}

/// Reading what `write_image` wrote for such parts gives their image.
pub fn reading_gives_the_image_of_the_parts()
    ensures { ReadsBack }
{}
