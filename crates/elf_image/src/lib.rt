//! Reads Arm ELF images and answers queries on them (docs/rules/elf.md).
#![tactic(auto)]

mod access;
pub mod fault;
pub mod format;
pub mod function;
pub mod header;
mod holder;
pub mod image;
pub mod index;
pub mod laws;
pub mod limits;
pub mod mark;
pub mod named;
pub mod read;
pub mod segment;
pub mod symbol;

pub use fault::ImageFault;
pub use function::Function;
pub use image::Image;
pub use read::read_image;
pub use segment::Segment;
