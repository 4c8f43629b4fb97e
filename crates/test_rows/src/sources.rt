//! Images of sources and their parts, for test programs: what is read, assembled, linked with the stubs and written
//! (docs/rules/sources.md). Its functions have no contract on the image, so programs that ask what a machine does with it need no
//! definition of sources.

use asm_object::assemble;
use asm_read::read_source;
use asm_relocatable::Object;
use eh_kit::stubs;
use eh_link::link;
use elf_write::{ImageParts, write_image};
use std::alloc::Global;

fn object_of(alloc: Global, text: &[u8]) -> Option<Object> {
    let stmts = read_source(alloc, text).ok()?;
    assemble(alloc, stmts.as_slice()).ok()
}

/// The objects of sources, and of the stubs last.
fn objects_of(alloc: Global, texts: &[String]) -> Option<Vec<Object>> {
    let mut objects = Vec::new(alloc);
    for text in texts {
        objects.push(object_of(alloc, text.as_bytes())?).ok()?;
    }
    objects.push(object_of(alloc, stubs())?).ok()?;
    Some(objects)
}

/// The parts of the image of sources and the stubs. None if one isn't read or assembled, or they don't link.
pub fn parts_of_sources(alloc: Global, texts: &[String]) -> Option<ImageParts> {
    let objects = objects_of(alloc, texts)?;
    link(alloc, objects.as_slice(), b"_start").ok()
}

/// The bytes of that image; None if there is none.
pub fn image_of_sources(alloc: Global, texts: &[String]) -> Option<Vec<u8>> {
    let parts = parts_of_sources(alloc, texts)?;
    write_image(alloc, &parts).ok()
}
