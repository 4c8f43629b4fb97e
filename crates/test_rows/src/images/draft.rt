//! An image in the making: segments with their bytes, symbols and an index.
use crate::{Unanswered, want_of_memory};
use eh_word::Name;
use elf_image::fault::ImageFault;
use elf_image::image::Image;
use elf_image::read::read_image;
use elf_write::parts::{
    ImageParts, OwnBytes, OwnSegment, OwnSegments, OwnSymbol, OwnSymbols, SymbolKind,
};
use elf_write::write::write_image;
use std::alloc::Global;

/// The greatest offset in bytes of a byte in its segment.
const FARTHEST: u32 = 0x2_0000;

/// Memory of `size` bytes from `start` on; the first of them are given.
#[derive(Drop)]
struct DraftSegment {
    start: u32,
    size: u32,
    write: bool,
    bytes: Vec<u8>,
}

/// The parts of an image so far.
#[derive(Drop)]
pub struct Draft {
    alloc: Global,
    entry: u32,
    index: (u32, u32),
    segments: Vec<DraftSegment>,
    symbols: Vec<OwnSymbol>,
}

impl DraftSegment {
    /// Writes bytes at an address after those that are there, with zeros between them.
    fn put(&mut self, at: u32, bytes: &[u8]) -> Result<(), Unanswered> {
        let offset = at.wrapping_sub(self.start);
        if offset > FARTHEST || (offset as usize) < self.bytes.len() {
            return Err(Unanswered::Because("no place in its segment"));
        }
        self.bytes.resize(offset as usize, 0)?;
        self.bytes.extend_from_slice(bytes)?;
        Ok(())
    }
}

impl Draft {
    /// An image without segments, symbols and index.
    pub fn new(alloc: Global) -> Draft {
        Draft {
            alloc,
            entry: 0,
            index: (0, 0),
            segments: Vec::new(alloc),
            symbols: Vec::new(alloc),
        }
    }

    /// Begins a segment of `size` bytes. Refused if there was no memory.
    pub fn begin_segment(&mut self, start: u32, size: u32, write: bool) -> Result<(), Unanswered> {
        let segment = DraftSegment {
            start,
            size,
            write,
            bytes: Vec::new(self.alloc),
        };
        self.segments.push(segment)?;
        Ok(())
    }

    /// Writes bytes into the last segment, after those that are there. Refused if they don't fit.
    pub fn put_bytes(&mut self, at: u32, bytes: &[u8]) -> Result<(), Unanswered> {
        match self.segments.last_mut() {
            Some(segment) => segment.put(at, bytes),
            None => Err(Unanswered::Because("no segment")),
        }
    }

    /// Adds a symbol.
    pub fn put_symbol(
        &mut self,
        name: &str,
        value: u32,
        size: u32,
        kind: SymbolKind,
    ) -> Result<(), Unanswered> {
        let name = Name::of_vec(Vec::from_slice(self.alloc, name.as_bytes())?);
        self.symbols.push(OwnSymbol {
            name,
            value,
            size,
            kind,
        })?;
        Ok(())
    }

    /// Sets the address of the first instruction.
    pub fn set_entry(&mut self, entry: u32) {
        self.entry = entry;
    }

    /// Sets the address of the index, and its size in bytes.
    pub fn set_index(&mut self, start: u32, size: u32) {
        self.index = (start, size);
    }

    /// The file of the image. Refused if it can't be written.
    pub fn into_file(self) -> Result<Vec<u8>, Unanswered> {
        let Draft {
            alloc,
            entry,
            index,
            segments,
            symbols,
        } = self;
        let mut own = Vec::new(alloc);
        for segment in segments {
            own.push(OwnSegment {
                start: segment.start,
                bytes: OwnBytes::of_vec(segment.bytes),
                size: segment.size,
                write: segment.write,
                exec: !segment.write,
            })?;
        }
        let parts = ImageParts {
            entry,
            segments: OwnSegments::of_vec(own),
            symbols: OwnSymbols::of_vec(symbols),
            index,
        };
        write_image(alloc, &parts).map_err(image_unanswered)
    }
}

/// The reason why an image can't be written or read.
fn image_unanswered(fault: ImageFault) -> Unanswered {
    match fault {
        ImageFault::OutOfMemory => want_of_memory(),
        _ => Unanswered::Because("no image"),
    }
}

/// The image in a file. Refused if it can't be read.
pub fn open_image(alloc: Global, file: &[u8]) -> Result<Image<'_>, Unanswered> {
    read_image(alloc, file).map_err(image_unanswered)
}
