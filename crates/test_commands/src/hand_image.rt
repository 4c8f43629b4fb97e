//! Images made by hand: one segment with halfwords and words at their addresses, and symbols (docs/rules/elf.md, docs/rules/unwind-tables.md). All
//! numbers are hexadecimal.
use crate::texts::{Texts, text_of};
use eh_word::Name;
use elf_write::{
    ImageParts, OwnBytes, OwnSegment, OwnSegments, OwnSymbol, OwnSymbols, SymbolKind, write_image,
};
use std::alloc::{AllocError, Global};

/// The address of the segment, which is the entry too.
const START: u32 = 0x8000;

/// An image, as far as it was made.
#[derive(Drop)]
struct HandImage {
    bytes: Vec<u8>,
    /// The offset of the next byte from the segment's start.
    next: usize,
    symbols: Vec<OwnSymbol>,
    /// The address and the size in bytes of the index.
    index: (u32, u32),
}

/// The number that a word is; 0 if it is none.
fn number(word: &str) -> u32 {
    u32::from_str_radix(word, 16).unwrap_or(0)
}

/// The two numbers of two words.
fn numbers(words: &str) -> (u32, u32) {
    let (first, second) = words.split_once(' ').unwrap_or((words, ""));
    (number(first), number(second))
}

impl HandImage {
    /// Writes bytes at the next offset, also over others.
    fn put(&mut self, bytes: &[u8]) -> Result<(), AllocError> {
        for byte in bytes {
            match self.bytes.get_mut(self.next) {
                Some(place) => *place = *byte,
                None => self.bytes.push(*byte)?,
            }
            self.next = self.next.saturating_add(1);
        }
        Ok(())
    }

    /// Goes on at an address. Zeros are filled in up to there.
    fn go_to(&mut self, address: u32) -> Result<(), AllocError> {
        self.next = address.saturating_sub(START) as usize;
        for _ in self.bytes.len()..self.next {
            self.bytes.push(0)?;
        }
        Ok(())
    }

    /// The displacement from the next byte to an address, in 31 bits.
    fn displacement(&self, address: u32) -> u32 {
        let place = START.wrapping_add((self.next % 0x1_0000) as u32);
        address.wrapping_sub(place) & 0x7FFF_FFFF
    }

    fn put_halves(&mut self, words: &str) -> Result<(), AllocError> {
        for word in words.split(' ') {
            let half = (number(word) % 0x1_0000) as u16;
            self.put(&half.to_le_bytes())?;
        }
        Ok(())
    }

    fn put_words(&mut self, words: &str) -> Result<(), AllocError> {
        for word in words.split(' ') {
            self.put(&number(word).to_le_bytes())?;
        }
        Ok(())
    }

    fn put_displacement(&mut self, word: &str) -> Result<(), AllocError> {
        let displacement = self.displacement(number(word));
        self.put(&displacement.to_le_bytes())
    }

    fn put_symbol(
        &mut self,
        name: Vec<u8>,
        value: u32,
        size: u32,
        kind: SymbolKind,
    ) -> Result<(), AllocError> {
        self.symbols.push(OwnSymbol {
            name: Name::of_vec(name),
            value,
            size,
            kind,
        })?;
        Ok(())
    }

    /// A function, `NAME START SIZE`. `\1` stands for a byte of 1.
    fn put_function(&mut self, alloc: Global, words: &str) -> Result<(), AllocError> {
        let (name, place) = words.split_once(' ').unwrap_or((words, ""));
        let (start, size) = numbers(place);
        let name = name.replace(alloc, "\\1", "\u{1}")?;
        let name = name.as_bytes().to_vec(alloc)?;
        self.put_symbol(name, start, size, SymbolKind::Function)
    }

    /// A mapping symbol: here code or data begins.
    fn put_mark(&mut self, alloc: Global, kind: SymbolKind, word: &str) -> Result<(), AllocError> {
        self.put_symbol(Vec::new(alloc), number(word), 0, kind)
    }

    /// A row of the index: the displacement to its function, and its word or the displacement to its table.
    fn put_row(&mut self, words: &str) -> Result<(), AllocError> {
        let (start, second) = words.split_once(' ').unwrap_or((words, ""));
        self.put_displacement(start)?;
        match second.strip_prefix("at ") {
            Some(table) => self.put_displacement(table),
            None => self.put_words(second),
        }
    }

    /// Reads a line. One of no known form changes nothing.
    fn take(&mut self, alloc: Global, line: &str) -> Result<(), AllocError> {
        let (what, words) = line.split_once(' ').unwrap_or((line, ""));
        match what {
            "half" => self.put_halves(words),
            "word" => self.put_words(words),
            "way" => self.put_displacement(words),
            "row" => self.put_row(words),
            "at" => self.go_to(number(words)),
            "function" => self.put_function(alloc, words),
            "code" => self.put_mark(alloc, SymbolKind::Code, words),
            "data" => self.put_mark(alloc, SymbolKind::Words, words),
            "index" => {
                self.index = numbers(words);
                Ok(())
            }
            _ => Ok(()),
        }
    }

    /// The parts of the image.
    fn into_parts(self, alloc: Global) -> Result<ImageParts, AllocError> {
        let segment = OwnSegment {
            start: START,
            size: (self.bytes.len() % 0x1_0000) as u32,
            bytes: OwnBytes::of_vec(self.bytes),
            write: false,
            exec: true,
        };
        let mut segments = OwnSegments::new(alloc);
        segments.push(segment)?;
        Ok(ImageParts {
            entry: START,
            segments,
            symbols: OwnSymbols::of_vec(self.symbols),
            index: self.index,
        })
    }
}

/// The image that lines describe.
fn image_of_lines(alloc: Global, lines: &str) -> Result<HandImage, AllocError> {
    let mut image = HandImage {
        bytes: Vec::new(alloc),
        next: 0,
        symbols: Vec::new(alloc),
        index: (0, 0),
    };
    for line in lines.lines() {
        image.take(alloc, line)?;
    }
    Ok(image)
}

/// The bytes of the image that lines describe; no bytes if there is none.
pub fn image_of(alloc: Global, texts: &Texts, items: &str) -> Result<Vec<u8>, AllocError> {
    let text = text_of(alloc, texts, items)?;
    let lines = str::from_utf8(text.as_slice()).unwrap_or("");
    let parts = image_of_lines(alloc, lines)?.into_parts(alloc)?;
    Ok(write_image(alloc, &parts).unwrap_or(Vec::new(alloc)))
}
