//! The parts from which the handmade file is written, at any address.
use crate::images::answers::say_whether;
use eh_word::Name;
use elf_write::parts::{
    ImageParts, OwnBytes, OwnSegment, OwnSegments, OwnSymbol, OwnSymbols, SymbolKind,
};
use elf_write::write::write_image;
use test_rows::Text;

/// The number of bytes of code.
const SIZE: u32 = 14;

/// A copy of bytes.
pub fn copy_of(text: &mut Text, bytes: &[u8]) -> Vec<u8> {
    let mut copy = Vec::new(text.alloc());
    text.note(copy.extend_from_slice(bytes));
    copy
}

/// A segment with the code.
fn segments(text: &mut Text, code: &[u8], start: u32) -> OwnSegments {
    let mut segments = Vec::new(text.alloc());
    let segment = OwnSegment {
        start,
        bytes: OwnBytes::of_vec(copy_of(text, code)),
        size: SIZE,
        write: false,
        exec: true,
    };
    if segments.push(segment).is_err() {
        text.want_memory();
    }
    OwnSegments::of_vec(segments)
}

/// The function `_start`, which is all the code.
fn symbols(text: &mut Text, start: u32) -> OwnSymbols {
    let mut symbols = Vec::new(text.alloc());
    let symbol = OwnSymbol {
        name: Name::of_vec(copy_of(text, b"_start")),
        value: start,
        size: SIZE,
        kind: SymbolKind::Function,
    };
    if symbols.push(symbol).is_err() {
        text.want_memory();
    }
    OwnSymbols::of_vec(symbols)
}

/// `ENTRY START`: whether the code of the handmade file, at a start and with this entry, is written as that file, or why it isn't written.
pub fn say_written(text: &mut Text, file: &[u8], words: &str) {
    let (entry, start) = text.first_hex(words);
    let start = text.hex(start);
    let code = file.get(84..98).unwrap_or(&[]);
    let parts = ImageParts {
        entry,
        segments: segments(text, code, start),
        symbols: symbols(text, start),
        index: (0, 0),
    };
    say_image_of(text, &parts, file);
}

/// Appends whether parts are written as a file, or why they aren't.
fn say_image_of(text: &mut Text, parts: &ImageParts, file: &[u8]) {
    match write_image(text.alloc(), parts) {
        Ok(bytes) => say_whether(text, bytes.as_slice() == file),
        Err(why) => write!(text, "{why:?}"),
    }
}
