//! What objects link to (docs/rules/linking.md; IHI 0044).
use crate::described::objects_of;
use crate::objects::text_in;
use crate::texts::{say_bytes, say_text};
use asm_relocatable::Object;
use eh_link::{LinkFault, link};
use elf_write::{ImageParts, OwnSegment, OwnSymbol, SymbolKind};
use test_rows::{Telling, Text, Unanswered, first_word};

/// `PART ENTRY FILE`: a part of the image of the objects that a file describes, with a function as the entry; or why there is no image.
#[derive(Drop)]
pub struct Images<'a> {
    /// The system that the tests run on.
    pub host: &'a HostRuntime,
}

/// The bytes of a segment, by its index.
fn segment_bytes(parts: &ImageParts, place: usize) -> &[u8] {
    match parts.segments.as_slice().get(place) {
        Some(segment) => segment.bytes.as_slice(),
        None => &[],
    }
}

/// Appends the start of a segment, its size, and its rights.
fn say_segment(text: &mut Text, segment: &OwnSegment) {
    text.say_hex(segment.start);
    text.say(" of ");
    text.say_decimal(segment.size);
    text.say(" write ");
    text.say_whether(segment.write);
    text.say(" run ");
    text.say_whether(segment.exec);
    text.say(";");
}

fn say_segments(text: &mut Text, segments: &[OwnSegment]) {
    for segment in segments {
        say_segment(text, segment);
    }
}

/// The name of a kind of symbol.
fn kind_name(kind: SymbolKind) -> &'static str {
    match kind {
        SymbolKind::Function => "Function",
        SymbolKind::Object => "Object",
        SymbolKind::Code => "Code",
        SymbolKind::Words => "Words",
    }
}

/// Appends a symbol: its kind, its address and its name.
fn say_symbol(text: &mut Text, symbol: &OwnSymbol) {
    text.say(kind_name(symbol.kind));
    text.say(" ");
    text.say_hex(symbol.value);
    text.say(" ");
    say_text(text, symbol.name.bytes());
    text.say(";");
}

fn say_symbols(text: &mut Text, symbols: &[OwnSymbol]) {
    for symbol in symbols {
        say_symbol(text, symbol);
    }
}

/// Appends the address and size of an index.
fn say_index(text: &mut Text, index: (u32, u32)) {
    let (start, size) = index;
    text.say_hex(start);
    text.say(" of ");
    text.say_decimal(size);
}

/// Appends a part of an image.
fn say_part(text: &mut Text, part: &str, parts: &ImageParts) {
    match part {
        "code" => say_bytes(text, segment_bytes(parts, 0)),
        "data" => say_bytes(text, segment_bytes(parts, 1)),
        "segments" => say_segments(text, parts.segments.as_slice()),
        "symbols" => say_symbols(text, parts.symbols.as_slice()),
        "entry" => text.say_hex(parts.entry),
        "index" => say_index(text, parts.index),
        _ => text.refuse(Unanswered::NotKnown),
    }
}

/// Appends why objects have no image.
fn say_fault(text: &mut Text, fault: &LinkFault) {
    text.say_ascii(fault.name());
    match fault {
        LinkFault::Duplicate(name) | LinkFault::Undefined(name) => {
            text.say(" ");
            say_text(text, name.bytes());
        }
        LinkFault::RelocationRange(address) => {
            text.say(" ");
            text.say_hex(*address);
        }
        LinkFault::NoEntry | LinkFault::TooLarge | LinkFault::OutOfMemory => {}
    }
}

/// Appends a part of the image of objects.
fn say_image(text: &mut Text, part: &str, entry: &str, objects: &[Object]) {
    match link(text.alloc(), objects, entry.as_bytes()) {
        Ok(parts) => say_part(text, part, &parts),
        Err(fault) => say_fault(text, &fault),
    }
}

impl Telling for Images<'_> {
    fn tell(&self, text: &mut Text, question: &str) {
        let (part, words) = first_word(question);
        let (entry, file) = first_word(words);
        if let Some(described) = text_in(text, self.host, file) {
            let objects = objects_of(text, described.as_str());
            say_image(text, part, entry, objects.as_slice());
        }
    }
}
