//! The parts of images whose GNU tables are rewritten.
use crate::gnu::image::{OfIndex, tell_of};
use crate::gnu::tables::{say_filters, say_refused};
use eh_index::Index;
use elf_write::parts::{OwnSegment, OwnSymbol, SymbolKind};
use elf_write::write::write_image;
use gnu_index::GnuFault;
use gnu_rewrite::{GnuImage, rewrite, translate};
use std::alloc::Global;
use test_rows::images::{Draft, image_of};
use test_rows::{Text, Unanswered, first_word};

/// A question on a rewritten image; for `symbol` also its name.
#[derive(Drop)]
struct Asked<'q> {
    what: &'q str,
    name: &'q str,
}

/// A question on the address of a symbol.
#[derive(Drop)]
struct SymbolOf<'q> {
    name: &'q str,
}

/// `segments IMAGE`, `words IMAGE`, `symbols IMAGE` and `filters IMAGE`: the parts of the rewritten image. `symbol NAME IMAGE`: a symbol's
/// address in it, after writing and reading. `listed IMAGE`: the entries whose functions can't be unwound. `refusal IMAGE`: why the image
/// is refused. `types N`: why an image with N types is refused.
pub fn tell(text: &mut Text, question: &str) {
    let (what, rest) = first_word(question);
    let (name, image) = if what == "symbol" {
        first_word(rest)
    } else {
        ("", rest)
    };
    let file = if what == "types" {
        let count = text.decimal(rest);
        many_types(text.alloc(), count)
    } else {
        image_of(text.alloc(), image)
    };
    tell_of(text, file, &Asked { what, name });
}

/// Makes a function of 8 bytes at 8000, and so many types.
fn put_types(draft: &mut Draft, count: u32) -> Result<(), Unanswered> {
    draft.set_entry(0x8000);
    draft.begin_segment(0x8000, 0x100, false)?;
    draft.put_symbol("f", 0x8000, 8, SymbolKind::Function)?;
    for _i in 0..count {
        draft.put_symbol("_ZTI", 0x8080, 0, SymbolKind::Object)?;
    }
    Ok(())
}

/// The file of an image with so many types.
fn many_types(alloc: Global, count: u32) -> Result<Vec<u8>, Unanswered> {
    let mut draft = Draft::new(alloc);
    match put_types(&mut draft, count) {
        Ok(()) => draft.into_file(),
        Err(why) => Err(why),
    }
}

impl<'q> OfIndex for Asked<'q> {
    fn tell(&self, text: &mut Text, index: &Index) {
        match self.what {
            "listed" => say_listed(text, index),
            "refusal" | "types" => say_refusal(text, index),
            _ => say_made(text, self, index),
        }
    }
}

impl<'q> OfIndex for SymbolOf<'q> {
    fn tell(&self, text: &mut Text, index: &Index) {
        match index.image().symbol(self.name.as_bytes()) {
            Some(a) => text.say_hex(a),
            None => text.say("none"),
        }
    }
}

/// Appends why an image is refused.
fn say_fault(text: &mut Text, fault: GnuFault) {
    match fault {
        GnuFault::Entry(entry) => {
            let (start, fault) = (entry.start, entry.fault);
            write!(text, "{fault:?} {start:X}");
        }
        GnuFault::TooLarge => text.say("TooLarge"),
        GnuFault::OutOfMemory => text.want_memory(),
    }
}

fn say_refusal(text: &mut Text, index: &Index) {
    match translate(text.alloc(), index.image(), index) {
        Ok(_made) => text.say("none"),
        Err(fault) => say_fault(text, fault),
    }
}

fn say_listed(text: &mut Text, index: &Index) {
    match rewrite(text.alloc(), index.image(), index) {
        Ok((made, entries)) => {
            text.say("listed");
            say_refused(text, &entries);
            say_new_words(text, &made);
        }
        Err(fault) => say_fault(text, fault),
    }
}

fn say_made(text: &mut Text, asked: &Asked, index: &Index) {
    match translate(text.alloc(), index.image(), index) {
        Ok(made) => say_parts(text, asked, &made),
        Err(_fault) => text.refuse(Unanswered::Because("refused")),
    }
}

fn say_parts(text: &mut Text, asked: &Asked, made: &GnuImage) {
    if asked.what == "symbol" {
        say_symbol_of(text, asked.name, made);
    } else {
        text.say(asked.what);
        say_lists(text, asked.what, made);
    }
}

fn say_lists(text: &mut Text, what: &str, made: &GnuImage) {
    match what {
        "segments" => say_segments(text, made),
        "words" => say_new_words(text, made),
        "symbols" => say_symbols(text, made),
        "filters" => say_filters(text, &made.filters),
        _ => text.refuse(Unanswered::NotKnown),
    }
}

fn say_symbol_of(text: &mut Text, name: &str, made: &GnuImage) {
    match write_image(text.alloc(), &made.parts) {
        Ok(file) => tell_of(text, Ok(file), &SymbolOf { name }),
        Err(_fault) => text.refuse(Unanswered::Because("not written")),
    }
}

/// Appends the words of the last segment.
fn say_new_words(text: &mut Text, made: &GnuImage) {
    if let Some(segment) = made.parts.segments.as_slice().last() {
        for word in segment.bytes.as_slice().chunks_exact(4) {
            text.say(" ");
            text.say_hex(u32::from_le_bytes([word[0], word[1], word[2], word[3]]));
        }
    }
}

/// The rights of a segment.
fn rights_of(s: &OwnSegment) -> &'static str {
    match (s.write, s.exec) {
        (false, false) => "read-only",
        (false, true) => "code",
        (true, false) => "writable",
        (true, true) => "writable code",
    }
}

fn say_segment(text: &mut Text, s: &OwnSegment) {
    let rights = rights_of(s);
    let (start, size, bytes) = (s.start, s.size, s.bytes.len());
    write!(text, " {start:X}+{size:X} {rights} of {bytes:X},");
}

/// Appends the segments, and the addresses of entry and index.
fn say_segments(text: &mut Text, made: &GnuImage) {
    for s in made.parts.segments.as_slice() {
        say_segment(text, s);
    }
    let (entry, (start, size)) = (made.parts.entry, made.parts.index);
    write!(text, " entry {entry:X}, index {start:X}+{size:X}");
}

fn say_symbols(text: &mut Text, made: &GnuImage) {
    for s in made.parts.symbols.as_slice() {
        say_symbol(text, s);
    }
}

/// Appends a symbol; a mapping symbol has no name.
fn say_symbol(text: &mut Text, s: &OwnSymbol) {
    let value = s.value;
    match s.kind {
        SymbolKind::Function => say_function(text, s),
        SymbolKind::Object => say_named(text, " object ", s),
        SymbolKind::Code => write!(text, " code {value:X}"),
        SymbolKind::Words => write!(text, " words {value:X}"),
    }
    text.say(",");
}

fn say_named(text: &mut Text, kind: &str, s: &OwnSymbol) {
    let value = s.value;
    text.say(kind);
    text.say_ascii(s.name.bytes());
    write!(text, " {value:X}");
}

fn say_function(text: &mut Text, s: &OwnSymbol) {
    let size = s.size;
    say_named(text, " function ", s);
    write!(text, "+{size:X}");
}
