//! An image from a text: parts separated by ` ; `, each of words. The contents of a segment follow it, by rising address.
//!
//! - `segment START SIZE` and `writable START SIZE`: memory; the file has no bytes of it after the last content
//! - `words ADDRESS WORD ..`, `code ADDRESS HALFWORD ..`, `text ADDRESS TEXT`, and `names ADDRESS NAME ..`, each
//!   name with a zero byte after it
//! - `entry ADDRESS`, `index ADDRESS SIZE`, `function NAME ADDRESS SIZE`, `object NAME ADDRESS SIZE`, `thumb ADDRESS`, `data ADDRESS`
//! - `vtables`: the vtables of the kinds of types
use crate::images::draft::Draft;
use crate::images::vtables::put_vtables;
use crate::images::words::put_words;
use crate::{Unanswered, first_word, number, number_at, numbers};
use elf_write::parts::SymbolKind;
use std::alloc::Global;

fn put_code(alloc: Global, draft: &mut Draft, at: u32, halves: &[u32]) -> Result<(), Unanswered> {
    let mut bytes = Vec::new(alloc);
    for half in halves {
        let half = (half % 0x1_0000) as u16;
        bytes.extend_from_slice(&half.to_le_bytes())?;
    }
    draft.put_bytes(at, &bytes)
}

fn put_names(alloc: Global, draft: &mut Draft, at: u32, names: &str) -> Result<(), Unanswered> {
    let mut bytes = Vec::new(alloc);
    for name in names.split(' ') {
        bytes.extend_from_slice(name.as_bytes())?;
        bytes.push(0)?;
    }
    draft.put_bytes(at, &bytes)
}

/// Reads `NAME ADDRESS SIZE`.
fn put_symbol(
    alloc: Global,
    draft: &mut Draft,
    rest: &str,
    kind: SymbolKind,
) -> Result<(), Unanswered> {
    let (name, place) = first_word(rest);
    let place = numbers(alloc, place)?;
    draft.put_symbol(name, number_at(&place, 0)?, number_at(&place, 1)?, kind)
}

/// Reads `START SIZE`.
fn begin_segment(
    alloc: Global,
    draft: &mut Draft,
    rest: &str,
    write: bool,
) -> Result<(), Unanswered> {
    let place = numbers(alloc, rest)?;
    draft.begin_segment(number_at(&place, 0)?, number_at(&place, 1)?, write)
}

/// Reads `ADDRESS SIZE`.
fn set_index(alloc: Global, draft: &mut Draft, rest: &str) -> Result<(), Unanswered> {
    let place = numbers(alloc, rest)?;
    draft.set_index(number_at(&place, 0)?, number_at(&place, 1)?);
    Ok(())
}

/// Writes content at an address of the last segment.
fn put_content(alloc: Global, draft: &mut Draft, what: &str, rest: &str) -> Result<(), Unanswered> {
    let (at, rest) = first_word(rest);
    let at = number(at)?;
    match what {
        "words" => put_words(alloc, draft, at, rest),
        "code" => put_code(alloc, draft, at, &numbers(alloc, rest)?),
        "names" => put_names(alloc, draft, at, rest),
        "text" => draft.put_bytes(at, rest.as_bytes()),
        "thumb" => draft.put_symbol("$t", at, 0, SymbolKind::Code),
        "data" => draft.put_symbol("$d", at, 0, SymbolKind::Words),
        "entry" => {
            draft.set_entry(at);
            Ok(())
        }
        _ => Err(Unanswered::NotKnown),
    }
}

/// Adds a part.
fn put_part(alloc: Global, draft: &mut Draft, part: &str) -> Result<(), Unanswered> {
    let (what, rest) = first_word(part);
    match what {
        "segment" => begin_segment(alloc, draft, rest, false),
        "writable" => begin_segment(alloc, draft, rest, true),
        "index" => set_index(alloc, draft, rest),
        "function" => put_symbol(alloc, draft, rest, SymbolKind::Function),
        "object" => put_symbol(alloc, draft, rest, SymbolKind::Object),
        "vtables" => put_vtables(draft),
        _ => put_content(alloc, draft, what, rest),
    }
}

/// The file of the image that a text describes. Refused if it describes none.
pub fn image_of(alloc: Global, text: &str) -> Result<Vec<u8>, Unanswered> {
    let mut draft = Draft::new(alloc);
    for part in text.split(" ; ") {
        put_part(alloc, &mut draft, part)?;
    }
    draft.into_file()
}
