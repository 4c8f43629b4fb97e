//! Words of an image: hexadecimal digits, the name of a kind of types, or `>` and an address, which means its distance from the word itself
//! in 31 bits.
use crate::images::draft::Draft;
use crate::images::vtables::first_word_of;
use crate::{Unanswered, number};
use eh_codes::prel31_to;
use std::alloc::Global;

/// The word that a text means at an address.
fn word_at(place: u32, text: &str) -> Result<u32, Unanswered> {
    if let Some(target) = text.strip_prefix('>') {
        return Ok(prel31_to(place, number(target)?));
    }
    match first_word_of(text) {
        Some(word) => Ok(word),
        None => number(text),
    }
}

/// Writes the words of a text at an address. Refused if one is no word.
pub fn put_words(alloc: Global, draft: &mut Draft, at: u32, texts: &str) -> Result<(), Unanswered> {
    let mut bytes = Vec::new(alloc);
    let mut place = at;
    if !texts.is_empty() {
        for text in texts.split(' ') {
            bytes.extend_from_slice(&word_at(place, text)?.to_le_bytes())?;
            place = place.wrapping_add(4);
        }
    }
    draft.put_bytes(at, &bytes)
}
