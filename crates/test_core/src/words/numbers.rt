//! Words, relative addresses (IHI 0044, R_ARM_PREL31) and ULEB128 numbers (DWARF).
use eh_word::{get_half, get_word, prel31, uleb128};
use test_rows::{Text, Unanswered, first_word};

/// `prel31 PLACE WORD`: an address. `uleb128 PLACE BYTES`, `word PLACE BYTES`, `half PLACE BYTES`: the number at an offset in bytes; for
/// `uleb128` also the offset after it.
pub fn tell(text: &mut Text, question: &str) {
    let (what, words) = first_word(question);
    if what == "prel31" {
        say_prel31(text, words);
    } else {
        let (place, words) = first_word(words);
        let place = text.decimal(place) as usize;
        let bytes = text.bytes(words);
        say_number(text, what, &bytes, place);
    }
}

fn say_prel31(text: &mut Text, words: &str) {
    let (place, word) = text.first_hex(words);
    let word = text.hex(word);
    text.say_hex(prel31(place, word));
}

/// Appends the number at an offset in bytes.
fn say_number(text: &mut Text, what: &str, bytes: &[u8], place: usize) {
    match what {
        "uleb128" => say_uleb128(text, bytes, place),
        "word" => say_word(text, get_word(bytes, place)),
        "half" => say_half(text, get_half(bytes, place)),
        _ => text.refuse(Unanswered::NotKnown),
    }
}

fn say_uleb128(text: &mut Text, bytes: &[u8], place: usize) {
    if place > bytes.len() {
        return text.say("behind the bytes");
    }
    match uleb128(bytes, place) {
        Ok((number, after)) => write!(text, "{number:X} up to {after}"),
        Err(fault) => write!(text, "{fault:?}"),
    }
}

fn say_word(text: &mut Text, word: Option<u32>) {
    match word {
        Some(word) => text.say_hex(word),
        None => text.say("none"),
    }
}

fn say_half(text: &mut Text, half: Option<u16>) {
    match half {
        Some(half) => text.say_hex(u32::from(half)),
        None => text.say("none"),
    }
}
