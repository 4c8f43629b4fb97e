//! A stack and a pool without an image.
use eh_bus::bus::Bus;
use mem_buses::flat::FlatBus;
use test_rows::{Text, Unanswered};

/// A memory of zeros; None if there was none.
pub fn memory(text: &mut Text) -> Option<FlatBus> {
    match FlatBus::build(text.alloc(), &[]) {
        Ok(bus) => Some(bus),
        Err(_fault) => {
            text.want_memory();
            None
        }
    }
}

/// Stores a word, if it may be stored.
pub fn lay_word(text: &mut Text, bus: &mut FlatBus, at: u32, word: u32) {
    if bus.store32(at, word).is_err() {
        text.refuse(Unanswered::Because("no word can be stored"));
    }
}

/// Stores words from an address on. Those that can't be stored are left out.
pub fn lay(text: &mut Text, bus: &mut FlatBus, from: u32, words: &str) {
    if !words.is_empty() {
        lay_words(text, bus, from, words);
    }
}

fn lay_words(text: &mut Text, bus: &mut FlatBus, from: u32, words: &str) {
    let mut at = from;
    for word in words.split(' ') {
        let word = text.hex(word);
        let _done = bus.store32(at, word);
        at = at.wrapping_add(4);
    }
}
