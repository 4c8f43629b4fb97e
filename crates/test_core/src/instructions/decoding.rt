//! How halfwords are decoded (docs/rules/instructions.md).
use crate::instructions::shown::say_decoded;
use test_rows::{Telling, Text, Unanswered, first_word};
use thumb_isa::decode::{decode, decode_for, is_wide};
use thumb_isa::profile::Profile;

/// `FIRST SECOND`: the instruction of two halfwords and its size in bytes, or why they are none.
pub struct Decoding;

/// `FIRST SECOND`: the same in the first profile, and after ` | ` in the second.
pub struct BothProfiles;

/// `FIRST`: whether a halfword begins a 32-bit instruction.
pub struct Widths;

/// The halfword in a word of a question.
pub fn halfword(text: &mut Text, word: &str) -> u16 {
    let number = text.hex(word);
    if number >= 0x1_0000 {
        text.refuse(Unanswered::NotNumber);
    }
    (number % 0x1_0000) as u16
}

/// The two halfwords of a question.
fn halfwords(text: &mut Text, question: &str) -> (u16, u16) {
    let (first, second) = first_word(question);
    (halfword(text, first), halfword(text, second))
}

impl Telling for Decoding {
    fn tell(&self, text: &mut Text, question: &str) {
        let (first, second) = halfwords(text, question);
        say_decoded(text, decode(first, second));
    }
}

/// Appends what halfwords decode to in a profile.
fn show_for(text: &mut Text, profile: Profile, first: u16, second: u16) {
    say_decoded(text, decode_for(profile, first, second));
}

impl Telling for BothProfiles {
    fn tell(&self, text: &mut Text, question: &str) {
        let (first, second) = halfwords(text, question);
        show_for(text, Profile::One, first, second);
        text.say(" | ");
        show_for(text, Profile::Two, first, second);
    }
}

impl Telling for Widths {
    fn tell(&self, text: &mut Text, question: &str) {
        let is_wide = is_wide(halfword(text, question));
        text.say(if is_wide { "4 bytes" } else { "2 bytes" });
    }
}
