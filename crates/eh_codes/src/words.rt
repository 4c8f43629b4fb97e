//! Constants of the words of an entry and of its descriptors (IHI 0038, "The compact model"; docs/rules/unwind-tables.md).
ghost use Rattle.std.specs.Prelude.{◌≡◌, ◌<◌, ◌/◌, ◌%◌, ◌^◌};
ghost use Rattle.eh_codes.specs.Words.{personality_of_word, code_words_after};

/// Bit 31 of an entry's first word: set in the compact model, clear in the generic one. In the second word of an index
/// row it marks an inline entry.
pub const COMPACT_MARK: u32 = 0x8000_0000;
/// The top byte of an entry's first word in the compact model, for personality 0. The number of the personality is
/// added to it.
pub const COMPACT_TOP: u8 = 0x80;
/// The greatest number of a personality routine.
pub const MOST_PERSONALITY: u8 = 2;
/// The personality routine whose descriptors have lengths and offsets of 32 bits instead of 16.
pub const WIDE_PERSONALITY: u8 = 2;
/// Bit 31 of a catch's landing pad word: the handler catches by reference.
pub const REFERENCE_MARK: u32 = 0x8000_0000;
/// Bit 31 of the type count of an exception specification: a landing pad follows its types.
pub const LANDING_PAD_MARK: u32 = 0x8000_0000;

/// The number of the personality routine, from an entry's first word.
pub fn personality_of_word(first: u32) -> u8
    ensures { result ≡ personality_of_word first }
{
    (first / 0x100_0000 % 16) as u8
}

/// How many words after an entry's first one hold bytecode.
pub fn code_words_after(first: u32) -> u8
    ensures { result ≡ code_words_after first }
{
    if personality_of_word(first) == 0 {
        0
    } else {
        (first / 0x1_0000 % 0x100) as u8
    }
}
