//! The words with unwind instructions at the start of a table of personality index 2 (IHI 0038, "The compact model").
//! docs/rules/gnu-tables.md states the format.
ghost use Rattle.std.specs.Prelude.{◌≡◌, ◌+◌, ◌*◌, ◌/◌, ◌%◌, ◌∷◌, ◌++◌, length, OnOk};
ghost use Rattle.eh_bytecode.specs.Codes.{swap_word_bytes};
ghost use Rattle.gnu_compact.specs.Tables.{further_words, codes_end, codes_bytes};

use eh_codes::words::{COMPACT_TOP, WIDE_PERSONALITY};
use std::alloc::AllocError;

/// The most bytes of unwind instructions of a table: two in the first word, and four in each of 255 further ones.
pub const MOST_CODES: usize = 1022;

/// The number of further words that hold these unwind instructions, as the count byte has it.
pub(crate) fn further_words(codes: &[u8]) -> u8
    ensures { result ≡ further_words codes.now }
{
    (codes.len() / 4 % 0x100) as u8
}

/// The size of the words with these unwind instructions, in bytes.
pub fn codes_end(codes: &[u8]) -> u32
    ensures { result ≡ codes_end codes.now }
{
    4 + 4 * u32::from(further_words(codes))
}

/// Appends the little-endian bytes of words; `words` has the top byte of each word first.
#[tactic(auto, using(std::proofs::lemmas::List::append_assoc))]
pub fn push_swapped_words(bytes: &mut Vec<u8>, words: &[u8]) -> Result<(), AllocError>
    ensures { OnOk result (bytes.new.items ≡ bytes.old.items ++ swap_word_bytes words.now) }
{
    match words {
        [a, b, c, d, rest @ ..] => {
            bytes.extend_from_slice(&[*d, *c, *b, *a])?;
            push_swapped_words(bytes, rest)
        }
        _ => Ok(()),
    }
}

/// Appends the words with unwind instructions, from the number of further words and the instruction bytes, two of them at least.
#[tactic(auto, using(std::proofs::lemmas::List::append_assoc))]
fn push_counted(
    bytes: &mut Vec<u8>,
    count: u8,
    first: u8,
    second: u8,
    rest: &[u8],
) -> Result<(), AllocError>
    ensures { OnOk result (bytes.new.items ≡ bytes.old.items ++ swap_word_bytes ((COMPACT_TOP + WIDE_PERSONALITY) ∷ count ∷ first ∷ second ∷ rest.now)) }
{
    bytes.extend_from_slice(&[second, first, count, COMPACT_TOP + WIDE_PERSONALITY])?;
    push_swapped_words(bytes, rest)
}

/// Appends the words with unwind instructions. The first word has the mark of the compact model with the personality index, the number
/// of further words, and two bytes of instructions. Each further word has four bytes.
#[tactic(auto, using(crate::proofs::TwoFirst::two_first))]
pub fn push_codes(bytes: &mut Vec<u8>, codes: &[u8]) -> Result<(), AllocError>
    ensures { OnOk result (bytes.new.items ≡ bytes.old.items ++ codes_bytes codes.now) }
{
    match codes {
        [first, second, rest @ ..] => push_counted(
            bytes,
            further_words(codes),
            *first,
            *second,
            rest,
        ),
        _ => Ok(()),
    }
}
