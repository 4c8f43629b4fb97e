//! Builds a function's unwind entry from its bytecode (IHI 0038, "The compact model"; docs/rules/sources.md).
ghost use Rattle.std.specs.Prelude.{◌≡◌, ℕ, ◌+◌, ◌*◌, ◌/◌, ◌%◌, ◌^◌, ◌<◌, ◌≤◌, ◌==◌, ◌++◌, ◌≢◌, IfOk, IfErr, MatchOption, ⊤, length};
ghost use Rattle.eh_codes.specs.declared.words.TheConstants.{MOST_PERSONALITY};
ghost use Rattle.asm_unwind.specs.declared.entry.TheConstants.{LONG_ROOM};
ghost use Rattle.asm_unwind.specs.Entries.{code_byte, word_at, word, index_of, room, further_words, short_entry, long_entry, entry_of, entry_of_code};
ghost use Rattle.asm_unwind.specs.declared.directive.UnwindFault.{UnwindFault};

use crate::directive::UnwindFault;
use eh_codes::code::FINISH;
use eh_codes::words::COMPACT_TOP;
use eh_word::Seq;
use std::alloc::{AllocError, Global};

/// The most bytes of bytecode in an entry of personality 0.
pub const SHORT_ROOM: usize = 3;
/// The most bytes of bytecode in an entry of personality 1 or 2: two in its first word, and four in each of 255 more.
pub const LONG_ROOM: usize = 1022;

/// The words of an unwind table.
pub type TableWords = Seq<u32>;

/// The unwind entry of a function (IHI 0038).
#[derive(Drop)]
pub enum EntryWords {
    /// No unwinding through the function.
    CantUnwind,
    /// The entry itself, in the second word of the index row.
    Inline(u32),
    /// The words of the function's table, without those that the source gives after `.handlerdata`.
    Table(TableWords),
}

/// The byte of bytecode at an index; "finish" past the end.
fn code_byte(bytes: &[u8], at: usize) -> u8
    ensures { result ≡ code_byte bytes.now at }
{
    bytes.get(at).copied().unwrap_or(FINISH)
}

/// A word from its bytes, top byte first.
fn word(a: u8, b: u8, c: u8, d: u8) -> u32
    ensures { result ≡ word a b c d }
{
    u32::from_be_bytes([a, b, c, d])
}

/// The word of four bytes of bytecode from an index on.
#[tactic(auto, unfolding(crate::specs::Entries::word_at))]
fn word_at(bytes: &[u8], at: usize) -> u32
    requires { at < 2 ^ 32 }
    ensures { result ≡ word_at bytes.now at }
{
    word(
        code_byte(bytes, at),
        code_byte(bytes, at + 1),
        code_byte(bytes, at + 2),
        code_byte(bytes, at + 3),
    )
}

/// The entry word of personality 0.
#[tactic(auto, unfolding(crate::specs::Entries::short_entry))]
fn short_entry(bytes: &[u8]) -> u32
    ensures { result ≡ short_entry bytes.now }
{
    word(
        COMPACT_TOP,
        code_byte(bytes, 0),
        code_byte(bytes, 1),
        code_byte(bytes, 2),
    )
}

/// The words of an entry of personality 1 or 2.
#[tactic(auto, unfolding(crate::specs::Entries::long_entry))]
fn long_entry(alloc: Global, index: u8, bytes: &[u8]) -> Result<Vec<u32>, AllocError>
    requires index { index ≤ MOST_PERSONALITY }
    requires room { length bytes.now ≤ LONG_ROOM }
    ensures { IfOk result (λ words. words.items ≡ long_entry index bytes.now) }
{
    let further = (bytes.len() + 1) / 4;
    let mut words = Vec::with_capacity(alloc, further + 1)?;
    let first = word(
        COMPACT_TOP + index,
        further as u8,
        code_byte(bytes, 0),
        code_byte(bytes, 1),
    );
    words.push(first)?;
    for k in 0..further {
        words.push(word_at(bytes, 2 + 4 * k))?;
    }
    Ok(words)
}

/// The most bytes of bytecode in an entry of a personality.
fn room(index: u8) -> usize
    ensures { result ≡ room index }
{
    if index == 0 { SHORT_ROOM } else { LONG_ROOM }
}

/// The number of the personality routine: the given one; else 0 if the bytecode fits a short entry, and 1 if it
/// doesn't.
fn index_of(given: Option<u8>, bytes: &[u8]) -> u8
    ensures { result ≡ index_of given bytes.now }
{
    given.unwrap_or(if bytes.len() <= SHORT_ROOM { 0 } else { 1 })
}

/// The entry of bytecode that fits.
#[tactic(auto, unfolding(crate::specs::Entries::entry_of))]
fn entry_of(
    alloc: Global,
    index: u8,
    handler_data: bool,
    bytes: &[u8],
) -> Result<EntryWords, AllocError>
    requires index { index ≤ MOST_PERSONALITY }
    requires room { length bytes.now ≤ room index }
    ensures { IfOk result (λ entry. entry ≡ entry_of index handler_data bytes.now) }
{
    if index != 0 {
        let mut words = long_entry(alloc, index, bytes)?;
        if !handler_data {
            words.push(0)?;
        }
        return Ok(EntryWords::Table(TableWords::of_vec(words)));
    }
    let word = short_entry(bytes);
    if !handler_data {
        return Ok(EntryWords::Inline(word));
    }
    let mut words = Vec::new(alloc);
    words.push(word)?;
    Ok(EntryWords::Table(TableWords::of_vec(words)))
}

/// The entry of a function's bytecode. TooLong exactly if the bytecode doesn't fit.
pub fn entry_of_code(
    alloc: Global,
    personality: Option<u8>,
    handler_data: bool,
    bytes: &[u8],
) -> Result<EntryWords, UnwindFault>
    requires { MatchOption personality ⊤ (λ index. index ≤ MOST_PERSONALITY) }
    ensures ok { IfOk result (λ entry. entry_of_code personality handler_data bytes.now ≡ Ok entry) }
    ensures err { IfErr result (λ e. e ≢ UnwindFault.OutOfMemory → entry_of_code personality handler_data bytes.now ≡ Err e) }
{
    let index = index_of(personality, bytes);
    if bytes.len() > room(index) {
        return Err(UnwindFault::TooLong);
    }
    Ok(entry_of(alloc, index, handler_data, bytes)?)
}
