//! The rows of the exception index (IHI 0038, "Index table entries"): two words for each function
//! (docs/rules/unwind-tables.md).
ghost use Rattle.std.specs.Prelude.{◌≡◌, ◌+◌, ◌^◌, ◌<◌, ◌%◌, ◌++◌, nat_le, OnOk};
ghost use Rattle.eh_codes.specs.Rows.{prel31_to, even, body_of, entry_of, second_word, row_bytes, rows_bytes};

use crate::words::COMPACT_MARK;
use eh_word::bytes::push_word;
use eh_word::prel31;
use std::alloc::AllocError;

/// The second word of a row for a function through which nothing unwinds (EXIDX_CANTUNWIND).
pub const CANT_UNWIND: u32 = 1;
/// The size of a row in bytes.
pub const ROW_SIZE: u32 = 8;
/// 2^31: all values of an R_ARM_PREL31 field, bits 30 to 0 of its word, are below it. Bit 31 is clear in the relative
/// words of a row.
pub const PREL31_LIMIT: u32 = 0x8000_0000;

/// The content of a row's second word.
#[derive(Clone, Copy, PartialEq, Eq)]
pub enum EntryBody {
    /// No unwinding through the function.
    CantUnwind,
    /// The entry itself, with bit 31 set.
    Inline(u32),
    /// The address of the entry in the exception table, in bytes.
    Table(u32),
}

/// A row of the index.
#[derive(Clone, Copy, PartialEq, Eq)]
pub struct Entry {
    /// The address of the function's first instruction, in bytes.
    pub start: u32,
    /// The function's entry, or where it is.
    pub body: EntryBody,
}

/// The 31-bit relative value from a word at `place` to a target address (R_ARM_PREL31).
pub fn prel31_to(place: u32, target: u32) -> u32
    ensures { result ≡ prel31_to place target }
{
    target.wrapping_sub(place) % PREL31_LIMIT
}

/// Decodes the second word of a row, at the address `place`. 1 is CantUnwind; a word with bit 31 set is an inline
/// entry; any other is the relative address of a table.
pub fn body_of(place: u32, word: u32) -> EntryBody
    ensures { result ≡ body_of place word }
{
    if word == CANT_UNWIND {
        EntryBody::CantUnwind
    } else if word >= COMPACT_MARK {
        EntryBody::Inline(word)
    } else {
        EntryBody::Table(prel31(place, word))
    }
}

/// A number with bit 0 cleared. In an address of code bit 0 isn't part of the address; in a descriptor it is a mark.
pub fn even(address: u32) -> u32
    ensures { result ≡ even address }
{
    address - address % 2
}

/// Decodes the row at the address `place`. Bit 0 of the start is cleared, and bit 31 of the first word is ignored.
pub fn entry_of(place: u32, first: u32, second: u32) -> Entry
    ensures { result ≡ entry_of place first second }
{
    Entry {
        start: even(prel31(place, first)),
        body: body_of(place.wrapping_add(4), second),
    }
}

/// Encodes the second word of a row, at the address `place`.
pub fn second_word(place: u32, body: EntryBody) -> u32
    ensures { result ≡ second_word place body }
{
    match body {
        EntryBody::CantUnwind => CANT_UNWIND,
        EntryBody::Inline(word) => word,
        EntryBody::Table(address) => prel31_to(place, address),
    }
}

/// Appends the two words of a row whose first word is at `place`. Addresses are relative to the word that holds them;
/// words are little-endian.
#[tactic(auto, unfolding(crate::specs::Rows::row_bytes))]
pub fn push_row(bytes: &mut Vec<u8>, place: u32, row: Entry) -> Result<(), AllocError>
    ensures { OnOk result (bytes.new.items ≡ bytes.old.items ++ row_bytes place row) }
{
    push_word(bytes, prel31_to(place, row.start))?;
    push_word(bytes, second_word(place.wrapping_add(4), row.body))
}

/// Appends consecutive rows, the first of which is at `place`.
#[tactic(auto, using(crate::proofs::RowBytes::steps))]
pub fn push_rows(bytes: &mut Vec<u8>, place: u32, rows: &[Entry]) -> Result<(), AllocError>
    ensures { OnOk result (bytes.new.items ≡ bytes.old.items ++ rows_bytes place rows.now) }
{
    let mut at = place;
    for row in rows {
        push_row(bytes, at, *row)?;
        at = at.wrapping_add(ROW_SIZE);
    }
    Ok(())
}
