//! The rows of the symbol table, and its strings (docs/rules/elf.md).
ghost use Rattle.std.specs.Prelude.{◌≡◌, ◌≢◌, ◌+◌, ◌-◌, ◌*◌, ◌^◌, ◌<◌, ◌≤◌, [], ◌∷◌, ◌++◌, length, OnOk, IfOk, map, filter};
ghost use Rattle.eh_word.specs.Bytes.{zeros};
ghost use Rattle.elf_image.specs.declared.symbol.TheConstants.{SYMBOL_SIZE};
ghost use Rattle.elf_write.specs.Layout.{word, half, align_to_word, padding, is_mapping, section_of, symbol_row_of, rows_of, is_wanted, wanted_rows, zero_terminated, name_offset, symbol_bytes, symbol_rows, strings_of, contents, program_bytes, program_rows, file_place};
ghost use Rattle.elf_image.specs.declared.limits.TheConstants.{SEGMENT_LIMIT};

use crate::layout::SHN_ABS;
use crate::parts::{OwnSegment, OwnSymbol, SymbolKind};
use eh_word::bytes::{next_multiple, push_half, push_word, push_zeros};
use elf_image::symbol::{SYMBOL_SIZE, Symbol};
use std::alloc::{AllocError, Global};

/// Appends a word, lowest byte first.
#[tactic(auto, unfolding(crate::specs::Layout::word))]
pub(crate) fn put_word(out: &mut Vec<u8>, x: u32) -> Result<(), AllocError>
    ensures { OnOk result (out.new.items ≡ out.old.items ++ word x) }
{
    push_word(out, x)
}

/// Appends a halfword, lowest byte first.
#[tactic(auto, unfolding(crate::specs::Layout::half))]
pub(crate) fn put_half(out: &mut Vec<u8>, x: u16) -> Result<(), AllocError>
    ensures { OnOk result (out.new.items ≡ out.old.items ++ half x) }
{
    push_half(out, x)
}

/// The next multiple of 4.
pub(crate) fn align_to_word(n: usize) -> usize
    requires { n + 4 ≤ 2 ^ 64 }
    ensures { result ≡ align_to_word n }
{
    next_multiple(n as u64, 4) as usize
}

/// Appends zeros from the offset `at` to the next multiple of 4.
pub(crate) fn put_padding(out: &mut Vec<u8>, at: usize) -> Result<(), AllocError>
    requires { at + 4 ≤ 2 ^ 64 }
    ensures { OnOk result (out.new.items ≡ out.old.items ++ padding at) }
{
    push_zeros(out, align_to_word(at) - at)
}

/// The section number of the first segment that contains a value or ends at it.
fn section_of(segments: &[OwnSegment], value: u32) -> u16
    requires { length segments.now ≤ SEGMENT_LIMIT }
    ensures { result ≡ section_of segments.now value }
{
    let mut number = 1;
    for s in segments {
        if s.start <= value && u64::from(value) <= u64::from(s.start) + u64::from(s.size) {
            return number;
        }
        number += 1;
    }
    SHN_ABS
}

/// The row of a symbol to write.
fn symbol_row<'a>(segments: &[OwnSegment], s: &'a OwnSymbol) -> Symbol<'a>
    requires { length segments.now ≤ SEGMENT_LIMIT }
    ensures { result ≡ symbol_row_of segments.now s.now s.now.kind }
{
    let section = section_of(segments, s.value);
    let (name, value, size, info) = match s.kind {
        SymbolKind::Function => (s.name.bytes(), s.value - s.value % 2 + 1, s.size, 0x12),
        SymbolKind::Object => (s.name.bytes(), s.value, s.size, 0x11),
        SymbolKind::Code => (b"$t".as_slice(), s.value, 0, 0),
        SymbolKind::Words => (b"$d".as_slice(), s.value, 0, 0),
    };
    Symbol {
        name,
        value,
        size,
        info,
        section,
    }
}

/// Whether a symbol is a mapping symbol (if `mapping`) or isn't (if not).
fn is_wanted(mapping: bool, kind: SymbolKind) -> bool
    ensures { result ≡ is_wanted mapping kind }
{
    let is_mapping = match kind {
        SymbolKind::Function | SymbolKind::Object => false,
        SymbolKind::Code | SymbolKind::Words => true,
    };
    is_mapping == mapping
}

/// Appends the rows of the mapping symbols (if `mapping`) or of the others (if not).
pub(crate) fn push_rows<'a>(
    rows: &mut Vec<Symbol<'a>>,
    segments: &[OwnSegment],
    symbols: &'a [OwnSymbol],
    mapping: bool,
) -> Result<(), AllocError>
    requires { length segments.now ≤ SEGMENT_LIMIT }
    ensures { OnOk result (rows.new.items ≡ rows.old.items ++ wanted_rows mapping segments.now symbols.now) }
{
    for s in symbols {
        if is_wanted(mapping, s.kind) {
            rows.push(symbol_row(segments, s))?;
        }
    }
    Ok(())
}

/// Appends a name and a zero byte; nothing for an empty name.
fn put_zero_terminated(out: &mut Vec<u8>, name: &[u8]) -> Result<(), AllocError>
    ensures { OnOk result (out.new.items ≡ out.old.items ++ zero_terminated name.now) }
{
    if name.is_empty() {
        return Ok(());
    }
    out.extend_from_slice(name)?;
    out.push(b'\0')?;
    Ok(())
}

/// The strings of the rows: a zero byte, then each name with a closing zero byte.
pub(crate) fn strings_of(alloc: Global, rows: &[Symbol]) -> Result<Vec<u8>, AllocError>
    ensures { IfOk result (λ v. v.items ≡ strings_of rows.now) }
{
    let mut out = Vec::new(alloc);
    out.push(0)?;
    for s in rows {
        put_zero_terminated(&mut out, s.name)?;
    }
    Ok(out)
}

/// The offset of a name in the strings; 0 for an empty name.
fn name_offset(name: &[u8], at: u32) -> u32
    ensures { result ≡ name_offset name.now at }
{
    if name.is_empty() { 0 } else { at }
}

/// The length in bytes of a name in the strings.
fn closed_len(name: &[u8]) -> usize
    requires { length name.now < 2 ^ 63 }
    ensures { result ≡ length (zero_terminated name.now) }
{
    if name.is_empty() { 0 } else { name.len() + 1 }
}

/// Appends a row of the symbol table.
#[tactic(auto, using(std::proofs::lemmas::List::append_assoc), unfolding(crate::specs::Layout::symbol_bytes))]
fn put_symbol(out: &mut Vec<u8>, s: &Symbol, at: u32) -> Result<(), AllocError>
    ensures { OnOk result (out.new.items ≡ out.old.items ++ symbol_bytes at s.now) }
{
    put_word(out, name_offset(s.name, at))?;
    put_word(out, s.value)?;
    put_word(out, s.size)?;
    out.push(s.info)?;
    out.push(0)?;
    put_half(out, s.section)
}

/// The symbol table: the null symbol, then the rows.
pub(crate) fn table_of(alloc: Global, rows: &[Symbol]) -> Result<Vec<u8>, AllocError>
    requires { length (strings_of rows.now) < 2 ^ 32 }
    ensures { IfOk result (λ v. v.items ≡ zeros SYMBOL_SIZE ++ symbol_rows 1 rows.now) }
{
    let mut out = Vec::new(alloc);
    push_zeros(&mut out, SYMBOL_SIZE)?;
    let mut at = 1usize;
    for s in rows {
        put_symbol(&mut out, s, at as u32)?;
        at += closed_len(s.name);
    }
    Ok(out)
}
