//! Reads the symbol table and its strings (docs/rules/elf.md).
ghost use Rattle.std.specs.Prelude.{◌≡◌, ◌+◌, ◌*◌, ◌/◌, ◌^◌, ◌<◌, ◌≤◌, length, drop, nat_lt, IfOk, IfErr, IfSome, Some, None, option_copied, find};
ghost use Rattle.std.specs.List.{slice_get, prefix_len};
ghost use Rattle.std.specs.List.Sorted.{IsNonDecreasing};
ghost use Rattle.elf_image.specs.Symbols.{Symbol as Fields, is_symbol_table, tables_of, name_at, symbol_at, symbols_of, zeros_from, next_zero};

use crate::format::{SHT_STRTAB, SHT_SYMTAB, SectionHeader, half, word};
use std::alloc::{AllocError, Global};
use std::marker::Model;

/// The size in bytes of a row of the symbol table.
pub const SYMBOL_SIZE: usize = 16;
/// The type of a function, in the low four bits of a symbol's `info`.
pub const STT_FUNC: u8 = 2;
/// The section number of an undefined symbol.
pub const SHN_UNDEF: u16 = 0;

/// A row of the symbol table, with its name.
#[derive(Drop)]
pub struct Symbol<'a> {
    /// The name.
    pub name: &'a [u8],
    /// The value: for a function, its address with bit 0 set for Thumb code.
    pub value: u32,
    /// The size in bytes.
    pub size: u32,
    /// The type in the low four bits, the binding in the high four.
    pub info: u8,
    /// The number of its section; 0 if it is undefined.
    pub section: u16,
}

impl<'a> Model for Symbol<'a> {
    ghost use Rattle.elf_image.specs.Symbols.{Symbol as Fields};

    ghost Value = { Fields };

    ghost view = { λ s. record { name = s.name.now; value = s.value; size = s.size; info = s.info; section = s.section } };
}

/// The first section of type SHT_SYMTAB.
fn symbol_table(sections: &[SectionHeader]) -> Option<SectionHeader>
    ensures { result ≡ find is_symbol_table sections.now }
{
    sections.iter().copied().find(|s| s.kind == SHT_SYMTAB)
}

/// The section with a number, or None.
fn section(sections: &[SectionHeader], number: u32) -> Option<SectionHeader>
    ensures { result ≡ slice_get sections.now number }
{
    sections.get(number as usize).copied()
}

/// The symbol table and its strings: the first section of type SHT_SYMTAB, and the section that its link names, if that
/// is of type SHT_STRTAB.
#[tactic(auto, unfolding(crate::specs::Symbols::tables_of))]
pub(crate) fn tables(sections: &[SectionHeader]) -> Option<(SectionHeader, SectionHeader)>
    ensures { result ≡ tables_of sections.now }
{
    let table = symbol_table(sections)?;
    let strings = section(sections, table.link)?;
    if strings.kind == SHT_STRTAB {
        Some((table, strings))
    } else {
        None
    }
}

/// The offsets of the zero bytes.
fn zeros(alloc: Global, strings: &[u8]) -> Result<Vec<u32>, AllocError>
    requires { length strings.now < 2 ^ 32 }
    ensures { IfOk result (λ v. v.items ≡ zeros_from 0 strings.now) }
{
    let mut zeros = Vec::new(alloc);
    for (at, b) in strings.iter().enumerate() {
        if *b == 0 {
            zeros.push(at as u32)?;
        }
    }
    Ok(zeros)
}

/// How many of the ascending offsets are below `at`.
fn zeros_below(zeros: &[u32], at: u32) -> usize
    requires { IsNonDecreasing zeros.now }
    ensures { result ≡ prefix_len (λ z. nat_lt z at) zeros.now }
{
    zeros.partition_point(|z| *z < at)
}

/// The first of the ascending offsets that is at least `at`, or `end` if there is none.
fn next_zero(zeros: &[u32], at: u32, end: usize) -> usize
    requires { IsNonDecreasing zeros.now }
    ensures { result ≡ next_zero at zeros.now end }
{
    let count = zeros_below(zeros, at);
    if count < zeros.len() {
        zeros[count] as usize
    } else {
        end
    }
}

/// The name at an offset of the strings: up to the next zero byte, or to the strings' end.
#[tactic(auto, using(crate::proofs::Names::names))]
fn name_at<'a>(strings: &'a [u8], zeros: &[u32], at: u32) -> &'a [u8]
    requires fits { length strings.now < 2 ^ 32 }
    requires zeros { zeros.now ≡ zeros_from 0 strings.now }
    ensures { result.now ≡ name_at strings.now at }
{
    let start = at as usize;
    if start >= strings.len() {
        return &strings[..0];
    }
    &strings[start..next_zero(zeros, at, strings.len())]
}

/// Reads the row at an offset of the table.
#[tactic(auto, unfolding(crate::specs::Symbols::symbol_at))]
fn symbol_at<'a>(table: &[u8], strings: &'a [u8], zeros: &[u32], at: usize) -> Symbol<'a>
    requires there { at + 16 ≤ length table.now }
    requires fits { length strings.now < 2 ^ 32 }
    requires zeros { zeros.now ≡ zeros_from 0 strings.now }
    ensures { result ≡ symbol_at table.now strings.now at }
{
    Symbol {
        name: name_at(strings, zeros, word(table, at)),
        value: word(table, at + 4),
        size: word(table, at + 8),
        info: table[at + 12],
        section: half(table, at + 14),
    }
}

/// Reads the rows of a table, 16 bytes each.
#[tactic(auto, using(crate::proofs::Listed::listed), unfolding(crate::specs::Symbols::symbols_of))]
pub(crate) fn read_symbols<'a>(
    alloc: Global,
    table: &[u8],
    strings: &'a [u8],
) -> Result<Vec<Symbol<'a>>, AllocError>
    requires { length strings.now < 2 ^ 32 }
    ensures { IfOk result (λ v. v.items ≡ symbols_of table.now strings.now) }
{
    let zeros = zeros(alloc, strings)?;
    let count = table.len() / SYMBOL_SIZE;
    let mut symbols = Vec::with_capacity(alloc, count)?;
    for i in 0..count {
        symbols.push(symbol_at(table, strings, &zeros, SYMBOL_SIZE * i))?;
    }
    Ok(symbols)
}
