//! The pieces of a file: their offsets, and how they are joined (docs/rules/elf.md).
ghost use Rattle.std.specs.Prelude.{◌≡◌, ◌+◌, ◌-◌, ◌*◌, ◌/◌, ◌%◌, ◌^◌, ◌<◌, ◌≤◌, [], ◌∷◌, ◌++◌, length, OnOk, IfOk, IfSome, IfNone};
ghost use Rattle.elf_write.specs.Layout.{strings_row, Plan as Pieces, ArePlaces, word, half, padding, identity, header_sizes, file_header, sections_of, join_pieces, contents_end, table_at, strings_at, names_at, names_end, sections_at, file_end};
ghost use Rattle.elf_image.specs.declared.limits.TheConstants.{SEGMENT_LIMIT};

use crate::layout::{ABI_FLAGS, SectionRow, put_section};
use crate::rows::{put_half, put_padding, put_word};
use eh_word::bytes::push_zeros;
use elf_image::format::{
    EM_ARM, ET_EXEC, FILE_HEADER_SIZE, PROGRAM_HEADER_SIZE, SECTION_HEADER_SIZE, SHT_STRTAB,
    SHT_SYMTAB,
};
use elf_image::symbol::SYMBOL_SIZE;
use std::alloc::{AllocError, Global};
use std::marker::Model;

/// The pieces of a file, before they are joined.
#[derive(Drop)]
pub struct Plan {
    /// The address of the first instruction.
    pub(crate) entry: u32,
    /// The bytes of the program headers.
    pub(crate) programs: Vec<u8>,
    /// The bytes of the segments.
    pub(crate) contents: Vec<u8>,
    /// The bytes of the symbol table.
    pub(crate) table: Vec<u8>,
    /// The number of local symbols, the null symbol included.
    pub(crate) locals: u32,
    /// The bytes of the symbol strings.
    pub(crate) strings: Vec<u8>,
    /// The bytes of the section names.
    pub(crate) names: Vec<u8>,
    /// The bytes of the section headers of segments.
    pub(crate) segment_rows: Vec<u8>,
    /// The number of segments.
    pub(crate) segment_total: u16,
}

impl Model for Plan {
    ghost use Rattle.elf_write.specs.Layout.{Plan as Pieces};

    ghost Value = { Pieces };

    ghost view = { λ p. record {
      entry = p.entry;
      programs = p.programs.items;
      contents = p.contents.items;
      table = p.table.items;
      locals = p.locals;
      strings = p.strings.items;
      names = p.names.items;
      segment_rows = p.segment_rows.items;
      segment_total = p.segment_total;
    } };
}

/// The offsets in the file of the pieces after the segments, in bytes.
#[derive(Clone, Copy)]
pub struct Places {
    /// The offset of the symbol table.
    pub table: u32,
    /// The offset of the symbol strings.
    pub strings: u32,
    /// The offset of the section names.
    pub names: u32,
    /// The offset of the section headers.
    pub sections: u32,
}

/// The next multiple of 4.
fn align_to_word(n: u128) -> u128
    requires { n < 2 ^ 100 }
    ensures { result ≡ (n + 3) / 4 * 4 }
{
    (n + 3) / 4 * 4
}

/// The offsets of the pieces, or None if the file would have 2^32 bytes or more.
pub(crate) fn piece_places(p: &Plan) -> Option<Places>
    ensures long { IfNone result (2 ^ 32 ≤ file_end p.now) }
    ensures fits { IfSome result (λ at. file_end p.now < 2 ^ 32) }
    ensures places { IfSome result (ArePlaces p.now) }
{
    let table = align_to_word(52 + p.programs.len() as u128 + p.contents.len() as u128);
    let strings = table + p.table.len() as u128;
    let names = strings + p.strings.len() as u128;
    let sections = align_to_word(names + p.names.len() as u128);
    if sections + 40 * (u128::from(p.segment_total) + 4) >= 0x1_0000_0000 {
        return None;
    }
    Some(Places {
        table: table as u32,
        strings: strings as u32,
        names: names as u32,
        sections: sections as u32,
    })
}

/// Appends the identification of the file.
#[tactic(auto, using(std::proofs::lemmas::List::append_assoc), unfolding(crate::specs::Layout::identity))]
fn put_identity(out: &mut Vec<u8>) -> Result<(), AllocError>
    ensures { OnOk result (out.new.items ≡ out.old.items ++ identity) }
{
    out.extend_from_slice(b"\x7fELF\x01\x01\x01")?;
    push_zeros(out, 9)?;
    put_half(out, ET_EXEC)?;
    put_half(out, EM_ARM)?;
    put_word(out, 1)
}

/// Appends the sizes and counts of the headers.
#[tactic(auto, using(std::proofs::lemmas::List::append_assoc), unfolding(crate::specs::Layout::header_sizes))]
fn put_header_sizes(out: &mut Vec<u8>, p: &Plan) -> Result<(), AllocError>
    requires programs { length p.now.programs < 2 ^ 20 }
    requires segments { p.now.segment_total ≤ SEGMENT_LIMIT }
    ensures { OnOk result (out.new.items ≡ out.old.items ++ header_sizes p.now) }
{
    put_half(out, FILE_HEADER_SIZE as u16)?;
    put_half(out, PROGRAM_HEADER_SIZE as u16)?;
    put_half(
        out,
        (p.programs.len() / PROGRAM_HEADER_SIZE as usize) as u16,
    )?;
    put_half(out, SECTION_HEADER_SIZE as u16)?;
    put_half(out, p.segment_total + 4)?;
    put_half(out, p.segment_total + 3)
}

/// Appends the file header.
#[tactic(auto, using(std::proofs::lemmas::List::append_assoc), unfolding(crate::specs::Layout::file_header))]
fn put_file_header(out: &mut Vec<u8>, p: &Plan, at: Places) -> Result<(), AllocError>
    requires programs { length p.now.programs < 2 ^ 20 }
    requires segments { p.now.segment_total ≤ SEGMENT_LIMIT }
    requires places { ArePlaces p.now at }
    ensures { OnOk result (out.new.items ≡ out.old.items ++ file_header p.now) }
{
    put_identity(out)?;
    put_word(out, p.entry - p.entry % 2 + 1)?;
    put_word(out, FILE_HEADER_SIZE)?;
    put_word(out, at.sections)?;
    put_word(out, ABI_FLAGS)?;
    put_header_sizes(out, p)
}

/// The section header of a string table.
fn strings_row(name: u32, offset: u32, size: u32) -> SectionRow
    ensures { result ≡ strings_row name offset size }
{
    SectionRow {
        name,
        kind: SHT_STRTAB,
        flags: 0,
        address: 0,
        offset,
        size,
        link: 0,
        info: 0,
        entry_size: 0,
    }
}

/// Appends the section headers.
#[tactic(auto, using(std::proofs::lemmas::List::append_assoc), unfolding(crate::specs::Layout::sections_of))]
fn put_sections(out: &mut Vec<u8>, p: &Plan, at: Places) -> Result<(), AllocError>
    requires fits { file_end p.now < 2 ^ 32 }
    requires named { 26 ≤ length p.now.names }
    requires segments { p.now.segment_total ≤ SEGMENT_LIMIT }
    requires places { ArePlaces p.now at }
    ensures { OnOk result (out.new.items ≡ out.old.items ++ sections_of p.now) }
{
    let (table, strings, names) = (
        p.table.len() as u32,
        p.strings.len() as u32,
        p.names.len() as u32,
    );
    push_zeros(out, SECTION_HEADER_SIZE as usize)?;
    out.extend_from_slice(&p.segment_rows)?;
    let section = SectionRow {
        name: names - 26,
        kind: SHT_SYMTAB,
        flags: 0,
        address: 0,
        offset: at.table,
        size: table,
        link: u32::from(p.segment_total) + 2,
        info: p.locals,
        entry_size: SYMBOL_SIZE as u32,
    };
    put_section(out, &section)?;
    put_section(out, &strings_row(names - 18, at.strings, strings))?;
    put_section(out, &strings_row(names - 10, at.names, names))
}

/// Joins the pieces to the file.
#[tactic(auto, using(std::proofs::lemmas::List::append_assoc), unfolding(crate::specs::Layout::join_pieces))]
pub(crate) fn join(alloc: Global, p: &Plan, at: Places) -> Result<Vec<u8>, AllocError>
    requires fits { file_end p.now < 2 ^ 32 }
    requires programs { length p.now.programs < 2 ^ 20 }
    requires named { 26 ≤ length p.now.names }
    requires segments { p.now.segment_total ≤ SEGMENT_LIMIT }
    requires places { ArePlaces p.now at }
    ensures { IfOk result (λ v. v.items ≡ join_pieces p.now) }
{
    let mut out = Vec::new(alloc);
    put_file_header(&mut out, p, at)?;
    out.extend_from_slice(&p.programs)?;
    out.extend_from_slice(&p.contents)?;
    put_padding(&mut out, 52 + p.programs.len() + p.contents.len())?;
    out.extend_from_slice(&p.table)?;
    out.extend_from_slice(&p.strings)?;
    out.extend_from_slice(&p.names)?;
    put_padding(&mut out, at.names as usize + p.names.len())?;
    put_sections(&mut out, p, at)?;
    Ok(out)
}
