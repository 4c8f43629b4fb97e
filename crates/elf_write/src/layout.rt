//! The bytes of segments, and their program and section headers (docs/rules/elf.md).
ghost use Rattle.std.specs.Prelude.{◌≡◌, ◌+◌, ◌-◌, ◌*◌, ◌^◌, ◌<◌, ◌≤◌, [], ◌∷◌, ◌++◌, length, nat_le, ◌&&◌, OnOk, IfOk};
ghost use Rattle.elf_write.specs.Layout.{load_header, segment_row, word, half, align_to_word, padding, bit, contents, program_bytes, program_rows, file_place, decimal, segment_name, segment_names, last_names, section_names, section_bytes, section_rows};
ghost use Rattle.elf_image.specs.declared.limits.TheConstants.{SEGMENT_LIMIT};

use crate::parts::OwnSegment;
use crate::rows::{align_to_word, put_padding, put_word};
use elf_image::format::{PT_LOAD, ProgramHeader};
use std::alloc::{AllocError, Global};

/// The type of a section with contents of the program (`sh_type`).
pub const SHT_PROGBITS: u32 = 1;
/// The section number of a value in no section.
pub const SHN_ABS: u16 = 0xfff1;
/// The flags of the file header: EABI version 5.
pub const ABI_FLAGS: u32 = 0x0500_0000;

/// A section header to write.
#[derive(Clone, Copy)]
pub struct SectionRow {
    /// The offset in bytes of its name in the section names.
    pub name: u32,
    /// The type (`sh_type`).
    pub kind: u32,
    /// The flags (`sh_flags`).
    pub flags: u32,
    /// The address in memory (`sh_addr`).
    pub address: u32,
    /// The offset in bytes of its contents in the file.
    pub offset: u32,
    /// The size of its contents in bytes.
    pub size: u32,
    /// The number of a linked section (`sh_link`).
    pub link: u32,
    /// Further information by type (`sh_info`).
    pub info: u32,
    /// The size of one entry in bytes; 0 if it has no entries.
    pub entry_size: u32,
}

/// The bytes of the segments, each at the next multiple of 4, from the file offset `base` on.
#[tactic(auto, using(crate::proofs::Layouts::next_at, crate::proofs::Layouts::contents_more, std::proofs::lemmas::List::append_assoc))]
pub(crate) fn contents(
    alloc: Global,
    base: usize,
    segments: &[OwnSegment],
) -> Result<Vec<u8>, AllocError>
    requires { base < 2 ^ 32 }
    ensures { IfOk result (λ v. v.items ≡ contents base segments.now) }
{
    let mut out = Vec::new(alloc);
    for s in segments {
        let at = base + out.len();
        put_padding(&mut out, at)?;
        out.extend_from_slice(s.bytes.as_slice())?;
    }
    Ok(out)
}

/// The bit `n` if `holds`, else 0.
fn bit(holds: bool, n: u32) -> u32
    ensures { result ≡ bit holds n }
{
    if holds { n } else { 0 }
}

/// Appends a program header. The physical address is the address, the alignment is 4.
#[tactic(auto, using(std::proofs::lemmas::List::append_assoc), unfolding(crate::specs::Layout::program_bytes))]
pub(crate) fn put_program(out: &mut Vec<u8>, h: &ProgramHeader) -> Result<(), AllocError>
    ensures { OnOk result (out.new.items ≡ out.old.items ++ program_bytes h.now) }
{
    put_word(out, h.kind)?;
    put_word(out, h.offset)?;
    put_word(out, h.address)?;
    put_word(out, h.address)?;
    put_word(out, h.file_size)?;
    put_word(out, h.memory_size)?;
    put_word(out, h.flags)?;
    put_word(out, 4)
}

/// The program header of a segment whose bytes are at a file offset.
fn load_header(at: usize, s: &OwnSegment) -> ProgramHeader
    requires at { at < 2 ^ 32 }
    requires fits { length s.now.bytes < 2 ^ 32 }
    ensures { result ≡ load_header at s.now }
{
    ProgramHeader {
        kind: PT_LOAD,
        offset: at as u32,
        address: s.start,
        file_size: s.bytes.len() as u32,
        memory_size: s.size,
        flags: 4 + bit(s.write, 2) + bit(s.exec, 1),
    }
}

/// The program headers of the segments, whose bytes begin at the file offset `base`.
#[tactic(auto, using(crate::proofs::Layouts::contents_length))]
pub(crate) fn program_rows(
    alloc: Global,
    base: usize,
    segments: &[OwnSegment],
) -> Result<Vec<u8>, AllocError>
    requires { base + length (contents base segments.now) < 2 ^ 32 }
    ensures { IfOk result (λ v. v.items ≡ program_rows base segments.now) }
{
    let mut out = Vec::new(alloc);
    let mut end = base;
    for s in segments {
        let at = align_to_word(end);
        let size = s.bytes.as_slice().len();
        put_program(&mut out, &load_header(at, s))?;
        end = at + size;
    }
    Ok(out)
}

/// Whether the bytes of a segment contain a whole range of addresses.
fn holds_range(s: &OwnSegment, address: u32, size: u32) -> bool
    ensures { result ≡ (nat_le s.now.start address && nat_le (address + size) (s.now.start + length s.now.bytes)) }
{
    s.start <= address
        && u64::from(address) + u64::from(size)
            <= u64::from(s.start) + s.bytes.as_slice().len() as u64
}

/// The file offset of a range of addresses, in the first segment whose bytes contain it all.
#[tactic(auto, using(crate::proofs::Layouts::contents_length, crate::proofs::Layouts::place_more))]
pub(crate) fn file_place(address: u32, size: u32, base: usize, segments: &[OwnSegment]) -> u32
    requires { base + length (contents base segments.now) < 2 ^ 32 }
    ensures { result ≡ file_place address size base segments.now }
{
    let mut end = base;
    for s in segments {
        let at = align_to_word(end);
        let len = s.bytes.as_slice().len();
        if holds_range(s, address, size) {
            return at as u32 + (address - s.start);
        }
        end = at + len;
    }
    0
}

/// Appends the decimal digits of a number below 10,000.
#[tactic(auto, using(std::proofs::lemmas::List::append_assoc), unfolding(crate::specs::Layout::decimal))]
fn put_decimal(out: &mut Vec<u8>, n: u32) -> Result<(), AllocError>
    requires { n < 10000 }
    ensures { OnOk result (out.new.items ≡ out.old.items ++ decimal n) }
{
    if n >= 1000 {
        out.push(b'0' + (n / 1000 % 10) as u8)?;
    }
    if n >= 100 {
        out.push(b'0' + (n / 100 % 10) as u8)?;
    }
    if n >= 10 {
        out.push(b'0' + (n / 10 % 10) as u8)?;
    }
    out.push(b'0' + (n % 10) as u8)?;
    Ok(())
}

/// Appends the name of the section of segment `i`.
#[tactic(auto, using(std::proofs::lemmas::List::append_assoc), unfolding(crate::specs::Layout::segment_name))]
fn put_segment_name(out: &mut Vec<u8>, i: u32) -> Result<(), AllocError>
    requires { i < 10000 }
    ensures { OnOk result (out.new.items ≡ out.old.items ++ segment_name i) }
{
    out.extend_from_slice(b".seg")?;
    put_decimal(out, i)?;
    out.push(0)?;
    Ok(())
}

/// Appends the names of the sections after those of the segments.
#[tactic(auto, unfolding(crate::specs::Layout::last_names))]
fn put_last_names(out: &mut Vec<u8>) -> Result<(), AllocError>
    ensures { OnOk result (out.new.items ≡ out.old.items ++ last_names) }
{
    out.extend_from_slice(b".symtab\0.strtab\0.shstrtab\0")
}

/// The section names: a zero byte, then each name with a closing zero byte.
pub(crate) fn section_names(alloc: Global, segments: &[OwnSegment]) -> Result<Vec<u8>, AllocError>
    requires { length segments.now ≤ SEGMENT_LIMIT }
    ensures { IfOk result (λ v. v.items ≡ section_names segments.now) }
{
    let mut out = Vec::new(alloc);
    out.push(0)?;
    let mut i = 0;
    for _s in segments {
        put_segment_name(&mut out, i)?;
        i += 1;
    }
    put_last_names(&mut out)?;
    Ok(out)
}

/// Appends a section header. The alignment is 4.
#[tactic(auto, using(std::proofs::lemmas::List::append_assoc), unfolding(crate::specs::Layout::section_bytes))]
pub(crate) fn put_section(out: &mut Vec<u8>, s: &SectionRow) -> Result<(), AllocError>
    ensures { OnOk result (out.new.items ≡ out.old.items ++ section_bytes s.now) }
{
    put_word(out, s.name)?;
    put_word(out, s.kind)?;
    put_word(out, s.flags)?;
    put_word(out, s.address)?;
    put_word(out, s.offset)?;
    put_word(out, s.size)?;
    put_word(out, s.link)?;
    put_word(out, s.info)?;
    put_word(out, 4)?;
    put_word(out, s.entry_size)
}

/// The section header of a segment whose bytes are at a file offset.
fn segment_row(name: u32, at: usize, s: &OwnSegment) -> SectionRow
    requires at { at < 2 ^ 32 }
    requires fits { length s.now.bytes < 2 ^ 32 }
    ensures { result ≡ segment_row name at s.now }
{
    SectionRow {
        name,
        kind: SHT_PROGBITS,
        flags: 2 + bit(s.write, 1) + bit(s.exec, 4),
        address: s.start,
        offset: at as u32,
        size: s.bytes.len() as u32,
        link: 0,
        info: 0,
        entry_size: 0,
    }
}

/// The length in bytes of the name of a segment's section, with its closing zero byte.
#[tactic(auto, unfolding(crate::specs::Layout::segment_name, crate::specs::Layout::decimal))]
fn segment_name_len(i: u32) -> u32
    requires { i < 10000 }
    ensures len { result ≡ length (segment_name i) }
    ensures short { result ≤ 9 }
{
    if i < 10 {
        6
    } else if i < 100 {
        7
    } else if i < 1000 {
        8
    } else {
        9
    }
}

/// The section headers of the segments, whose bytes begin at the file offset `base`.
#[tactic(auto, using(crate::proofs::Layouts::contents_length))]
pub(crate) fn section_rows(
    alloc: Global,
    base: usize,
    segments: &[OwnSegment],
) -> Result<Vec<u8>, AllocError>
    requires fits { base + length (contents base segments.now) < 2 ^ 32 }
    requires count { length segments.now ≤ SEGMENT_LIMIT }
    ensures { IfOk result (λ v. v.items ≡ section_rows 0 1 base segments.now) }
{
    let mut out = Vec::new(alloc);
    let mut end = base;
    let mut name = 1;
    let mut i = 0;
    for s in segments {
        let at = align_to_word(end);
        let size = s.bytes.as_slice().len();
        put_section(&mut out, &segment_row(name, at, s))?;
        name += segment_name_len(i);
        end = at + size;
        i += 1;
    }
    Ok(out)
}
