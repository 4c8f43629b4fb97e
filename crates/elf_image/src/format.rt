//! The headers of an ELF file, field by field, and their constants ("Tool Interface Standard: ELF"; IHI 0044;
//! docs/rules/elf.md).
ghost use Rattle.std.specs.Prelude.{◌≡◌, ◌+◌, ◌*◌, ◌^◌, ◌<◌, ◌≤◌, length, IfOk, Some, None};
ghost use Rattle.elf_image.specs.Format.{file_header, field, missing, program_header, section_header, program_headers, section_headers, program_offset, program_count, section_offset, section_count};

use crate::fault::ImageFault;
use byteorder::{ByteOrder, LittleEndian};
use std::alloc::{AllocError, Global};

/// The size of the file header in bytes.
pub const FILE_HEADER_SIZE: u32 = 52;
/// The size of a program header in bytes.
pub const PROGRAM_HEADER_SIZE: u32 = 32;
/// The size of a section header in bytes.
pub const SECTION_HEADER_SIZE: u32 = 40;
/// `e_type` of an executable file.
pub const ET_EXEC: u16 = 2;
/// `e_machine` of Arm.
pub const EM_ARM: u16 = 40;
/// The EABI version in the top byte of `e_flags`.
pub const EABI_VERSION: u8 = 5;
/// The type of a loaded segment.
pub const PT_LOAD: u32 = 1;
/// The type of the segment of the exception index.
pub const PT_ARM_EXIDX: u32 = 0x7000_0001;
/// The type of a symbol table.
pub const SHT_SYMTAB: u32 = 2;
/// The type of a string table.
pub const SHT_STRTAB: u32 = 3;

/// The fields of the file header that are read.
#[derive(Clone, Copy)]
pub struct FileHeader {
    /// The kind of file (`e_type`).
    pub kind: u16,
    /// The machine (`e_machine`).
    pub machine: u16,
    /// The entry (`e_entry`): an address, bit 0 set for Thumb code.
    pub entry: u32,
    /// The offset in bytes of the program headers in the file (`e_phoff`).
    pub program_offset: u32,
    /// The offset in bytes of the section headers in the file (`e_shoff`).
    pub section_offset: u32,
    /// The EABI version: the top byte of `e_flags`.
    pub abi_version: u8,
    /// The size in bytes of a program header (`e_phentsize`).
    pub program_size: u16,
    /// The number of program headers (`e_phnum`).
    pub program_count: u16,
    /// The size in bytes of a section header (`e_shentsize`).
    pub section_size: u16,
    /// The number of section headers (`e_shnum`).
    pub section_count: u16,
}

/// The fields of a program header that are read.
#[derive(Clone, Copy)]
pub struct ProgramHeader {
    /// The type (`p_type`).
    pub kind: u32,
    /// The offset in bytes of its contents in the file (`p_offset`).
    pub offset: u32,
    /// The address in memory (`p_vaddr`).
    pub address: u32,
    /// The number of bytes in the file (`p_filesz`).
    pub file_size: u32,
    /// The number of bytes in memory (`p_memsz`).
    pub memory_size: u32,
    /// The access rights (`p_flags`).
    pub flags: u32,
}

/// The fields of a section header that are read.
#[derive(Clone, Copy)]
pub struct SectionHeader {
    /// The type (`sh_type`).
    pub kind: u32,
    /// The offset in bytes of its contents in the file (`sh_offset`).
    pub offset: u32,
    /// The size of its contents in bytes (`sh_size`).
    pub size: u32,
    /// The number of a linked section (`sh_link`).
    pub link: u32,
}

/// The 32-bit word at an offset.
pub(crate) fn word(bytes: &[u8], at: usize) -> u32
    requires { at + 4 ≤ length bytes.now }
    ensures { result ≡ field 4 bytes.now at }
{
    LittleEndian::read_u32(&bytes[at..])
}

/// The 16-bit halfword at an offset.
pub(crate) fn half(bytes: &[u8], at: usize) -> u16
    requires { at + 2 ≤ length bytes.now }
    ensures { result ≡ field 2 bytes.now at }
{
    LittleEndian::read_u16(&bytes[at..])
}

/// Truncated if the file doesn't hold all of the `size` bytes at `at`, else None.
pub(crate) fn missing(bytes: &[u8], at: u64, size: u64) -> Option<ImageFault>
    requires at_fits { at + size < 2 ^ 64 }
    ensures { result ≡ missing bytes.now at size }
{
    if size != 0 && (bytes.len() as u64) < at + size {
        Some(ImageFault::Truncated(at + size))
    } else {
        None
    }
}

/// Reads the file header; its bytes must be there.
pub(crate) fn file_header(bytes: &[u8]) -> FileHeader
    requires { 52 ≤ length bytes.now }
    ensures { result ≡ file_header bytes.now }
{
    FileHeader {
        kind: half(bytes, 16),
        machine: half(bytes, 18),
        entry: word(bytes, 24),
        program_offset: word(bytes, 28),
        section_offset: word(bytes, 32),
        abi_version: bytes[39],
        program_size: half(bytes, 42),
        program_count: half(bytes, 44),
        section_size: half(bytes, 46),
        section_count: half(bytes, 48),
    }
}

/// Reads the program header at an offset.
#[tactic(auto, unfolding(crate::specs::Format::program_header))]
fn program_header(bytes: &[u8], at: usize) -> ProgramHeader
    requires { at + 32 ≤ length bytes.now }
    ensures { result ≡ program_header bytes.now at }
{
    ProgramHeader {
        kind: word(bytes, at),
        offset: word(bytes, at + 4),
        address: word(bytes, at + 8),
        file_size: word(bytes, at + 16),
        memory_size: word(bytes, at + 20),
        flags: word(bytes, at + 24),
    }
}

/// Reads the section header at an offset.
#[tactic(auto, unfolding(crate::specs::Format::section_header))]
fn section_header(bytes: &[u8], at: usize) -> SectionHeader
    requires { at + 40 ≤ length bytes.now }
    ensures { result ≡ section_header bytes.now at }
{
    SectionHeader {
        kind: word(bytes, at + 4),
        offset: word(bytes, at + 16),
        size: word(bytes, at + 20),
        link: word(bytes, at + 24),
    }
}

/// Reads the program headers, 32 bytes each.
pub(crate) fn program_headers(alloc: Global, bytes: &[u8]) -> Result<Vec<ProgramHeader>, AllocError>
    requires whole { 52 ≤ length bytes.now }
    requires there { missing bytes.now (program_offset bytes.now) (32 * program_count bytes.now) ≡ None }
    ensures { IfOk result (λ headers. headers.items ≡ program_headers bytes.now) }
{
    let header = file_header(bytes);
    let start = header.program_offset as usize;
    let count = usize::from(header.program_count);
    let mut headers = Vec::with_capacity(alloc, count)?;
    for i in 0..count {
        headers.push(program_header(bytes, start + PROGRAM_HEADER_SIZE as usize * i))?;
    }
    Ok(headers)
}

/// Reads the section headers, 40 bytes each.
pub(crate) fn section_headers(alloc: Global, bytes: &[u8]) -> Result<Vec<SectionHeader>, AllocError>
    requires whole { 52 ≤ length bytes.now }
    requires there { missing bytes.now (section_offset bytes.now) (40 * section_count bytes.now) ≡ None }
    ensures { IfOk result (λ headers. headers.items ≡ section_headers bytes.now) }
{
    let header = file_header(bytes);
    let start = header.section_offset as usize;
    let count = usize::from(header.section_count);
    let mut headers = Vec::with_capacity(alloc, count)?;
    for i in 0..count {
        headers.push(section_header(bytes, start + SECTION_HEADER_SIZE as usize * i))?;
    }
    Ok(headers)
}
