//! The tests of the headers, which come before those of the segments (docs/rules/elf.md).
ghost use Rattle.std.specs.Prelude.{◌≡◌, ◌+◌, ◌*◌, ◌≤◌, ◌==◌, not, ◌&&◌, ◌||◌, length, slice_index, None};
ghost use Rattle.elf_image.specs.declared.format.TheConstants.{PROGRAM_HEADER_SIZE, SECTION_HEADER_SIZE};
ghost use Rattle.elf_image.specs.Header.{header_refusal, table_refusal};

use crate::fault::ImageFault;
use crate::format::{
    EABI_VERSION, EM_ARM, ET_EXEC, FILE_HEADER_SIZE, FileHeader, PROGRAM_HEADER_SIZE,
    SECTION_HEADER_SIZE, file_header, missing,
};

/// Whether the file begins with the ELF magic.
fn is_elf(bytes: &[u8]) -> bool
    requires { 52 ≤ length bytes.now }
    ensures { result ≡ (slice_index bytes.now 0 == 0x7f && slice_index bytes.now 1 == 0x45 && slice_index bytes.now 2 == 0x4c && slice_index bytes.now 3 == 0x46) }
{
    bytes[0] == 0x7f && bytes[1] == 0x45 && bytes[2] == 0x4c && bytes[3] == 0x46
}

/// Whether the file is of class 32, little-endian and version 1.
fn is_little_32(bytes: &[u8]) -> bool
    requires { 52 ≤ length bytes.now }
    ensures { result ≡ (slice_index bytes.now 4 == 1 && slice_index bytes.now 5 == 1 && slice_index bytes.now 6 == 1) }
{
    bytes[4] == 1 && bytes[5] == 1 && bytes[6] == 1
}

/// The first refusal of the file header, if any.
#[tactic(auto, unfolding(crate::specs::Header::header_refusal))]
pub(crate) fn header_refusal(bytes: &[u8]) -> Option<ImageFault>
    ensures refusal { result ≡ header_refusal bytes.now }
    ensures whole { result ≡ None → 52 ≤ length bytes.now }
{
    if bytes.len() < FILE_HEADER_SIZE as usize {
        return Some(ImageFault::Truncated(u64::from(FILE_HEADER_SIZE)));
    }
    if !is_elf(bytes) {
        return Some(ImageFault::NotElf);
    }
    if !is_little_32(bytes) {
        return Some(ImageFault::Class);
    }
    let header = file_header(bytes);
    if header.machine != EM_ARM {
        return Some(ImageFault::Machine);
    }
    if header.abi_version != EABI_VERSION {
        return Some(ImageFault::Version);
    }
    if header.kind != ET_EXEC {
        return Some(ImageFault::Type);
    }
    None
}

/// Whether there are headers of another size than expected.
fn has_other_sizes(header: &FileHeader) -> bool
    ensures { result ≡ ((not (header.now.program_count == 0) && not (header.now.program_size == PROGRAM_HEADER_SIZE)) || (not (header.now.section_count == 0) && not (header.now.section_size == SECTION_HEADER_SIZE))) }
{
    (header.program_count != 0 && u32::from(header.program_size) != PROGRAM_HEADER_SIZE)
        || (header.section_count != 0 && u32::from(header.section_size) != SECTION_HEADER_SIZE)
}

/// The first refusal of the tables of program and section headers, if any.
#[tactic(auto, unfolding(crate::specs::Header::table_refusal))]
pub(crate) fn table_refusal(bytes: &[u8]) -> Option<ImageFault>
    requires { 52 ≤ length bytes.now }
    ensures { result ≡ table_refusal bytes.now }
{
    let header = file_header(bytes);
    if has_other_sizes(&header) {
        return Some(ImageFault::EntrySize);
    }
    let size = u64::from(PROGRAM_HEADER_SIZE) * u64::from(header.program_count);
    if let Some(fault) = missing(bytes, u64::from(header.program_offset), size) {
        return Some(fault);
    }
    let size = u64::from(SECTION_HEADER_SIZE) * u64::from(header.section_count);
    missing(bytes, u64::from(header.section_offset), size)
}
