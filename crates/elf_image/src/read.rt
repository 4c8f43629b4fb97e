//! Reads an image: makes the tests in order and puts its parts together (docs/rules/elf.md).
ghost use Rattle.elf_image.specs.declared.limits.TheConstants.{MEMORY_LIMIT, SEGMENT_LIMIT};
ghost use Rattle.std.specs.Prelude.{◌≡◌, ◌≢◌, All, ◌+◌, ◌*◌, ◌^◌, ◌<◌, ◌≤◌, [], ◌∷◌, length, sum_by, Option, Some, None, Ok, Err, filter, IfOk, IfErr};
ghost use Rattle.elf_image.specs.Format.{missing, program_headers, program_offset, program_count, section_offset, section_count, section_headers, first_of};
ghost use Rattle.elf_image.specs.Segments.{RiseFrom, segment_refusal, segments_of, is_load};
ghost use Rattle.elf_image.specs.Index.{is_index, index_refusal, index_of};
ghost use Rattle.elf_image.specs.Symbols.{HasPlainName, tables_of, tables_refusal, symbol_count, symbols_of};
ghost use Rattle.elf_image.specs.Functions.{functions_of};
ghost use Rattle.elf_image.specs.Image.{Image as Parts, IndexStands, image_with, image_of, size_refusal, count_refusal, entry_refusal, build_refusal, file_tables, file_table, strings_in, file_symbols};
ghost use Rattle.elf_image.specs.declared.fault.ImageFault.TheVariants.{OutOfMemory};

use crate::fault::ImageFault;
use crate::format::{ProgramHeader, file_header, missing, program_headers, section_headers};
use crate::function::read_functions;
use crate::header::{header_refusal, table_refusal};
use crate::image::Image;
use crate::index::{index_headers, index_of};
use crate::limits::{FUNCTION_LIMIT, entry_refusal, is_too_large};
use crate::mark::read_marks;
use crate::named::{read_named, type_symbols};
use crate::segment::{Segment, loads, part, segments_of};
use crate::symbol::{SYMBOL_SIZE, Symbol, read_symbols, tables};
use std::alloc::Global;

/// Reads the loaded segments.
fn read_segments<'a>(
    alloc: Global,
    bytes: &'a [u8],
    headers: &[ProgramHeader],
) -> Result<Vec<Segment<'a>>, ImageFault>
    ensures accepted { IfOk result (λ v. segment_refusal bytes.now (filter is_load headers.now) ≡ None) }
    ensures segments { IfOk result (λ v. v.items ≡ segments_of bytes.now (filter is_load headers.now)) }
    ensures rise { IfOk result (λ v. RiseFrom 0 v.items) }
    ensures refused { IfErr result (λ fault. fault ≢ OutOfMemory → segment_refusal bytes.now (filter is_load headers.now) ≡ Some fault) }
{
    let loads = loads(alloc, headers)?;
    segments_of(alloc, bytes, &loads)
}

/// Reads the address and the bytes of the exception index.
fn read_index<'a>(
    alloc: Global,
    headers: &[ProgramHeader],
    segments: &[Segment<'a>],
) -> Result<(u32, &'a [u8]), ImageFault>
    ensures accepted { IfOk result (λ i. index_refusal (filter is_index headers.now) segments.now ≡ None) }
    ensures index { IfOk result (λ i. (i.0, i.1.now) ≡ index_of (filter is_index headers.now) segments.now) }
    ensures refused { IfErr result (λ fault. fault ≢ OutOfMemory → index_refusal (filter is_index headers.now) segments.now ≡ Some fault) }
{
    let indexes = index_headers(alloc, headers)?;
    index_of(&indexes, segments)
}

/// Finds the bytes of the symbol table and of its strings.
#[tactic(auto, unfolding(crate::specs::Symbols::tables_refusal))]
fn read_tables<'a>(alloc: Global, bytes: &'a [u8]) -> Result<(&'a [u8], &'a [u8]), ImageFault>
    requires whole { 52 ≤ length bytes.now }
    requires there { missing bytes.now (section_offset bytes.now) (40 * section_count bytes.now) ≡ None }
    ensures accepted { IfOk result (λ t. tables_refusal bytes.now (file_tables bytes.now) ≡ None) }
    ensures table { IfOk result (λ t. t.0.now ≡ file_table bytes.now) }
    ensures strings { IfOk result (λ t. t.1.now ≡ strings_in bytes.now (file_tables bytes.now)) }
    ensures fits { IfOk result (λ t. length t.1.now < 2 ^ 32) }
    ensures refused { IfErr result (λ fault. fault ≢ OutOfMemory → tables_refusal bytes.now (file_tables bytes.now) ≡ Some fault) }
{
    let sections = section_headers(alloc, bytes)?;
    let Some((table, strings)) = tables(&sections) else {
        return Err(ImageFault::NoSymbols);
    };
    if let Some(fault) = missing(bytes, u64::from(table.offset), u64::from(table.size)) {
        return Err(fault);
    }
    if let Some(fault) = missing(bytes, u64::from(strings.offset), u64::from(strings.size)) {
        return Err(fault);
    }
    Ok((
        part(bytes, table.offset, table.size),
        part(bytes, strings.offset, strings.size),
    ))
}

/// Makes the image of these segments and symbols. Err if there are too many functions or the entry is refused.
#[tactic(auto, using(crate::proofs::Building::building), unfolding(crate::specs::Image::count_refusal, crate::specs::Image::image_with))]
fn build<'a>(
    alloc: Global,
    field: u32,
    segments: Vec<Segment<'a>>,
    index: (u32, &'a [u8]),
    symbols: &[Symbol<'a>],
) -> Result<Image<'a>, ImageFault>
    requires rise { RiseFrom 0 segments.items }
    requires memory { sum_by (λ s. s.size) segments.items ≤ MEMORY_LIMIT }
    requires count { length segments.items ≤ SEGMENT_LIMIT }
    requires index { IndexStands segments.items index.0 index.1.now }
    requires plain { All HasPlainName symbols.now }
    ensures accepted { IfOk result (λ image. build_refusal field (functions_of segments.entry.items symbols.now) ≡ None) }
    ensures image { IfOk result (λ image. image ≡ image_with field segments.entry.items (index.entry.0, index.entry.1.now) symbols.now) }
    ensures refused { IfErr result (λ fault. fault ≢ OutOfMemory → build_refusal field (functions_of segments.entry.items symbols.now) ≡ Some fault) }
{
    let functions = read_functions(alloc, &segments, symbols)?;
    if functions.len() > FUNCTION_LIMIT {
        return Err(ImageFault::TooLarge);
    }
    if let Some(fault) = entry_refusal(field, &functions) {
        return Err(fault);
    }
    let marks = read_marks(alloc, symbols)?;
    let symbols = read_named(alloc, &segments, symbols)?;
    let type_symbols = type_symbols(alloc, &symbols)?;
    let (index_start, index_bytes) = index;
    Ok(Image {
        entry: field - 1,
        segments,
        functions,
        marks,
        symbols,
        type_symbols,
        index_start,
        index_bytes,
    })
}

/// Reads the image of an ELF file ("ELF for the Arm Architecture"). Err with the first test that fails (docs/rules/elf.md has
/// their order), or if memory runs out. The number in `Truncated` is a file length in bytes, computed without wrapping.
pub fn read_image<'a>(alloc: Global, bytes: &'a [u8]) -> Result<Image<'a>, ImageFault>
    ensures image { IfOk result (λ image. image_of bytes.now ≡ Ok image) }
    // Only OutOfMemory may come at any time.
    ensures refused { IfErr result (λ fault. fault ≢ OutOfMemory → image_of bytes.now ≡ Err fault) }
{
    if let Some(fault) = header_refusal(bytes) {
        return Err(fault);
    }
    if let Some(fault) = table_refusal(bytes) {
        return Err(fault);
    }
    let headers = program_headers(alloc, bytes)?;
    let segments = read_segments(alloc, bytes, &headers)?;
    let index = read_index(alloc, &headers, &segments)?;
    let (table, strings) = read_tables(alloc, bytes)?;
    if is_too_large(&segments, table.len() / SYMBOL_SIZE) {
        return Err(ImageFault::TooLarge);
    }
    let symbols = read_symbols(alloc, table, strings)?;
    build(alloc, file_header(bytes).entry, segments, index, &symbols)
}
