//! Writes an image and checks that the file reads back (docs/rules/elf.md).
ghost use Rattle.elf_image.specs.declared.limits.TheConstants.{SEGMENT_LIMIT};
ghost use Rattle.std.specs.Prelude.{◌≡◌, ◌≢◌, ◌+◌, ◌*◌, ◌^◌, ◌<◌, ◌≤◌, ◌++◌, length, true, Option, Some, None, Ok, Err, IfOk, IfErr, IfSome, IfNone, IsOk, OnOk};
ghost use Rattle.elf_image.specs.Image.{image_of};
ghost use Rattle.elf_image.specs.declared.fault.ImageFault.TheVariants.{OutOfMemory};
ghost use Rattle.elf_write.specs.Layout.{wanted_rows, table_of, contents, program_rows, index_row, base_of, section_names, section_rows, plan_of, layout_of, file_end, write_result, is_read};

use crate::layout::{contents, file_place, program_rows, put_program, section_names, section_rows};
use crate::parts::ImageParts;
use crate::plan::{Plan, join, piece_places};
use crate::rows::{push_rows, strings_of, table_of};
use elf_image::format::{FILE_HEADER_SIZE, PROGRAM_HEADER_SIZE, PT_ARM_EXIDX, ProgramHeader};
use elf_image::limits::SEGMENT_LIMIT;
use elf_image::symbol::Symbol;
use elf_image::{ImageFault, read_image};
use std::alloc::{AllocError, Global};

/// The end of the program headers, as a file offset in bytes.
fn base_of(parts: &ImageParts) -> usize
    requires { length parts.now.segments ≤ SEGMENT_LIMIT }
    ensures { result ≡ base_of parts.now }
{
    let segments = parts.segments.as_slice().len();
    if parts.index.1 == 0 {
        FILE_HEADER_SIZE as usize + PROGRAM_HEADER_SIZE as usize * segments
    } else {
        FILE_HEADER_SIZE as usize + PROGRAM_HEADER_SIZE as usize * (segments + 1)
    }
}

/// The program headers; that of the index comes last.
fn programs(alloc: Global, base: usize, parts: &ImageParts) -> Result<Vec<u8>, AllocError>
    requires { base + length (contents base parts.now.segments) < 2 ^ 32 }
    ensures { IfOk result (λ v. v.items ≡ program_rows base parts.now.segments ++ index_row base parts.now) }
{
    let segments = parts.segments.as_slice();
    let (address, size) = parts.index;
    let mut out = program_rows(alloc, base, segments)?;
    if size != 0 {
        let place = file_place(address, size, base, segments);
        let header = ProgramHeader {
            kind: PT_ARM_EXIDX,
            offset: place,
            address,
            file_size: size,
            memory_size: size,
            flags: 4,
        };
        put_program(&mut out, &header)?;
    }
    Ok(out)
}

/// Reads the bytes back. Err if they are refused.
fn read_back(alloc: Global, bytes: &[u8]) -> Result<(), ImageFault>
    ensures accepted { IfOk result (λ _. is_read (image_of bytes.now) ≡ None) }
    ensures refused { IfErr result (λ fault. fault ≢ OutOfMemory → is_read (image_of bytes.now) ≡ Some fault) }
{
    let _image = read_image(alloc, bytes)?;
    Ok(())
}

/// The rows of all symbols, mapping symbols first.
#[derive(Drop)]
struct SymbolRows<'a> {
    rows: Vec<Symbol<'a>>,
    mapping: usize,
}

/// The rows of the symbols of these parts.
fn symbol_rows_of<'a>(alloc: Global, parts: &'a ImageParts) -> Result<SymbolRows<'a>, AllocError>
    requires { length parts.now.segments ≤ SEGMENT_LIMIT }
    ensures rows { IfOk result (λ all. all.rows.items ≡ table_of parts.now) }
    ensures mapping { IfOk result (λ all. all.mapping ≡ length (wanted_rows true parts.now.segments parts.now.symbols)) }
{
    let segments = parts.segments.as_slice();
    let symbols = parts.symbols.as_slice();
    let mut rows = Vec::new(alloc);
    push_rows(&mut rows, segments, symbols, true)?;
    let mapping = rows.len();
    push_rows(&mut rows, segments, symbols, false)?;
    Ok(SymbolRows { rows, mapping })
}

/// The pieces of a file that describe the symbols.
#[derive(Drop)]
struct SymbolPieces {
    table: Vec<u8>,
    locals: u32,
    strings: Vec<u8>,
}

/// The pieces that describe the symbols; None if the file would have 2^32 bytes or more.
#[tactic(auto, unfolding(crate::specs::Layout::plan_of))]
fn symbol_pieces(alloc: Global, parts: &ImageParts) -> Result<Option<SymbolPieces>, AllocError>
    requires { length parts.now.segments ≤ SEGMENT_LIMIT }
    ensures table { IfOk result (λ o. IfSome o (λ p. p.table.items ≡ (plan_of parts.now).table)) }
    ensures locals { IfOk result (λ o. IfSome o (λ p. p.locals ≡ (plan_of parts.now).locals)) }
    ensures strings { IfOk result (λ o. IfSome o (λ p. p.strings.items ≡ (plan_of parts.now).strings)) }
    ensures long { IfOk result (λ o. IfNone o (2 ^ 32 ≤ file_end (plan_of parts.now))) }
{
    let SymbolRows { rows, mapping } = symbol_rows_of(alloc, parts)?;
    if rows.len() >= 0x1000_0000 {
        return Ok(None);
    }
    let strings = strings_of(alloc, &rows)?;
    if strings.len() >= 0x1_0000_0000 {
        return Ok(None);
    }
    Ok(Some(SymbolPieces {
        table: table_of(alloc, &rows)?,
        locals: 1 + mapping as u32,
        strings,
    }))
}

/// The pieces of a file that describe the segments.
#[derive(Drop)]
struct SegmentPieces {
    programs: Vec<u8>,
    names: Vec<u8>,
    rows: Vec<u8>,
}

/// The pieces that describe the segments, whose bytes begin at the file offset `base`.
fn segment_pieces(
    alloc: Global,
    base: usize,
    parts: &ImageParts,
) -> Result<SegmentPieces, AllocError>
    requires fits { base + length (contents base parts.now.segments) < 2 ^ 32 }
    requires count { length parts.now.segments ≤ SEGMENT_LIMIT }
    ensures programs { IfOk result (λ p. p.programs.items ≡ program_rows base parts.now.segments ++ index_row base parts.now) }
    ensures names { IfOk result (λ p. p.names.items ≡ section_names parts.now.segments) }
    ensures rows { IfOk result (λ p. p.rows.items ≡ section_rows 0 1 base parts.now.segments) }
{
    let segments = parts.segments.as_slice();
    Ok(SegmentPieces {
        programs: programs(alloc, base, parts)?,
        names: section_names(alloc, segments)?,
        rows: section_rows(alloc, base, segments)?,
    })
}

/// The pieces of the file of these parts; None if it would have 2^32 bytes or more.
#[tactic(auto, unfolding(crate::specs::Layout::plan_of))]
fn plan_of(alloc: Global, parts: &ImageParts) -> Result<Option<Plan>, AllocError>
    requires { length parts.now.segments ≤ SEGMENT_LIMIT }
    ensures found { IfOk result (λ o. IfSome o (λ p. p ≡ plan_of parts.now)) }
    ensures programs { IfOk result (λ o. IfSome o (λ p. length p.programs < 2 ^ 20)) }
    ensures named { IfOk result (λ o. IfSome o (λ p. 26 ≤ length p.names)) }
    ensures segments { IfOk result (λ o. IfSome o (λ p. p.segment_total ≤ SEGMENT_LIMIT)) }
    ensures long { IfOk result (λ o. IfNone o (2 ^ 32 ≤ file_end (plan_of parts.now))) }
{
    let segments = parts.segments.as_slice();
    let base = base_of(parts);
    let contents = contents(alloc, base, segments)?;
    if base + contents.len() >= 0x1_0000_0000 {
        return Ok(None);
    }
    let Some(of_symbols) = symbol_pieces(alloc, parts)? else {
        return Ok(None);
    };
    let of_segments = segment_pieces(alloc, base, parts)?;
    Ok(Some(Plan {
        entry: parts.entry,
        programs: of_segments.programs,
        contents,
        table: of_symbols.table,
        locals: of_symbols.locals,
        strings: of_symbols.strings,
        names: of_segments.names,
        segment_rows: of_segments.rows,
        segment_total: segments.len() as u16,
    }))
}

/// Writes the ELF file of these parts (docs/rules/elf.md has its layout). TooLarge for more than 1,024 segments or a file of
/// 2^32 bytes or more. Err also if reading the file would refuse it, or if memory runs out.
#[tactic(auto, using(crate::proofs::Planning::writing))]
pub fn write_image(alloc: Global, parts: &ImageParts) -> Result<Vec<u8>, ImageFault>
    ensures written { IfOk result (λ bytes. write_result parts.now ≡ Ok bytes.items) }
    // Only OutOfMemory may come at any time.
    ensures refused { IfErr result (λ fault. fault ≢ OutOfMemory → write_result parts.now ≡ Err fault) }
{
    if parts.segments.as_slice().len() > SEGMENT_LIMIT {
        return Err(ImageFault::TooLarge);
    }
    let Some(plan) = plan_of(alloc, parts)? else {
        return Err(ImageFault::TooLarge);
    };
    let Some(at) = piece_places(&plan) else {
        return Err(ImageFault::TooLarge);
    };
    let bytes = join(alloc, &plan, at)?;
    read_back(alloc, &bytes)?;
    Ok(bytes)
}
