//! Turns an image with GNU's C++ tables into the parts of one with compact tables. docs/rules/gnu-tables.md states the rules.
ghost use Rattle.std.specs.Prelude.{◌≡◌, ◌≢◌, ◌+◌, ◌*◌, ◌≤◌, ◌++◌, nat_lt, None, Some, IfOk, IfErr, length, true, false};
ghost use Rattle.std.specs.List.Sorted.{IsStrictlySortedBy};
ghost use Rattle.std.specs.Ordering.{nat_cmp};
ghost use Rattle.std.specs.Map.{keys_of};
ghost use Rattle.gnu_index.specs.declared.refusal.GnuFault.TheVariants.{OutOfMemory, TooLarge};
ghost use Rattle.eh_codes.specs.Rows.{rows_bytes};
ghost use Rattle.eh_codes.specs.declared.row.TheConstants.{ROW_SIZE};
ghost use Rattle.elf_image.specs.declared.limits.TheConstants.{MEMORY_LIMIT};
ghost use Rattle.gnu_rewrite.specs.Segments.{rows_start, segments_of, index_at};
ghost use Rattle.gnu_rewrite.specs.Symbols.{symbols_of};
ghost use Rattle.gnu_rewrite.specs.Sizes.{names_size, is_too_large};
ghost use Rattle.gnu_rewrite.specs.Parts.{parts_with, new_tables, new_parts};
ghost use Rattle.gnu_rewrite.specs.Refusal.{passes_limits, translation_refusal, rewrite_refusal};

use crate::limits::is_too_large;
use crate::marks::marks_of;
use crate::segments::{segments_with, tables_start};
use crate::symbols::{count, names, push_kept_symbols, push_others};
use eh_codes::row::{ROW_SIZE, push_rows};
use eh_index::Index;
use elf_image::Image;
use elf_image::limits::MEMORY_LIMIT;
use elf_write::parts::{ImageParts, OwnSegment, OwnSegments, OwnSymbol, OwnSymbols};
use gnu_index::{
    GnuFault, RefusedEntry, RewrittenTables, rewrite_rows, rewritten_within_limit, rows_refusal,
};
use std::alloc::{AllocError, Global};

/// An image whose generic entries were rewritten as compact tables.
#[derive(Drop)]
pub struct GnuImage {
    /// The parts of the new image, ready to be written.
    pub parts: ImageParts,
    /// The address of each new catch's descriptor with its filter, in ascending order of addresses.
    pub filters: Vec<(u32, u32)>,
}

/// Whether tables and rows together have more bytes than an image may have.
fn is_too_long(tables: &RewrittenTables) -> bool
    ensures { result ≡ nat_lt MEMORY_LIMIT (length tables.now.bytes + ROW_SIZE * length tables.now.rows) }
{
    let rows = u128::from(ROW_SIZE) * tables.rows.len() as u128;
    tables.bytes.len() as u128 + rows > u128::from(MEMORY_LIMIT)
}

/// The address of the index table's rows, after the tables.
fn rows_start(image: &Image, tables: &RewrittenTables) -> u32
    ensures { result ≡ rows_start image.now tables.now }
{
    tables_start(image).wrapping_add((tables.bytes.len() % 0x1_0000_0000) as u32)
}

/// The bytes of the new segment: the tables, and then the rows, at address `place`.
fn new_bytes(alloc: Global, tables: &RewrittenTables, place: u32) -> Result<Vec<u8>, AllocError>
    ensures { IfOk result (λ v. v.items ≡ tables.now.bytes ++ rows_bytes place tables.now.rows) }
{
    let mut bytes = Vec::from_slice(alloc, &tables.bytes)?;
    push_rows(&mut bytes, place, &tables.rows)?;
    Ok(bytes)
}

/// The segments of the rewritten image.
#[tactic(auto, using(crate::proofs::Making::rows_length))]
fn segments_of(
    alloc: Global,
    image: &Image,
    tables: &RewrittenTables,
) -> Result<Vec<OwnSegment>, AllocError>
    requires { length tables.now.bytes + ROW_SIZE * length tables.now.rows ≤ MEMORY_LIMIT }
    ensures { IfOk result (λ v. v.items ≡ segments_of image.now tables.now) }
{
    let bytes = new_bytes(alloc, tables, rows_start(image, tables))?;
    segments_with(alloc, image, tables_start(image), bytes)
}

/// The address and the size in bytes of the index table.
fn index_of(image: &Image, tables: &RewrittenTables) -> (u32, u32)
    requires { length tables.now.bytes + ROW_SIZE * length tables.now.rows ≤ MEMORY_LIMIT }
    ensures { result ≡ index_at (rows_start image.now tables.now) tables.now.rows }
{
    let count = tables.rows.len();
    if count == 0 {
        (0, 0)
    } else {
        (rows_start(image, tables), ROW_SIZE * count as u32)
    }
}

/// The symbols of the rewritten image; Err `TooLarge` if it is over a limit with these segments and symbols.
fn symbols_within(
    alloc: Global,
    image: &Image,
    segments: &[OwnSegment],
    has_index: bool,
) -> Result<Vec<OwnSymbol>, GnuFault>
    ensures accepted { IfOk result (λ _. is_too_large segments.now has_index (length (symbols_of image.now)) (names_size (symbols_of image.now)) ≡ false) }
    ensures symbols { IfOk result (λ v. v.items ≡ symbols_of image.now) }
    // Running out of memory is always allowed.
    ensures fault { IfErr result (λ fault. fault ≢ OutOfMemory → fault ≡ TooLarge) }
    ensures refused { IfErr result (λ fault. fault ≢ OutOfMemory → is_too_large segments.now has_index (length (symbols_of image.now)) (names_size (symbols_of image.now)) ≡ true) }
{
    let marks = marks_of(alloc, image)?;
    let mut symbols = Vec::new(alloc);
    push_kept_symbols(alloc, &mut symbols, image)?;
    let count = count(&symbols, image, &marks);
    let names = names(&symbols, image, &marks);
    if is_too_large(segments, has_index, count, names) {
        return Err(GnuFault::TooLarge);
    }
    push_others(alloc, &mut symbols, image, &marks)?;
    Ok(symbols)
}

/// The parts of the image with these tables; Err `TooLarge` if they are over a limit.
#[tactic(auto, using(crate::proofs::Making::making))]
fn parts_of(alloc: Global, image: &Image, tables: &RewrittenTables) -> Result<ImageParts, GnuFault>
    requires { length tables.now.bytes + ROW_SIZE * length tables.now.rows ≤ MEMORY_LIMIT }
    ensures accepted { IfOk result (λ _. passes_limits (parts_with image.now tables.now) ≡ false) }
    ensures parts { IfOk result (λ parts. parts ≡ parts_with image.now tables.now) }
    // Running out of memory is always allowed.
    ensures fault { IfErr result (λ fault. fault ≢ OutOfMemory → fault ≡ TooLarge) }
    ensures refused { IfErr result (λ fault. fault ≢ OutOfMemory → passes_limits (parts_with image.now tables.now) ≡ true) }
{
    let segments = segments_of(alloc, image, tables)?;
    let has_index = !tables.rows.is_empty();
    let symbols = symbols_within(alloc, image, &segments, has_index)?;
    Ok(ImageParts {
        entry: image.entry(),
        segments: OwnSegments::of_vec(segments),
        symbols: OwnSymbols::of_vec(symbols),
        index: index_of(image, tables),
    })
}

/// As `parts_of`, with the filters and the refused entries of the tables.
#[tactic(auto, using(crate::proofs::Making::long_passes))]
fn parts_within(
    alloc: Global,
    image: &Image,
    tables: RewrittenTables,
) -> Result<(GnuImage, Vec<RefusedEntry>), GnuFault>
    ensures accepted { IfOk result (λ _. passes_limits (parts_with image.now tables) ≡ false) }
    ensures parts { IfOk result (λ t. t.0.parts ≡ parts_with image.now tables) }
    ensures filters { IfOk result (λ t. t.0.filters.items ≡ tables.filters) }
    ensures listed { IfOk result (λ t. t.1.items ≡ tables.refused) }
    ensures short { IfOk result (λ _. length tables.bytes ≤ MEMORY_LIMIT) }
    // Running out of memory is always allowed.
    ensures fault { IfErr result (λ fault. fault ≢ OutOfMemory → fault ≡ TooLarge) }
    ensures refused { IfErr result (λ fault. fault ≢ OutOfMemory → passes_limits (parts_with image.now tables) ≡ true) }
{
    if is_too_long(&tables) {
        return Err(GnuFault::TooLarge);
    }
    let parts = parts_of(alloc, image, &tables)?;
    let (_bytes, _rows, filters, refused) = tables.into_lists();
    Ok((GnuImage { parts, filters }, refused))
}

/// Rewrites an image with GNU's tables to one with compact tables. Err if and only if an entry is refused, the rewritten image is too
/// large, or memory runs out. Of several refused entries the lowest is given.
#[tactic(auto, using(crate::proofs::Rising::filters_rise))]
pub fn translate(alloc: Global, image: &Image, index: &Index) -> Result<GnuImage, GnuFault>
    requires { index.now ≡ image.now }
    ensures accepted { IfOk result (λ _. translation_refusal image.now ≡ None) }
    // Running out of memory is always allowed.
    ensures refused { IfErr result (λ fault. fault ≢ OutOfMemory → translation_refusal image.now ≡ Some fault) }
    ensures parts { IfOk result (λ t. t.parts ≡ new_parts image.now) }
    ensures filters { IfOk result (λ t. t.filters.items ≡ (new_tables image.now).filters) }
    ensures rising { IfOk result (λ t. IsStrictlySortedBy nat_cmp (keys_of t.filters.items)) }
{
    match rows_refusal(index) {
        Some(fault) => Err(fault),
        None => {
            let tables = rewrite_rows(alloc, index, tables_start(image))?;
            let (parts, _refused) = parts_within(alloc, image, tables)?;
            Ok(parts)
        }
    }
}

/// As `translate`, but an entry that is refused is listed, and its function can't be unwound. Err if and only if too many bytes of
/// call-site tables would be read, the rewritten image is too large, or memory runs out.
#[tactic(auto, using(crate::proofs::Rising::filters_rise))]
pub fn rewrite(
    alloc: Global,
    image: &Image,
    index: &Index,
) -> Result<(GnuImage, Vec<RefusedEntry>), GnuFault>
    requires { index.now ≡ image.now }
    ensures accepted { IfOk result (λ _. rewrite_refusal image.now ≡ None) }
    // Running out of memory is always allowed.
    ensures refused { IfErr result (λ fault. fault ≢ OutOfMemory → rewrite_refusal image.now ≡ Some fault) }
    ensures parts { IfOk result (λ t. t.0.parts ≡ new_parts image.now) }
    ensures filters { IfOk result (λ t. t.0.filters.items ≡ (new_tables image.now).filters) }
    ensures rising { IfOk result (λ t. IsStrictlySortedBy nat_cmp (keys_of t.0.filters.items)) }
    ensures listed { IfOk result (λ t. t.1.items ≡ (new_tables image.now).refused) }
{
    let tables = rewritten_within_limit(alloc, index, tables_start(image))?;
    parts_within(alloc, image, tables)
}
