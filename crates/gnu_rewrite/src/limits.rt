//! Which rewritten images are too large; decided before any name is copied. docs/rules/gnu-tables.md states the rules.
ghost use Rattle.std.specs.Prelude.{◌≡◌, ◌+◌, ◌*◌, ◌^◌, ◌<◌, ◌≤◌, ◌/◌, nat_lt, length, sum_by, map, Bool, true};
ghost use Rattle.std.specs.List.{list_any};
ghost use Rattle.elf_image.specs.declared.limits.TheConstants.{ADDRESS_LIMIT, SEGMENT_LIMIT};
ghost use Rattle.elf_write.specs.Layout.{align_to_word, bit, zero_terminated, section_names, segment_name, segment_names};
ghost use Rattle.gnu_rewrite.specs.Sizes.{name_size, names_size, headers_size, contents_end, names_end, file_size, is_too_large};
ghost use Rattle.gnu_rewrite.specs.Symbols.{function_symbol};

use elf_image::Function;
use elf_image::format::{FILE_HEADER_SIZE, PROGRAM_HEADER_SIZE, SECTION_HEADER_SIZE};
use elf_image::limits::{ADDRESS_LIMIT, MEMORY_LIMIT, SEGMENT_LIMIT, SYMBOL_LIMIT};
use elf_image::symbol::SYMBOL_SIZE;
use elf_write::parts::{OwnSegment, OwnSymbol, SymbolKind};

/// The file of a rewritten image must have fewer bytes than this.
pub const FILE_LIMIT: u64 = 16_777_216;
/// The size of a mapping symbol's name with its zero byte, in bytes.
pub const MARK_NAME_SIZE: usize = 3;

/// The number, rounded up to a multiple of 4.
fn align_to_word(n: u128) -> u128
    requires { n < 2 ^ 120 }
    ensures { result ≡ align_to_word n }
{
    (n + 3) / 4 * 4
}

/// The size of a name with its zero byte, in bytes.
fn closed_size(name: &[u8]) -> u128
    ensures size { result ≡ length (zero_terminated name.now) }
    ensures few { result ≤ 2 ^ 64 }
{
    if name.is_empty() {
        0
    } else {
        name.len() as u128 + 1
    }
}

/// The size of a symbol's name in the string table, in bytes.
fn name_size(s: &OwnSymbol) -> u128
    ensures size { result ≡ name_size s.now.kind s.now.name }
    ensures few { result ≤ 2 ^ 64 }
{
    match s.kind {
        SymbolKind::Function | SymbolKind::Object => closed_size(s.name.bytes()),
        SymbolKind::Code | SymbolKind::Words => MARK_NAME_SIZE as u128,
    }
}

/// The size of the symbols' names in the string table, in bytes.
pub(crate) fn names_size(symbols: &[OwnSymbol]) -> u128
    ensures size { result ≡ names_size symbols.now }
    ensures few { result ≤ 2 ^ 64 * length symbols.now }
{
    let mut total = 0;
    for s in symbols {
        total += name_size(s);
    }
    total
}

/// The size of the functions' names in the string table, in bytes.
pub(crate) fn function_names_size(functions: &[Function]) -> u128
    ensures size { result ≡ names_size (map function_symbol functions.now) }
    ensures few { result ≤ 2 ^ 64 * length functions.now }
{
    let mut total = 0;
    for f in functions {
        total += closed_size(f.name);
    }
    total
}

/// The size of the segments in memory, in bytes.
fn memory(segments: &[OwnSegment]) -> u128
    ensures { result ≡ sum_by (λ s. s.size) segments.now }
{
    let mut total = 0;
    for s in segments {
        total += u128::from(s.size);
    }
    total
}

fn is_out(s: &OwnSegment) -> bool
    ensures { result ≡ nat_lt ADDRESS_LIMIT (s.now.start + s.now.size) }
{
    u64::from(s.start) + u64::from(s.size) > ADDRESS_LIMIT
}

/// Whether a segment ends past the end of the memory map.
fn some_out(segments: &[OwnSegment]) -> bool
    ensures { result ≡ list_any (λ s. nat_lt ADDRESS_LIMIT (s.start + s.size)) segments.now }
{
    segments.iter().any(|s| is_out(s))
}

/// The end of the program headers in the file, in bytes.
fn headers_size(segments: &[OwnSegment], has_index: bool) -> u128
    ensures { result ≡ headers_size segments.now has_index }
{
    let index = if has_index { 1 } else { 0 };
    FILE_HEADER_SIZE as u128 + PROGRAM_HEADER_SIZE as u128 * (segments.len() as u128 + index)
}

/// The end of the segments' bytes in the file, if each starts at a multiple of 4.
fn contents_end(base: u128, segments: &[OwnSegment]) -> u128
    requires base { base < 2 ^ 80 }
    requires segments { length segments.now ≤ SEGMENT_LIMIT }
    ensures end { result ≡ contents_end base segments.now }
    ensures few { result ≤ 2 ^ 81 }
{
    let mut end = base;
    for s in segments {
        end = align_to_word(end) + s.bytes.len() as u128;
    }
    end
}

/// The size of the name of segment `i`'s section with its zero byte, in bytes.
#[tactic(auto, unfolding(elf_write::specs::Layout::segment_name, elf_write::specs::Layout::decimal))]
fn section_name_size(i: u32) -> u32
    requires { i < 10000 }
    ensures size { result ≡ length (segment_name i) }
    ensures few { result ≤ 9 }
{
    if i < 10 {
        6
    } else if i < 100 {
        7
    } else if i < 1000 {
        8
    } else {
        9
    }
}

/// The size of all section names, in bytes.
#[tactic(auto, using(crate::proofs::Sizes::section_sizes))]
fn section_names_size(segments: &[OwnSegment]) -> u32
    requires { length segments.now ≤ SEGMENT_LIMIT }
    ensures size { result ≡ length (section_names segments.now) }
    ensures few { result ≤ 10000 }
{
    let mut total = 27;
    let mut i = 0;
    for _s in segments {
        total += section_name_size(i);
        i += 1;
    }
    total
}

/// The size of the file, in bytes.
fn file_size(segments: &[OwnSegment], has_index: bool, symbols: u128, names: u128) -> u128
    requires segments { length segments.now ≤ SEGMENT_LIMIT }
    requires symbols { symbols < 2 ^ 100 }
    requires names { names < 2 ^ 100 }
    ensures { result ≡ file_size segments.now has_index symbols names }
{
    let contents = align_to_word(contents_end(headers_size(segments, has_index), segments));
    let table = SYMBOL_SIZE as u128 * (1 + symbols);
    let names = contents + table + (1 + names) + u128::from(section_names_size(segments));
    align_to_word(names) + SECTION_HEADER_SIZE as u128 * (segments.len() as u128 + 4)
}

/// Whether an image is over a limit or its file too large. The image has these segments and, if `has_index`, an index table; `symbols`
/// is the number of symbols without the null one, and `names` the size of their names in bytes.
#[tactic(auto, unfolding(crate::specs::Sizes::is_too_large))]
pub(crate) fn is_too_large(
    segments: &[OwnSegment],
    has_index: bool,
    symbols: u128,
    names: u128,
) -> bool
    requires symbols { symbols < 2 ^ 100 }
    requires names { names < 2 ^ 100 }
    ensures { result ≡ is_too_large segments.now has_index symbols names }
{
    memory(segments) > u128::from(MEMORY_LIMIT)
        || segments.len() > SEGMENT_LIMIT
        || 1 + symbols > SYMBOL_LIMIT as u128
        || some_out(segments)
        || file_size(segments, has_index, symbols, names) >= u128::from(FILE_LIMIT)
}
