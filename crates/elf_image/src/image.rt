//! Images and their queries, for the crates above (docs/rules/elf.md).
ghost use Rattle.std.specs.Prelude.{option_copied, ◌≡◌, ℕ, ◌+◌, ◌*◌, ◌<◌, ◌≤◌, ◌&&◌, true, IfSome, if◌then◌else◌, length, find, Option, Some, None, option_map};
ghost use Rattle.std.specs.List.{list_any};
ghost use Rattle.elf_image.specs.Segments.{RiseFrom, holds};
ghost use Rattle.elf_image.specs.Functions.{segment_at, FunctionsFrom};
ghost use Rattle.elf_image.specs.Image.{segment_number, function_at, is_code_in, code_end, symbol_in, type_symbols_of, word_of, holds_word, word_in, IsSound};
ghost use Rattle.eh_word.specs.Names.{same_bytes};

use crate::function::{Function, function_number};
use crate::holder::{segment_at, segment_number};
use crate::mark::{is_code_by_marks, next_mark};
use crate::named::NamedAddress;
use crate::segment::Segment;
use byteorder::{ByteOrder, LittleEndian};
use std::marker::Model;

/// An image: its segments, functions, mapping symbols, defined symbols and exception index.
#[derive(Drop)]
pub struct Image<'a> {
    /// The address of the entry, bit 0 clear.
    pub(crate) entry: u32,
    /// The segments, in ascending order of their starts.
    pub(crate) segments: Vec<Segment<'a>>,
    /// The functions, in ascending order of their starts.
    pub(crate) functions: Vec<Function<'a>>,
    /// The addresses of the mapping symbols, ascending, and whether code begins there.
    pub(crate) marks: Vec<(u32, bool)>,
    /// The defined symbols, in the order of the table.
    pub(crate) symbols: Vec<NamedAddress<'a>>,
    /// The addresses of the symbols that begin with `_ZTI`, in the order of the table.
    pub(crate) type_symbols: Vec<u32>,
    /// The address of the exception index; 0 without one.
    pub(crate) index_start: u32,
    /// The bytes of the exception index; empty without one.
    pub(crate) index_bytes: &'a [u8],
}

impl<'a> Model for Image<'a> {
    ghost use Rattle.std.specs.Prelude.{◌≡◌};
    ghost use Rattle.elf_image.specs.Image.{Image as Parts, IsSound, type_symbols_of};

    ghost Value = { Parts };

    ghost use Rattle.elf_image.specs.Inside.{view_of};

    ghost view = { view_of };

    ghost invariant = { λ i. IsSound (view_of i) × (i.type_symbols.items ≡ type_symbols_of i.symbols.items) };
}

/// Whether an executable segment contains the address.
#[tactic(auto, using(crate::proofs::Lookups::holders))]
fn may_execute(segments: &[Segment], a: u32) -> bool
    requires { RiseFrom 0 segments.now }
    ensures { result ≡ list_any (λ s. holds a s && s.exec) segments.now }
{
    match segment_at(segments, a) {
        Some(segment) => segment.exec,
        None => false,
    }
}

/// The word at an address, if the segment is read-only and its file bytes contain all four bytes.
fn word_at(segment: &Segment, a: u32) -> Option<u32>
    ensures { result ≡ (if holds_word a segment.now then Some (word_in a segment.now) else None) }
{
    if segment.write || a < segment.start {
        return None;
    }
    let at = (a - segment.start) as usize;
    if at + 4 <= segment.bytes.len() {
        Some(LittleEndian::read_u32(&segment.bytes[at..]))
    } else {
        None
    }
}

/// The word at an address, if the file bytes of a read-only segment contain all four bytes.
#[tactic(auto, using(crate::proofs::Lookups::holders))]
fn read_word(segments: &[Segment], a: u32) -> Option<u32>
    requires { RiseFrom 0 segments.now }
    ensures { result ≡ option_map (word_in a) (find (holds_word a) segments.now) }
{
    let segment = segment_at(segments, a)?;
    word_at(segment, a)
}

/// The address of the first symbol with a name, or None.
fn address_of(symbols: &[NamedAddress], name: &[u8]) -> Option<u32>
    ensures { result ≡ option_map (λ n. n.address) (find (λ n. same_bytes n.name name.now) symbols.now) }
{
    for n in symbols {
        if n.name == name {
            return Some(n.address);
        }
    }
    None
}

impl<'a> Image<'a> {
    /// The address of the entry, bit 0 clear.
    pub fn entry(&self) -> u32
        ensures { result ≡ self.now.entry }
    {
        self.entry
    }

    /// The segments, in ascending order of their starts. They don't overlap and lie below 0x30000000. Each has at least
    /// one byte of memory, and no more bytes in the file than in memory. There are at most 1,024, with at most
    /// 1,048,576 bytes of memory together.
    pub fn segments(&self) -> &[Segment<'a>]
        ensures segments { result.now ≡ self.now.segments }
        ensures sound { IsSound self.now }
    {
        &self.segments
    }

    /// The number of the segment that contains an address; None exactly if none does.
    pub fn segment_of(&self, a: u32) -> Option<usize>
        ensures number { result ≡ segment_number self.now a }
        ensures inside { IfSome result (λ i. i < length self.now.segments) }
        ensures sound { IsSound self.now }
    {
        segment_number(&self.segments, a)
    }

    /// The segment that contains an address; None exactly if none does.
    pub fn segment_at(&self, a: u32) -> Option<&Segment<'a>>
        ensures found { option_copied result ≡ segment_at self.now.segments a }
        ensures sound { IsSound self.now }
    {
        segment_at(&self.segments, a)
    }

    /// The functions, in ascending order of their starts; they don't overlap. Each begins at an even address and lies
    /// in one read-only executable segment, and one begins at the entry. There are at most 4,096. No name contains a
    /// zero byte.
    pub fn functions(&self) -> &[Function<'a>]
        ensures functions { result.now ≡ self.now.functions }
        ensures sound { IsSound self.now }
    {
        &self.functions
    }

    /// The number of the function that contains an address; None exactly if none does.
    pub fn function_of(&self, a: u32) -> Option<usize>
        ensures { result ≡ function_at self.now a }
    {
        function_number(&self.functions, a)
    }

    /// Whether an address is even, in an executable segment, and code by the mapping symbols. That is, the last mapping
    /// symbol at or below it is `$t`, or there is none.
    pub fn is_code(&self, a: u32) -> bool
        ensures { result ≡ is_code_in self.now a }
    {
        a % 2 == 0 && may_execute(&self.segments, a) && is_code_by_marks(&self.marks, a)
    }

    /// The end of the stretch of code that begins at `a`: all even addresses of it are code, so they need no test of
    /// their own. It is the end of the segment of `a` or the next mapping symbol, whichever is lower; if `a` is no
    /// code, it is `a`.
    #[tactic(auto, using(crate::proofs::CodeRuns::code_runs))]
    pub fn code_end(&self, a: u32) -> u32
        ensures is { result ≡ code_end self.now a }
        ensures code { (k : ℕ) → a + 2 * k < result → is_code_in self.now (a + 2 * k) ≡ true }
    {
        if !self.is_code(a) {
            return a;
        }
        let Some(segment) = segment_at(&self.segments, a) else {
            return a;
        };
        let end = segment.start + segment.size;
        next_mark(&self.marks, a, end).min(end)
    }

    /// The address of the first defined symbol with a name, bit 0 clear for a function; None exactly if there is none.
    /// Searches all symbols.
    pub fn symbol(&self, name: &[u8]) -> Option<u32>
        ensures { result ≡ symbol_in self.now name.now }
    {
        address_of(&self.symbols, name)
    }

    /// The addresses of the defined symbols whose names begin with `_ZTI`, in the order of the table.
    pub fn type_symbols(&self) -> &[u32]
        ensures { result.now ≡ type_symbols_of self.now.symbols }
    {
        &self.type_symbols
    }

    /// The address of the exception index, a multiple of 4; 0 if there is none.
    pub fn index_start(&self) -> u32
        ensures start { result ≡ self.now.index_start }
        ensures sound { IsSound self.now }
    {
        self.index_start
    }

    /// The bytes of the exception index, which lie in one read-only segment; empty if there is none.
    pub fn index_bytes(&self) -> &'a [u8]
        ensures bytes { result.now ≡ self.now.index_bytes }
        ensures sound { IsSound self.now }
    {
        self.index_bytes
    }

    /// The word at an address; None exactly if no read-only segment contains all four bytes in its file bytes.
    pub fn read_word(&self, a: u32) -> Option<u32>
        ensures { result ≡ word_of self.now a }
    {
        read_word(&self.segments, a)
    }
}
