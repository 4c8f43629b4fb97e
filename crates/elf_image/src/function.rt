//! Finds the functions of an image in its symbols (docs/rules/elf.md).
ghost use Rattle.elf_image.specs.declared.limits.TheConstants.{ADDRESS_LIMIT};
ghost use Rattle.std.specs.Prelude.{◌≡◌, ◌+◌, ◌-◌, ◌^◌, ◌<◌, ◌≤◌, length, drop, nat_le, ◌==◌, min, if◌then◌else◌, IfOk, IfSome, Some, None, option_copied};
ghost use Rattle.std.specs.List.{prefix_len, position_from};
ghost use Rattle.std.specs.List.Sorted.{IsStrictlySortedBy};
ghost use Rattle.std.specs.Ordering.{nat_cmp};
ghost use Rattle.std.specs.Map.{values_of, keys_of};
ghost use Rattle.elf_image.specs.Segments.{RiseFrom, segment_end};
ghost use Rattle.elf_image.specs.Functions.{Function as Range, is_thumb_function, segment_at, function_of_symbol, functions_by_start, next_start, clip_ends, functions_of, FunctionsFrom, is_inside};

use crate::holder::segment_at;
use crate::segment::Segment;
use crate::symbol::{SHN_UNDEF, STT_FUNC, Symbol};
use std::alloc::{AllocError, Global};
use std::collections::BTreeMap;
use std::marker::Model;

/// A function of an image.
#[derive(Drop)]
pub struct Function<'a> {
    /// The name of its symbol.
    pub name: &'a [u8],
    /// The address of its first byte, bit 0 clear.
    pub start: u32,
    /// The address after its last byte.
    pub end: u32,
}

impl<'a> Model for Function<'a> {
    ghost use Rattle.elf_image.specs.Functions.{Function as Range};

    ghost Value = { Range };

    ghost view = { λ f. record { name = f.name.now; start = f.start; end = f.end } };
}

/// Whether a symbol is a defined function in Thumb code.
fn is_thumb_function(s: &Symbol) -> bool
    ensures { result ≡ is_thumb_function s.now }
{
    s.info % 16 == STT_FUNC && s.value % 2 == 1 && s.section != SHN_UNDEF
}

/// The end address of a function by its size, cut off at its segment's end. A size of 0 reaches to the segment's end.
fn limit(segment: &Segment, start: u32, size: u32) -> u32
    requires { segment_end segment.now ≤ ADDRESS_LIMIT }
    ensures { result ≡ (if size == 0 then segment_end segment.now else min (segment_end segment.now) (start + size)) }
{
    let end = segment.start + segment.size;
    if size == 0 || u64::from(end) < u64::from(start) + u64::from(size) {
        end
    } else {
        start + size
    }
}

/// The function of a symbol, or None if the symbol is no function.
#[tactic(auto, unfolding(crate::specs::Functions::function_of_symbol))]
pub(crate) fn function_of_symbol<'a>(segments: &[Segment], s: &Symbol<'a>) -> Option<Function<'a>>
    requires { RiseFrom 0 segments.now }
    ensures { result ≡ function_of_symbol segments.now s.now }
{
    if !is_thumb_function(s) {
        return None;
    }
    let start = s.value - 1;
    let segment = segment_at(segments, start)?;
    if !segment.exec || segment.write {
        return None;
    }
    Some(Function {
        name: s.name,
        start,
        end: limit(segment, start, s.size),
    })
}

/// The functions by their start addresses. Of several at one address, the first symbol counts.
fn functions_by_start<'a>(
    alloc: Global,
    segments: &[Segment],
    symbols: &[Symbol<'a>],
) -> Result<BTreeMap<u32, Function<'a>>, AllocError>
    requires { RiseFrom 0 segments.now }
    ensures entries { IfOk result (λ m. m.entries ≡ functions_by_start segments.now symbols.now) }
{
    let mut entries = BTreeMap::new(alloc);
    for s in symbols {
        if let Some(f) = function_of_symbol(segments, s) {
            let start = f.start;
            if !entries.contains_key(&start) {
                entries.insert(start, f)?;
            }
        }
    }
    Ok(entries)
}

/// The functions of a map, in its order.
fn values<'a>(
    alloc: Global,
    entries: BTreeMap<u32, Function<'a>>,
) -> Result<Vec<Function<'a>>, AllocError>
    ensures items { IfOk result (λ v. v.items ≡ values_of entries.entry.entries) }
    ensures ordered { IsStrictlySortedBy nat_cmp (keys_of entries.entry.entries) }
{
    entries.into_values().collect(alloc)
}

/// The start of function `i`, or `none` past the last function.
fn next_start(functions: &[Function], i: usize, none: u32) -> u32
    ensures { result ≡ next_start (drop i functions.now) none }
{
    if i < functions.len() {
        let next = &functions[i];
        next.start
    } else {
        none
    }
}

/// The functions, each cut off at the start of the next.
fn clip_ends<'a>(alloc: Global, drafts: &[Function<'a>]) -> Result<Vec<Function<'a>>, AllocError>
    ensures { IfOk result (λ v. v.items ≡ clip_ends drafts.now) }
{
    let mut functions = Vec::with_capacity(alloc, drafts.len())?;
    for (i, f) in drafts.iter().enumerate() {
        let next = next_start(drafts, i + 1, f.end);
        functions.push(Function {
            name: f.name,
            start: f.start,
            end: f.end.min(next),
        })?;
    }
    Ok(functions)
}

/// The functions of the symbols, in ascending order of their starts.
#[tactic(auto, using(crate::proofs::Ended::functions_from), unfolding(crate::specs::Functions::functions_of))]
pub(crate) fn read_functions<'a>(
    alloc: Global,
    segments: &[Segment],
    symbols: &[Symbol<'a>],
) -> Result<Vec<Function<'a>>, AllocError>
    requires { RiseFrom 0 segments.now }
    ensures items { IfOk result (λ v. v.items ≡ functions_of segments.now symbols.now) }
    ensures apart { IfOk result (λ v. FunctionsFrom 0 v.items) }
{
    let entries = functions_by_start(alloc, segments, symbols)?;
    let drafts = values(alloc, entries)?;
    clip_ends(alloc, &drafts)
}

/// How many functions begin at or below `a`.
fn functions_up_to(functions: &[Function], a: u32) -> usize
    requires { FunctionsFrom 0 functions.now }
    ensures count { result ≡ prefix_len (λ f. nat_le f.start a) functions.now }
    ensures within { result ≤ length functions.now }
{
    functions.partition_point(|f| f.start <= a)
}

/// The number of the function that contains an address, or None.
#[tactic(auto, using(crate::proofs::Lookups::function_lookups))]
pub(crate) fn function_number(functions: &[Function], a: u32) -> Option<usize>
    requires { FunctionsFrom 0 functions.now }
    ensures { result ≡ position_from (is_inside a) 0 functions.now }
{
    let count = functions_up_to(functions, a);
    if count == 0 {
        return None;
    }
    let f = &functions[count - 1];
    if a < f.end { Some(count - 1) } else { None }
}
