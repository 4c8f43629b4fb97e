//! A memory in pages, which are found by number in constant time (docs/rules/memory.md).
ghost use Rattle.std.specs.Prelude.{◌≡◌, ℕ, List, ◌+◌, ◌*◌, ◌%◌, ◌^◌, ◌<◌, ◌≤◌, length, drop, Option, Some, None, IfOk, IfErr, OnOk, All, ◌==◌, ◌++◌, ◌∷◌, [], IfSome, IfNone, slice_index_or, true, false};
ghost use Rattle.byteorder.specs.Endian.{little_number};
ghost use Rattle.eh_bus.specs.Segment.{Segment, AreBytes};
ghost use Rattle.eh_bus.specs.Built.{CanBuild, GivesImage, initial_memory, segment_of, zeros_at};
ghost use Rattle.eh_bus.specs.declared.segment.SegmentSpec.{SegmentSpec as Spec};
ghost use Rattle.eh_bus.specs.Place.{IsPlace, IsWidth};
ghost use Rattle.eh_bus.specs.Memory.{fault_in, number_in, load_fault, store_fault, fetch_fault, store, store_run, run_fault, store_words, store_number, host_store};
ghost use Rattle.eh_bus.specs.Map.{AreApart, AreSegments, flat_home};
ghost use Rattle.eh_bus.specs.Guards.{AreGuards, AreGuards-prop};
ghost use Rattle.mem_buses.specs.Pages.{ArePages, AreOwned, AreUsed, cell_of, byte_of, owner_of, CanStore, Lays, PagesMake, segments_at, part_holds, spans, IsSpan, IsOpen, IsCode, HasPage, IsPage, ArePageNumbers};
ghost use Rattle.mem_guards.specs.Flags.{AreFree};
ghost use Rattle.eh_bus.specs.declared.fault.BusFault.{BusFault as Fault};
ghost use Rattle.eh_bus.specs.declared.fault.BusFault.TheVariants.{Unmapped};

use crate::access::{fetch_fault, is_aligned, load_fault, store_fault};
use crate::pages::{Pages, left_of_page};
use crate::part::{CellRun, SegmentInfo};
use eh_bus::bus::Bus;
use eh_bus::fault::{BusFault, BusMemory};
use eh_bus::map::{POOL_SIZE, POOL_START, STACK_END, STACK_SIZE, STACK_START};
use eh_bus::segment::SegmentSpec;
use mem_guards::guards::Guards;
use std::alloc::{AllocError, Global};

/// The place of an access: the number of its segment, and the index of its first byte among the bytes of all pages.
#[derive(Clone, Copy)]
pub(crate) struct AccessCell {
    /// The number of the segment.
    pub(crate) part: usize,
    /// The cell of the first byte: its index among the bytes of all pages.
    pub(crate) at: usize,
}

/// Finds the segment that contains the `n` bytes from `a` on, by the owner of the first byte.
#[inline(always)]
fn look_up(pages: &Pages, parts: &[SegmentInfo], a: u32, n: u32) -> Option<AccessCell>
    requires some { 0 < n }
    requires sound { ArePages pages.now }
    requires owned { AreOwned (owner_of pages.now) parts.now }
    ensures place { IfSome result (λ found. IsPlace n (segments_at (byte_of pages.now) parts.now) a found.part) }
    ensures covers { IfSome result (λ found. (d : SegmentInfo) → part_holds (slice_index_or parts.now found.part d) a n ≡ true) }
    ensures inside { IfSome result (λ found. found.part < length parts.now) }
    ensures cell { IfSome result (λ found. cell_of pages.now a ≡ Some found.at) }
    ensures unmapped { IfNone result ((f : Segment → Option Fault) → fault_in f n (segments_at (byte_of pages.now) parts.now) a ≡ Some (Unmapped a)) }
{
    let Some(at) = pages.cell(a) else {
        return None;
    };
    let Some(owner) = pages.owner(at) else {
        return None;
    };
    let part = owner as usize;
    if parts[part].covers(a, n) {
        Some(AccessCell { part, at })
    } else {
        None
    }
}

/// Finds the segment that contains the `n` bytes from `a` on. If they lie in the span `near`, no page is looked up.
#[inline(always)]
pub(crate) fn find(
    pages: &Pages,
    parts: &[SegmentInfo],
    near: &CellRun,
    a: u32,
    n: u32,
) -> Option<AccessCell>
    requires some { 0 < n }
    requires sound { ArePages pages.now }
    requires owned { AreOwned (owner_of pages.now) parts.now }
    requires near { IsSpan pages.now.places parts.now near.now }
    ensures place { IfSome result (λ found. IsPlace n (segments_at (byte_of pages.now) parts.now) a found.part) }
    ensures covers { IfSome result (λ found. (d : SegmentInfo) → part_holds (slice_index_or parts.now found.part d) a n ≡ true) }
    ensures inside { IfSome result (λ found. found.part < length parts.now) }
    ensures cell { IfSome result (λ found. cell_of pages.now a ≡ Some found.at) }
    ensures unmapped { IfNone result ((f : Segment → Option Fault) → fault_in f n (segments_at (byte_of pages.now) parts.now) a ≡ Some (Unmapped a)) }
{
    if near.covers(a, n) {
        return Some(AccessCell {
            part: near.part,
            at: near.cell(a),
        });
    }
    look_up(pages, parts, a, n)
}

/// The cell of a load of `n` bytes, by the page of the first byte.
#[inline(never)]
fn load_by_page(pages: &Pages, parts: &[SegmentInfo], a: u32, n: u32) -> Result<usize, BusFault>
    requires width { IsWidth n }
    requires sound { ArePages pages.now }
    requires owned { AreOwned (owner_of pages.now) parts.now }
    ensures room { IfOk result (λ at. at + n ≤ length pages.now.bytes) }
    ensures number { IfOk result (λ at. number_in n (segments_at (byte_of pages.now) parts.now) a ≡ little_number n (drop at pages.now.bytes)) }
    ensures ok { IfOk result (λ at. fault_in (λ s. load_fault n a) n (segments_at (byte_of pages.now) parts.now) a ≡ None) }
    ensures fault { IfErr result (λ fault. fault_in (λ s. load_fault n a) n (segments_at (byte_of pages.now) parts.now) a ≡ Some fault) }
{
    let Some(found) = look_up(pages, parts, a, n) else {
        return Err(BusFault::Unmapped(a));
    };
    match load_fault(n, a) {
        Some(fault) => Err(fault),
        None => Ok(found.at),
    }
}

/// The cell of a load of `n` bytes.
#[inline(always)]
pub(crate) fn load_cell(
    pages: &Pages,
    parts: &[SegmentInfo],
    near: &CellRun,
    a: u32,
    n: u32,
) -> Result<usize, BusFault>
    requires width { IsWidth n }
    requires sound { ArePages pages.now }
    requires owned { AreOwned (owner_of pages.now) parts.now }
    requires near { IsSpan pages.now.places parts.now near.now }
    requires open { IsOpen parts.now near.now }
    ensures room { IfOk result (λ at. at + n ≤ length pages.now.bytes) }
    ensures number { IfOk result (λ at. number_in n (segments_at (byte_of pages.now) parts.now) a ≡ little_number n (drop at pages.now.bytes)) }
    ensures ok { IfOk result (λ at. fault_in (λ s. load_fault n a) n (segments_at (byte_of pages.now) parts.now) a ≡ None) }
    ensures fault { IfErr result (λ fault. fault_in (λ s. load_fault n a) n (segments_at (byte_of pages.now) parts.now) a ≡ Some fault) }
{
    if near.covers(a, n) && is_aligned(a, n) {
        return Ok(near.cell(a));
    }
    load_by_page(pages, parts, a, n)
}

/// The cell of a fetch, by the page of its first byte.
#[inline(never)]
fn fetch_by_page(pages: &Pages, parts: &[SegmentInfo], a: u32) -> Result<usize, BusFault>
    requires sound { ArePages pages.now }
    requires owned { AreOwned (owner_of pages.now) parts.now }
    ensures room { IfOk result (λ at. at + 2 ≤ length pages.now.bytes) }
    ensures number { IfOk result (λ at. number_in 2 (segments_at (byte_of pages.now) parts.now) a ≡ little_number 2 (drop at pages.now.bytes)) }
    ensures ok { IfOk result (λ at. fault_in (λ s. fetch_fault s a) 2 (segments_at (byte_of pages.now) parts.now) a ≡ None) }
    ensures fault { IfErr result (λ fault. fault_in (λ s. fetch_fault s a) 2 (segments_at (byte_of pages.now) parts.now) a ≡ Some fault) }
{
    let Some(found) = look_up(pages, parts, a, 2) else {
        return Err(BusFault::Unmapped(a));
    };
    match fetch_fault(parts[found.part].exec, a) {
        Some(fault) => Err(fault),
        None => Ok(found.at),
    }
}

/// The cell of a fetch.
#[inline(always)]
pub(crate) fn fetch_cell(
    pages: &Pages,
    parts: &[SegmentInfo],
    near: &CellRun,
    a: u32,
) -> Result<usize, BusFault>
    requires sound { ArePages pages.now }
    requires owned { AreOwned (owner_of pages.now) parts.now }
    requires near { IsSpan pages.now.places parts.now near.now }
    requires code { IsCode parts.now near.now }
    ensures room { IfOk result (λ at. at + 2 ≤ length pages.now.bytes) }
    ensures number { IfOk result (λ at. number_in 2 (segments_at (byte_of pages.now) parts.now) a ≡ little_number 2 (drop at pages.now.bytes)) }
    ensures ok { IfOk result (λ at. fault_in (λ s. fetch_fault s a) 2 (segments_at (byte_of pages.now) parts.now) a ≡ None) }
    ensures fault { IfErr result (λ fault. fault_in (λ s. fetch_fault s a) 2 (segments_at (byte_of pages.now) parts.now) a ≡ Some fault) }
{
    if near.covers(a, 2) && is_aligned(a, 2) {
        return Ok(near.cell(a));
    }
    fetch_by_page(pages, parts, a)
}

/// The place of a store of `n` bytes, by the page of the first byte.
#[inline(never)]
fn store_by_page(
    pages: &Pages,
    parts: &[SegmentInfo],
    guards: &Guards,
    a: u32,
    n: u32,
) -> Result<AccessCell, BusFault>
    requires width { IsWidth n }
    requires sound { ArePages pages.now }
    requires owned { AreOwned (owner_of pages.now) parts.now }
    ensures cell { IfOk result (λ found. CanStore n pages.now parts.now a found.part found.at) }
    ensures ok { IfOk result (λ found. fault_in (λ s. store_fault n guards.now s a) n (segments_at (byte_of pages.now) parts.now) a ≡ None) }
    ensures fault { IfErr result (λ fault. fault_in (λ s. store_fault n guards.now s a) n (segments_at (byte_of pages.now) parts.now) a ≡ Some fault) }
{
    let Some(found) = look_up(pages, parts, a, n) else {
        return Err(BusFault::Unmapped(a));
    };
    match store_fault(n, guards, parts[found.part].write, a) {
        Some(fault) => Err(fault),
        None => Ok(found),
    }
}

/// The place of a store of `n` bytes.
#[inline(always)]
pub(crate) fn store_cell(
    pages: &Pages,
    parts: &[SegmentInfo],
    near: &CellRun,
    guards: &Guards,
    a: u32,
    n: u32,
) -> Result<AccessCell, BusFault>
    requires width { IsWidth n }
    requires sound { ArePages pages.now }
    requires owned { AreOwned (owner_of pages.now) parts.now }
    requires near { IsSpan pages.now.places parts.now near.now }
    requires open { IsOpen parts.now near.now }
    ensures cell { IfOk result (λ found. CanStore n pages.now parts.now a found.part found.at) }
    ensures ok { IfOk result (λ found. fault_in (λ s. store_fault n guards.now s a) n (segments_at (byte_of pages.now) parts.now) a ≡ None) }
    ensures fault { IfErr result (λ fault. fault_in (λ s. store_fault n guards.now s a) n (segments_at (byte_of pages.now) parts.now) a ≡ Some fault) }
{
    if near.covers(a, n) && is_aligned(a, n) {
        if let Some(g) = guards.guard_hit(a, n) {
            return Err(BusFault::SavedSlot(g));
        }
        return Ok(AccessCell {
            part: near.part,
            at: near.cell(a),
        });
    }
    store_by_page(pages, parts, guards, a, n)
}

/// The place of an aligned word, or None if no segment contains it.
#[inline(always)]
pub(crate) fn word_cell(
    pages: &Pages,
    parts: &[SegmentInfo],
    near: &CellRun,
    a: u32,
) -> Option<AccessCell>
    requires aligned { a % 4 ≡ 0 }
    requires sound { ArePages pages.now }
    requires owned { AreOwned (owner_of pages.now) parts.now }
    requires near { IsSpan pages.now.places parts.now near.now }
    ensures some { IfSome result (λ found. CanStore 4 pages.now parts.now a found.part found.at) }
    ensures none { IfNone result ((f : Segment → Option Fault) → fault_in f 4 (segments_at (byte_of pages.now) parts.now) a ≡ Some (Unmapped a)) }
{
    find(pages, parts, near, a, 4)
}

/// The aligned word at `a`, or 0 if no segment contains it.
#[inline(always)]
pub(crate) fn read_word(pages: &Pages, parts: &[SegmentInfo], near: &CellRun, a: u32) -> u32
    requires aligned { a % 4 ≡ 0 }
    requires sound { ArePages pages.now }
    requires owned { AreOwned (owner_of pages.now) parts.now }
    requires near { IsSpan pages.now.places parts.now near.now }
    ensures { result ≡ number_in 4 (segments_at (byte_of pages.now) parts.now) a }
{
    match word_cell(pages, parts, near, a) {
        Some(found) => pages.load32(found.at),
        None => 0,
    }
}

/// The fault of a word store, or None.
#[inline(always)]
fn word_fault(
    pages: &Pages,
    parts: &[SegmentInfo],
    near: &CellRun,
    guards: &Guards,
    a: u32,
) -> Option<BusFault>
    requires sound { ArePages pages.now }
    requires owned { AreOwned (owner_of pages.now) parts.now }
    requires near { IsSpan pages.now.places parts.now near.now }
    requires open { IsOpen parts.now near.now }
    ensures { result ≡ fault_in (λ s. store_fault 4 guards.now s a) 4 (segments_at (byte_of pages.now) parts.now) a }
{
    match store_cell(pages, parts, near, guards, a, 4) {
        Ok(_) => None,
        Err(fault) => Some(fault),
    }
}

/// The fault of the first word of a run that can't be stored, or None.
#[tactic(auto, using(crate::proofs::Places::run_fault_at))]
fn run_fault(
    pages: &Pages,
    parts: &[SegmentInfo],
    near: &CellRun,
    guards: &Guards,
    a: u32,
    words: &[u32],
) -> Option<BusFault>
    requires sound { ArePages pages.now }
    requires owned { AreOwned (owner_of pages.now) parts.now }
    requires near { IsSpan pages.now.places parts.now near.now }
    requires open { IsOpen parts.now near.now }
    ensures { result ≡ run_fault guards.now (segments_at (byte_of pages.now) parts.now) a words.now }
{
    let mut at = a;
    for _word in words {
        if let Some(fault) = word_fault(pages, parts, near, guards, at) {
            return Some(fault);
        }
        at = at.wrapping_add(4);
    }
    None
}

/// Stores an aligned word if a segment contains it.
fn write_word(pages: &mut Pages, parts: &[SegmentInfo], near: &CellRun, a: u32, v: u32)
    requires aligned { a % 4 ≡ 0 }
    requires stand { PagesMake pages.old parts.now (segments_at (byte_of pages.old) parts.now) }
    requires near { IsSpan pages.old.places parts.now near.now }
    ensures made { PagesMake pages.new parts.now (store_number 4 (segments_at (byte_of pages.old) parts.now) a v) }
    ensures places { pages.new.places ≡ pages.old.places }
{
    match word_cell(pages, parts, near, a) {
        Some(found) => pages.store32(found.at, v),
        None => {}
    }
}

/// Stores the words of a run.
fn run_write(pages: &mut Pages, parts: &[SegmentInfo], near: &CellRun, a: u32, words: &[u32])
    requires aligned { 0 < length words.now → a % 4 ≡ 0 }
    requires stand { PagesMake pages.old parts.now (segments_at (byte_of pages.old) parts.now) }
    requires near { IsSpan pages.old.places parts.now near.now }
    ensures made { PagesMake pages.new parts.now (store_words (segments_at (byte_of pages.old) parts.now) a words.now) }
    ensures places { pages.new.places ≡ pages.old.places }
{
    let mut at = a;
    for word in words {
        write_word(pages, parts, near, at, *word);
        at = at.wrapping_add(4);
    }
}

/// Whether the words of a run lie in the span and in the stack, and none is guarded.
#[inline(always)]
fn is_near_run(near: &CellRun, guards: &Guards, a: u32, count: usize) -> bool
    ensures aligned { result ≡ true → a % 4 ≡ 0 }
    ensures free { result ≡ true → AreFree guards.now a count }
    ensures within { result ≡ true → spans near.now a (4 * count) ≡ true }
    ensures no { result ≡ false → a % 4 ≡ 0 → AreFree guards.now a count → spans near.now a (4 * count) ≡ false }
{
    if a % 4 != 0 || !guards.are_free(a, count) {
        return false;
    }
    near.covers(a, 4 * count as u32)
}

/// Stores the words of a run that lies in the span, without looking up pages.
#[inline(always)]
fn write_near(pages: &mut Pages, parts: &[SegmentInfo], near: &CellRun, a: u32, words: &[u32])
    requires aligned { a % 4 ≡ 0 }
    requires high { a + 4 * length words.now ≤ STACK_END }
    requires within { spans near.now a (4 * length words.now) ≡ true }
    requires stand { PagesMake pages.old parts.now (segments_at (byte_of pages.old) parts.now) }
    requires near { IsSpan pages.old.places parts.now near.now }
    ensures made { PagesMake pages.new parts.now (store_words (segments_at (byte_of pages.old) parts.now) a words.now) }
    ensures places { pages.new.places ≡ pages.old.places }
{
    let mut at = near.cell(a);
    for word in words {
        pages.store32(at, *word);
        at += 4;
    }
}

/// Pages, and the segments in them.
#[derive(Drop)]
struct PagedSegments {
    pages: Pages,
    parts: Vec<SegmentInfo>,
}

/// Adds a segment and its pages.
fn place_segment(
    pages: &mut Pages,
    parts: &mut Vec<SegmentInfo>,
    spec: &SegmentSpec,
) -> Result<(), AllocError>
    requires lays { Lays pages.old parts.old.items (segments_at (byte_of pages.old) parts.old.items) }
    requires fits { length spec.now.bytes.now ≤ spec.now.size }
    requires ends { spec.now.start + spec.now.size ≤ STACK_END }
    requires apart { AreApart (segments_at (byte_of pages.old) parts.old.items ++ segment_of spec.now ∷ []) }
    ensures laid { OnOk result (Lays pages.new parts.new.items (segments_at (byte_of pages.old) parts.old.items ++ segment_of spec.now ∷ [])) }
    ensures bytes { OnOk result (AreBytes spec.now.bytes.now) }
{
    let Ok(owner) = u32::try_from(parts.len()) else {
        return Err(AllocError);
    };
    pages.fill(spec.start, spec.size, spec.bytes, owner)?;
    parts.push(SegmentInfo {
        start: spec.start,
        size: spec.size,
        write: spec.write,
        exec: spec.exec,
    })?;
    Ok(())
}

/// The description of a writable segment of zeros.
fn zeros_spec<'a>(start: u32, size: u32) -> SegmentSpec<'a>
    ensures segment { segment_of result ≡ zeros_at start size }
    ensures fits { length result.bytes.now ≤ result.size }
    ensures start { result.start ≡ start }
    ensures size { result.size ≡ size }
{
    SegmentSpec {
        start,
        bytes: &[],
        size,
        write: true,
        exec: false,
    }
}

/// Lays out the stack, the pool and these segments in pages.
fn lay_all(alloc: Global, specs: &[SegmentSpec]) -> Result<PagedSegments, AllocError>
    requires { CanBuild specs.now }
    ensures lays { IfOk result (λ laid. Lays laid.pages laid.parts.items (initial_memory specs.now).segments) }
    ensures bytes { IfOk result (λ laid. All (λ (spec : Spec). AreBytes spec.bytes.now) specs.now) }
{
    let mut pages = Pages::new(alloc)?;
    let mut parts = Vec::new(alloc);
    place_segment(&mut pages, &mut parts, &zeros_spec(STACK_START, STACK_SIZE))?;
    place_segment(&mut pages, &mut parts, &zeros_spec(POOL_START, POOL_SIZE))?;
    for spec in specs {
        place_segment(&mut pages, &mut parts, spec)?;
    }
    Ok(PagedSegments { pages, parts })
}

/// Whether the byte `k` bytes after `start` is `k` cells after `at`.
fn is_contiguous(pages: &Pages, start: u32, at: u32, k: u32) -> bool
    ensures { result ≡ true → cell_of pages.now (start + k) ≡ Some (at + k) }
{
    let Some(a) = start.checked_add(k) else {
        return false;
    };
    match pages.cell(a) {
        Some(cell) => cell == at as usize + k as usize,
        None => false,
    }
}

/// The cell of an address, if it has one that fits 32 bits.
fn small_cell(pages: &Pages, a: u32) -> Option<u32> {
    match pages.cell(a) {
        Some(at) => u32::try_from(at).ok(),
        None => None,
    }
}

/// A run of addresses, from a segment's start on, whose bytes are contiguous among those of the pages.
fn span_of(pages: &Pages, parts: &[SegmentInfo], number: usize) -> CellRun
    requires { number < length parts.now }
    ensures span { IsSpan pages.now.places parts.now result }
    ensures part { result.part ≡ number }
{
    let part = parts[number];
    let Some(at) = small_cell(pages, part.start) else {
        return CellRun {
            part: number,
            start: part.start,
            size: 0,
            at: 0,
        };
    };
    let mut size = 0;
    'pages: while size < part.size && is_contiguous(pages, part.start, at, size) {
        size += left_of_page(part.start, size).min(part.size - size);
    }
    CellRun {
        part: number,
        start: part.start,
        size,
        at,
    }
}

/// The span of the first executable segment; empty if there is none.
fn code_span(pages: &Pages, parts: &[SegmentInfo]) -> CellRun
    requires { 0 < length parts.now }
    ensures span { IsSpan pages.now.places parts.now result }
    ensures code { IsCode parts.now result }
{
    for i in 0..parts.len() {
        if parts[i].exec {
            return span_of(pages, parts, i);
        }
    }
    CellRun {
        part: 0,
        start: parts[0].start,
        size: 0,
        at: 0,
    }
}

/// A memory that keeps its segments in pages of 4,096 bytes, found by number in constant time.
///
/// The bytes of a segment are mostly contiguous among those of the pages, and then an access needs no page. Loads and
/// stores try the span of the stack first, fetches that of the first executable segment, and accesses of the host that
/// of the pool.
#[derive(Drop)]
pub struct PagedBus {
    pages: Pages,
    parts: Vec<SegmentInfo>,
    stack: CellRun,
    pool: CellRun,
    code: CellRun,
    guards: Guards,
    ghost sound: { ArePages pages },
    ghost used: { AreUsed pages },
    ghost owned: { AreOwned (owner_of pages) parts.items },
    ghost stack_span: { IsSpan pages.places parts.items stack },
    ghost pool_span: { IsSpan pages.places parts.items pool },
    ghost code_span: { IsSpan pages.places parts.items code },
    ghost stack_open: { IsOpen parts.items stack },
    ghost code_runs: { IsCode parts.items code },
    ghost mapped: { AreSegments (segments_at (byte_of pages) parts.items) },
    ghost rising: { AreGuards guards } by { AreGuards-prop guards },
}

impl PagedBus {
    ghost use Rattle.mem_buses.specs.Paged.{memory_of};

    /// A memory of these segments, the pool and the stack, without guards. All memory is allocated here; Err if it runs
    /// out.
    pub fn build(alloc: Global, segments: &[SegmentSpec]) -> Result<PagedBus, BusMemory>
        requires { CanBuild segments.now }
        ensures memory { IfOk result (λ bus. memory_of bus ≡ initial_memory segments.now) }
        ensures gives { IfOk result (λ bus. GivesImage segments.now (memory_of bus)) }
    {
        let guards = Guards::new(alloc)?;
        let laid = lay_all(alloc, segments)?;
        let stack = span_of(&laid.pages, &laid.parts, 0);
        let pool = span_of(&laid.pages, &laid.parts, 1);
        let code = code_span(&laid.pages, &laid.parts);
        Ok(PagedBus {
            pages: laid.pages,
            parts: laid.parts,
            stack,
            pool,
            code,
            guards,
        })
    }

    /// Stores a byte.
    fn put8(&mut self, a: u32, v: u8) -> Result<(), BusFault>
        ensures { (result, memory_of self.new) ≡ store 1 (memory_of self.old) a v }
    {
        let found = store_cell(&self.pages, &self.parts, &self.stack, &self.guards, a, 1)?;
        self.pages.store8(found.at, v);
        Ok(())
    }

    /// Stores a halfword.
    fn put16(&mut self, a: u32, v: u16) -> Result<(), BusFault>
        ensures { (result, memory_of self.new) ≡ store 2 (memory_of self.old) a v }
    {
        let found = store_cell(&self.pages, &self.parts, &self.stack, &self.guards, a, 2)?;
        self.pages.store16(found.at, v);
        Ok(())
    }

    /// Stores a word.
    fn put32(&mut self, a: u32, v: u32) -> Result<(), BusFault>
        ensures { (result, memory_of self.new) ≡ store 4 (memory_of self.old) a v }
    {
        let found = store_cell(&self.pages, &self.parts, &self.stack, &self.guards, a, 4)?;
        self.pages.store32(found.at, v);
        Ok(())
    }

    /// Stores words at ascending addresses, or none of them. A run of unguarded words in the span of the stack needs no
    /// look-up.
    fn put_run(&mut self, a: u32, words: &[u32]) -> Result<(), BusFault>
        ensures { (result, memory_of self.new) ≡ store_run (memory_of self.old) a words.now }
    {
        if is_near_run(&self.stack, &self.guards, a, words.len()) {
            write_near(&mut self.pages, &self.parts, &self.stack, a, words);
            return Ok(());
        }
        self.store_each(a, words)
    }

    /// The same, looking up each word.
    #[cold]
    #[inline(never)]
    fn store_each(&mut self, a: u32, words: &[u32]) -> Result<(), BusFault>
        ensures { (result, memory_of self.new) ≡ store_run (memory_of self.old) a words.now }
    {
        if let Some(fault) = run_fault(
            &self.pages,
            &self.parts,
            &self.stack,
            &self.guards,
            a,
            words,
        ) {
            return Err(fault);
        }
        run_write(&mut self.pages, &self.parts, &self.stack, a, words);
        Ok(())
    }

    /// Stores a word of the pool.
    fn put_host(&mut self, a: u32, v: u32)
        requires { a % 4 ≡ 0 }
        ensures { memory_of self.new ≡ host_store (memory_of self.old) a v }
    {
        write_word(&mut self.pages, &self.parts, &self.pool, a, v);
    }

    /// The number of pages that contain a byte of a segment.
    pub fn page_count(&self) -> usize
        ensures { (numbers : List ℕ) × (ArePageNumbers (memory_of self.now) numbers × (result ≡ length numbers)) }
    {
        self.pages.count()
    }

    /// The current 4,096 bytes of the page with this number; None if it contains no byte of a segment.
    pub fn page(&self, number: u32) -> Option<&[u8]>
        ensures bytes { IfSome result (λ bytes. IsPage (memory_of self.now) number bytes.now) }
        ensures some { IfSome result (λ bytes. HasPage (memory_of self.now) number) }
        ensures none { IfNone result (HasPage (memory_of self.now) number → ⊥) }
    {
        let Some(place) = self.pages.place(number as usize) else {
            return None;
        };
        Some(self.pages.page(place))
    }
}

impl Bus for PagedBus {
    ghost use Rattle.mem_buses.specs.Paged.{memory_of};

    ghost memory = { memory_of };

    fn load8(&self, a: u32) -> Result<u8, BusFault> {
        Ok(
            self.pages
                .load8(load_cell(&self.pages, &self.parts, &self.stack, a, 1)?),
        )
    }

    fn load16(&self, a: u32) -> Result<u16, BusFault> {
        Ok(
            self.pages
                .load16(load_cell(&self.pages, &self.parts, &self.stack, a, 2)?),
        )
    }

    fn load32(&self, a: u32) -> Result<u32, BusFault> {
        Ok(
            self.pages
                .load32(load_cell(&self.pages, &self.parts, &self.stack, a, 4)?),
        )
    }

    fn store8(&mut self, a: u32, v: u8) -> Result<(), BusFault> {
        self.put8(a, v)
    }

    fn store16(&mut self, a: u32, v: u16) -> Result<(), BusFault> {
        self.put16(a, v)
    }

    fn store32(&mut self, a: u32, v: u32) -> Result<(), BusFault> {
        self.put32(a, v)
    }

    fn store_run(&mut self, a: u32, words: &[u32]) -> Result<(), BusFault> {
        self.put_run(a, words)
    }

    fn fetch16(&self, a: u32) -> Result<u16, BusFault> {
        Ok(
            self.pages
                .load16(fetch_cell(&self.pages, &self.parts, &self.code, a)?),
        )
    }

    fn guard(&mut self, a: u32) {
        self.guards.insert(a);
    }

    fn release_below(&mut self, a: u32) {
        self.guards.release_from(STACK_START, a);
    }

    fn host_load32(&self, a: u32) -> u32 {
        read_word(&self.pages, &self.parts, &self.pool, a)
    }

    fn host_store32(&mut self, a: u32, v: u32) {
        self.put_host(a, v);
    }

    fn home(&self) -> (u32, u32) {
        (STACK_START, STACK_END)
    }

    ghost is_map = { λ bus. record { segments = bus.mapped; guards = bus.rising; home = flat_home } };
}
