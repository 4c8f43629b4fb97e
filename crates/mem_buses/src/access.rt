//! Finds the segment of an access, and its fault in the order of docs/rules/memory.md.
ghost use Rattle.std.specs.Prelude.{◌≡◌, ℕ, ◌+◌, ◌*◌, ◌%◌, ◌^◌, ◌<◌, ◌≤◌, ◌==◌, length, Some, None, IfOk, IfErr, Option, IsTrue};
ghost use Rattle.eh_bus.specs.Segment.{Segment as Bytes, holds, number_at};
ghost use Rattle.eh_bus.specs.Memory.{load_fault, store_fault, fetch_fault, fault_in, number_in, is_closed, is_open_word, run_fault, store_words, store_number};
ghost use Rattle.eh_bus.specs.Map.{AreApart, AreSegments};
ghost use Rattle.eh_bus.specs.Place.{IsPlace, IsWidth};

use crate::segment::BusSegment;
use crate::segments::Segments;
use eh_bus::fault::BusFault;
use eh_bus::map::{CLOSED_SIZE, OPEN_WORD, POOL_END, POOL_START, SLOT_SIZE};
use mem_guards::guards::Guards;

/// Whether the byte at `a` is in a closed part of the pool.
fn is_closed(a: u32) -> bool
    ensures { result ≡ is_closed a }
{
    (POOL_START..POOL_END).contains(&a) && a % SLOT_SIZE < CLOSED_SIZE
}

/// Whether the `n` bytes from `a` on lie in the one word of a closed part that may be loaded: word 2 of the barrier.
fn is_open_word(n: u32, a: u32) -> bool
    requires { n ≤ 4 }
    ensures { result ≡ is_open_word n a }
{
    OPEN_WORD <= a % SLOT_SIZE && a % SLOT_SIZE + n <= OPEN_WORD + 4
}

/// Whether `a` is a multiple of the access size.
#[tactic(auto, using(eh_bus::proofs::AccessLaws::width_mask))]
pub(crate) fn is_aligned(a: u32, n: u32) -> bool
    requires { IsWidth n }
    ensures { result ≡ (a % n == 0) }
{
    // n may not be constant here, and a division is slow
    (a & (n - 1)) == 0
}

/// The fault of a load of `n` bytes that lie in a segment, or None.
pub(crate) fn load_fault(n: u32, a: u32) -> Option<BusFault>
    requires { IsWidth n }
    ensures { result ≡ load_fault n a }
{
    if !is_aligned(a, n) {
        Some(BusFault::Unaligned(a))
    } else if is_closed(a) && !is_open_word(n, a) {
        Some(BusFault::Protected(a))
    } else {
        None
    }
}

/// The fault of a fetch from a segment, or None; `exec` says whether the segment is executable.
pub(crate) fn fetch_fault(exec: bool, a: u32) -> Option<BusFault>
    ensures { (s : Bytes) → s.exec ≡ exec → result ≡ fetch_fault s a }
{
    if !is_aligned(a, 2) {
        Some(BusFault::Unaligned(a))
    } else if !exec {
        Some(BusFault::NotExecutable(a))
    } else {
        None
    }
}

/// The fault of a store of `n` bytes that lie in a segment, or None; `write` says whether the segment is writable.
pub(crate) fn store_fault(n: u32, guards: &Guards, write: bool, a: u32) -> Option<BusFault>
    requires { IsWidth n }
    ensures { (s : Bytes) → s.write ≡ write → result ≡ store_fault n guards.now s a }
{
    if !is_aligned(a, n) {
        return Some(BusFault::Unaligned(a));
    }
    if !write {
        return Some(BusFault::ReadOnly(a));
    }
    if let Some(g) = guards.guard_hit(a, n) {
        return Some(BusFault::SavedSlot(g));
    }
    if is_closed(a) {
        return Some(BusFault::Protected(a));
    }
    None
}

/// The segment of a load of `n` bytes, or the load's fault.
pub(crate) fn load_place(segments: &Segments, a: u32, n: u32) -> Result<&BusSegment, BusFault>
    requires { IsWidth n }
    ensures place { IfOk result (λ s. IsTrue (holds s.now a n) × (number_in n segments.now a ≡ number_at n s.now a)) }
    ensures ok { IfOk result (λ i. fault_in (λ s. load_fault n a) n segments.now a ≡ None) }
    ensures fault { IfErr result (λ fault. fault_in (λ s. load_fault n a) n segments.now a ≡ Some fault) }
{
    let Some(i) = segments.segment_holding(a, n) else {
        return Err(BusFault::Unmapped(a));
    };
    let segment = segments.get(i);
    match load_fault(n, a) {
        Some(fault) => Err(fault),
        None => Ok(segment),
    }
}

/// The segment of a fetch, or the fetch's fault.
pub(crate) fn fetch_place(segments: &Segments, a: u32) -> Result<&BusSegment, BusFault>
    requires { AreApart segments.now }
    ensures place { IfOk result (λ s. IsTrue (holds s.now a 2) × (number_in 2 segments.now a ≡ number_at 2 s.now a)) }
    ensures ok { IfOk result (λ i. fault_in (λ s. fetch_fault s a) 2 segments.now a ≡ None) }
    ensures fault { IfErr result (λ fault. fault_in (λ s. fetch_fault s a) 2 segments.now a ≡ Some fault) }
{
    let Some(i) = segments.segment_holding_code(a) else {
        return Err(BusFault::Unmapped(a));
    };
    let segment = segments.get(i);
    match fetch_fault(segment.may_execute(), a) {
        Some(fault) => Err(fault),
        None => Ok(segment),
    }
}

/// The segment of a store of 1, 2 or 4 bytes, or the store's fault.
pub(crate) fn store_place(
    segments: &Segments,
    guards: &Guards,
    a: u32,
    n: u32,
) -> Result<usize, BusFault>
    requires { IsWidth n }
    ensures place { IfOk result (IsPlace n segments.now a) }
    ensures ok { IfOk result (λ i. fault_in (λ s. store_fault n guards.now s a) n segments.now a ≡ None) }
    ensures fault { IfErr result (λ fault. fault_in (λ s. store_fault n guards.now s a) n segments.now a ≡ Some fault) }
{
    let Some(i) = segments.segment_holding(a, n) else {
        return Err(BusFault::Unmapped(a));
    };
    match store_fault(n, guards, segments.get(i).may_write(), a) {
        Some(fault) => Err(fault),
        None => Ok(i),
    }
}

/// The fault of a word store, or None.
fn word_fault(segments: &Segments, guards: &Guards, a: u32) -> Option<BusFault>
    ensures { result ≡ fault_in (λ s. store_fault 4 guards.now s a) 4 segments.now a }
{
    match store_place(segments, guards, a, 4) {
        Ok(_) => None,
        Err(fault) => Some(fault),
    }
}

/// The fault of the first word of a run that can't be stored, or None.
#[tactic(auto, using(crate::proofs::Places::run_fault_at))]
pub(crate) fn run_fault(
    segments: &Segments,
    guards: &Guards,
    a: u32,
    words: &[u32],
) -> Option<BusFault>
    ensures { result ≡ run_fault guards.now segments.now a words.now }
{
    let mut at = a;
    for _word in words {
        if let Some(fault) = word_fault(segments, guards, at) {
            return Some(fault);
        }
        at = at.wrapping_add(4);
    }
    None
}

/// Stores a word if a segment contains it.
#[tactic(auto, using(crate::proofs::Places::unwritten))]
pub(crate) fn write_word(segments: &mut Segments, a: u32, v: u32)
    ensures written { segments.new ≡ store_number 4 segments.old a v }
    ensures kept { AreSegments segments.old → AreSegments segments.new }
{
    if let Some(i) = segments.segment_holding(a, 4) {
        segments.write32(i, a, v);
    }
}

/// Stores the words of a run.
pub(crate) fn run_write(segments: &mut Segments, a: u32, words: &[u32])
    ensures written { segments.new ≡ store_words segments.old a words.now }
    ensures kept { AreSegments segments.old → AreSegments segments.new }
{
    let mut at = a;
    for word in words {
        write_word(segments, at, *word);
        at = at.wrapping_add(4);
    }
}

/// The word at `a`, or 0 if no segment contains it.
#[tactic(auto, using(crate::proofs::Places::unread))]
pub(crate) fn read_word(segments: &Segments, a: u32) -> u32
    ensures { result ≡ number_in 4 segments.now a }
{
    match segments.segment_holding(a, 4) {
        Some(i) => {
            let segment = segments.get(i);
            segment.load32(a)
        }
        None => 0,
    }
}
