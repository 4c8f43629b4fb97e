//! The loaded segments: their tests and their order (docs/rules/elf.md).
ghost use Rattle.std.specs.Prelude.{◌≡◌, ◌+◌, ◌-◌, ◌^◌, ◌<◌, ◌≤◌, [], ◌∷◌, length, IfOk, IfSome, IfNone, MatchOption, OnOk, IsTrue, Option, Some, None, true, false, map, IfErr, All, filter, ◌≢◌};
ghost use Rattle.elf_image.specs.declared.fault.ImageFault.TheVariants.{OutOfMemory};
ghost use Rattle.std.specs.List.{list_any};
ghost use Rattle.std.specs.Map.{values_of, keys_of};
ghost use Rattle.std.specs.List.Sorted.{IsStrictlySortedBy};
ghost use Rattle.std.specs.Ordering.{nat_cmp};
ghost use Rattle.elf_image.specs.Format.{missing, part};
ghost use Rattle.elf_image.specs.Sorted.{overlap_from, Hold};
ghost use Rattle.elf_image.specs.Segments.{Segment as Bytes, holds, is_load, load_headers, bytes_refusal, is_out_of_range, some_overlap, segment_refusal, segment_of, segments_of, by_address, RiseFrom};

use crate::fault::ImageFault;
use crate::format::{PT_LOAD, ProgramHeader, missing};
use crate::limits::ADDRESS_LIMIT;
use std::alloc::{AllocError, Global};
use std::collections::BTreeMap;
use std::marker::Model;

/// A loaded segment: memory that begins with bytes of the file, then has zeros. Every segment is readable.
#[derive(Drop)]
pub struct Segment<'a> {
    /// The address of its first byte.
    pub start: u32,
    /// The bytes that the file gives, from `start` on.
    pub bytes: &'a [u8],
    /// The size in memory, in bytes.
    pub size: u32,
    /// Whether it is writable.
    pub write: bool,
    /// Whether it is executable.
    pub exec: bool,
}

impl<'a> Model for Segment<'a> {
    ghost use Rattle.elf_image.specs.Segments.{Segment as Bytes};

    ghost Value = { Bytes };

    ghost view = { λ s. record { start = s.start; bytes = s.bytes.now; size = s.size; write = s.write; exec = s.exec } };
}

/// The program headers of loaded segments: of type PT_LOAD, with memory.
#[tactic(auto, unfolding(crate::specs::Segments::load_headers))]
pub(crate) fn loads(
    alloc: Global,
    headers: &[ProgramHeader],
) -> Result<Vec<ProgramHeader>, AllocError>
    ensures { IfOk result (λ v. v.items ≡ filter is_load headers.now) }
{
    headers
        .iter()
        .copied()
        .filter(|h| h.kind == PT_LOAD && h.memory_size != 0)
        .collect(alloc)
}

/// Truncated for the first loaded segment whose bytes the file doesn't hold, else None.
fn bytes_refusal(bytes: &[u8], headers: &[ProgramHeader]) -> Option<ImageFault>
    ensures { result ≡ bytes_refusal bytes.now headers.now }
{
    for h in headers {
        if let Some(fault) = missing(bytes, u64::from(h.offset), u64::from(h.file_size)) {
            return Some(fault);
        }
    }
    None
}

/// Whether a header has a bad range.
fn is_out_of_range(h: &ProgramHeader) -> bool
    ensures { result ≡ is_out_of_range h.now }
{
    u64::from(h.address) + u64::from(h.memory_size) > ADDRESS_LIMIT || h.file_size > h.memory_size
}

/// Whether one of the headers has a bad range.
fn some_out_of_range(headers: &[ProgramHeader]) -> bool
    ensures { result ≡ list_any is_out_of_range headers.now }
{
    headers.iter().any(|h| is_out_of_range(h))
}

/// Whether a header begins below the end of the one before it, for headers in ascending order of their addresses.
fn overlap_from(headers: &[ProgramHeader]) -> bool
    ensures { result ≡ overlap_from 0 headers.now }
{
    let mut low = 0;
    for h in headers {
        if u64::from(h.address) < low {
            return true;
        }
        low = u64::from(h.address) + u64::from(h.memory_size);
    }
    false
}

/// The headers by address, or None if two have one address.
fn by_address(
    alloc: Global,
    headers: &[ProgramHeader],
) -> Result<Option<BTreeMap<u32, ProgramHeader>>, AllocError>
    requires { All (λ h. 0 < h.memory_size) headers.now }
    ensures found { IfOk result (λ o. IfSome o (λ m. (m.entries ≡ by_address headers.now) × Hold m.entries headers.now)) }
    ensures twice { IfOk result (λ o. IfNone o (some_overlap headers.now ≡ true)) }
{
    let mut entries = BTreeMap::new(alloc);
    for h in headers {
        if entries.contains_key(&h.address) {
            return Ok(None);
        }
        entries.insert(h.address, *h)?;
    }
    Ok(Some(entries))
}

/// The headers of a map, in its order.
fn values(
    alloc: Global,
    entries: BTreeMap<u32, ProgramHeader>,
) -> Result<Vec<ProgramHeader>, AllocError>
    ensures items { IfOk result (λ v. v.items ≡ values_of entries.entries) }
    ensures ordered { IsStrictlySortedBy nat_cmp (keys_of entries.entries) }
{
    entries.into_values().collect(alloc)
}

/// The headers in ascending order of their addresses, or None if two share a byte of memory.
#[tactic(auto, using(crate::proofs::Overlaps::sorted_overlap))]
fn sorted(
    alloc: Global,
    headers: &[ProgramHeader],
) -> Result<Option<Vec<ProgramHeader>>, AllocError>
    requires { All (λ h. 0 < h.memory_size) headers.now }
    ensures found { IfOk result (λ o. IfSome o (λ v. v.items ≡ values_of (by_address headers.now))) }
    ensures hold { IfOk result (λ o. IfSome o (λ v. Hold (by_address headers.now) headers.now)) }
    ensures apart { IfOk result (λ o. IfSome o (λ v. overlap_from 0 v.items ≡ false)) }
    ensures none { IfOk result (λ o. IfSome o (λ v. some_overlap headers.now ≡ false)) }
    ensures overlap { IfOk result (λ o. IfNone o (some_overlap headers.now ≡ true)) }
{
    let Some(entries) = by_address(alloc, headers)? else {
        return Ok(None);
    };
    let sorted = values(alloc, entries)?;
    if overlap_from(&sorted) {
        return Ok(None);
    }
    Ok(Some(sorted))
}

/// A part of the file, whose bytes must be there.
pub(crate) fn part<'a>(bytes: &'a [u8], at: u32, size: u32) -> &'a [u8]
    requires { missing bytes.now at size ≡ None }
    ensures { result.now ≡ part bytes.now at size }
{
    if size == 0 {
        return &bytes[..0];
    }
    &bytes[at as usize..at as usize + size as usize]
}

/// The segment of a header.
#[tactic(auto, unfolding(crate::specs::Segments::segment_of))]
fn loaded_segment<'a>(bytes: &'a [u8], h: &ProgramHeader) -> Segment<'a>
    requires { missing bytes.now h.now.offset h.now.file_size ≡ None }
    ensures { result ≡ segment_of bytes.now h.now }
{
    Segment {
        start: h.address,
        bytes: part(bytes, h.offset, h.file_size),
        size: h.memory_size,
        write: h.flags / 2 % 2 == 1,
        exec: h.flags % 2 == 1,
    }
}

/// The segments of headers whose bytes the file holds.
fn segments<'a>(
    alloc: Global,
    bytes: &'a [u8],
    headers: &[ProgramHeader],
) -> Result<Vec<Segment<'a>>, AllocError>
    requires { All (λ h. missing bytes.now h.offset h.file_size ≡ None) headers.now }
    ensures { IfOk result (λ v. v.items ≡ map (λ h. segment_of bytes.now h) headers.now) }
{
    let mut segments = Vec::with_capacity(alloc, headers.len())?;
    for h in headers {
        segments.push(loaded_segment(bytes, h))?;
    }
    Ok(segments)
}

/// The segments of the headers, in ascending order of their starts. Err with the first refusal.
#[tactic(auto, unfolding(crate::specs::Segments::segment_refusal))]
pub(crate) fn segments_of<'a>(
    alloc: Global,
    bytes: &'a [u8],
    loads: &[ProgramHeader],
) -> Result<Vec<Segment<'a>>, ImageFault>
    requires { All (λ h. 0 < h.memory_size) loads.now }
    ensures accepted { IfOk result (λ v. segment_refusal bytes.now loads.now ≡ None) }
    ensures segments { IfOk result (λ v. v.items ≡ segments_of bytes.now loads.now) }
    ensures rise { IfOk result (λ v. RiseFrom 0 v.items) }
    ensures refused { IfErr result (λ fault. fault ≢ OutOfMemory → segment_refusal bytes.now loads.now ≡ Some fault) }
{
    if let Some(fault) = bytes_refusal(bytes, loads) {
        return Err(fault);
    }
    if some_out_of_range(loads) {
        return Err(ImageFault::SegmentRange);
    }
    let Some(sorted) = sorted(alloc, loads)? else {
        return Err(ImageFault::SegmentOverlap);
    };
    let segments = segments(alloc, bytes, &sorted)?;
    Ok(segments)
}
