//! Reads the exception index (IHI 0038; docs/rules/elf.md).
ghost use Rattle.std.specs.Prelude.{◌≡◌, IfOk, IfErr, Some, None, filter, Ok, Err, IfNone, IfSome, true, false, find};
ghost use Rattle.std.specs.List.{list_any};
ghost use Rattle.elf_image.specs.Index.{is_index, holds_index, index_bytes_in, index_refusal, index_of};
ghost use Rattle.elf_image.specs.Segments.{RiseFrom};

use crate::fault::ImageFault;
use crate::format::{PT_ARM_EXIDX, ProgramHeader};
use crate::segment::Segment;
use std::alloc::{AllocError, Global};

/// The program headers of exception indexes (PT_ARM_EXIDX).
pub(crate) fn index_headers(
    alloc: Global,
    headers: &[ProgramHeader],
) -> Result<Vec<ProgramHeader>, AllocError>
    ensures { IfOk result (λ v. v.items ≡ filter is_index headers.now) }
{
    headers
        .iter()
        .copied()
        .filter(|h| h.kind == PT_ARM_EXIDX)
        .collect(alloc)
}

/// Whether the segment is read-only and its file bytes contain the index, at a multiple of 4.
fn holds_index(h: &ProgramHeader, s: &Segment) -> bool
    ensures { result ≡ holds_index h.now s.now }
{
    !s.write
        && s.start <= h.address
        && u64::from(h.address) + u64::from(h.memory_size)
            <= u64::from(s.start) + s.bytes.len() as u64
        && h.address % 4 == 0
}

/// The bytes of an index, from the first segment that holds it; None if none does.
fn index_bytes<'a>(h: &ProgramHeader, segments: &[Segment<'a>]) -> Option<&'a [u8]>
    ensures none { IfNone result (list_any (holds_index h.now) segments.now ≡ false) }
    ensures there { IfSome result (λ b. list_any (holds_index h.now) segments.now ≡ true) }
    ensures bytes { IfSome result (λ b. b.now ≡ index_bytes_in h.now (find (holds_index h.now) segments.now)) }
{
    for s in segments {
        if holds_index(h, s) {
            let at = (h.address - s.start) as usize;
            return Some(&s.bytes[at..at + h.memory_size as usize]);
        }
    }
    None
}

/// The address and the bytes of the exception index; 0 and no bytes without one. IndexRange if it is refused.
#[tactic(auto, unfolding(crate::specs::Index::index_refusal, crate::specs::Index::index_of))]
pub(crate) fn index_of<'a>(
    headers: &[ProgramHeader],
    segments: &[Segment<'a>],
) -> Result<(u32, &'a [u8]), ImageFault>
    ensures accepted { IfOk result (λ i. index_refusal headers.now segments.now ≡ None) }
    ensures index { IfOk result (λ i. (i.0, i.1.now) ≡ index_of headers.now segments.now) }
    ensures refused { IfErr result (λ fault. index_refusal headers.now segments.now ≡ Some fault) }
{
    match headers {
        [] => Ok((0, &[])),
        [h] => match index_bytes(h, segments) {
            Some(bytes) => Ok((h.address, bytes)),
            None => Err(ImageFault::IndexRange),
        },
        _ => Err(ImageFault::IndexRange),
    }
}
