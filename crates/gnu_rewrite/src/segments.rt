//! The segments of a rewritten image: those of the image, and a new one with the tables and the rows of the index. docs/rules/gnu-tables.md
//! states the rules.
ghost use Rattle.std.specs.Prelude.{◌≡◌, max, ◌^◌, ◌<◌, ◌≤◌, ◌++◌, length, map, IfOk, OnOk};
ghost use Rattle.elf_image.specs.Segments.{RiseFrom};
ghost use Rattle.elf_image.specs.declared.limits.TheConstants.{ADDRESS_LIMIT};
ghost use Rattle.gnu_rewrite.specs.Segments.{greatest_end, tables_start, kept_segment, segment_from};

use eh_word::bytes::next_multiple_32;
use elf_image::{Image, Segment};
use elf_write::parts::{OwnBytes, OwnSegment};
use std::alloc::{AllocError, Global};

/// The new segment starts at a multiple of this number of bytes.
pub const SEGMENT_STEP: u32 = 4096;

/// The greater one of two numbers.
fn greater(a: u32, b: u32) -> u32
    ensures { result ≡ max a b }
{
    if a < b { b } else { a }
}

/// The highest end of a segment in memory.
#[tactic(auto, using(crate::proofs::Ends::ends))]
fn greatest_end(segments: &[Segment]) -> u32
    requires { RiseFrom 0 segments.now }
    ensures end { result ≡ greatest_end segments.now }
    ensures low { result ≤ ADDRESS_LIMIT }
{
    let mut end = 0;
    for s in segments {
        end = greater(end, s.start() + s.size());
    }
    end
}

/// The address of the new tables: the first multiple of 4,096 above the image.
pub(crate) fn tables_start(image: &Image) -> u32
    ensures start { result ≡ tables_start image.now }
    ensures low { result ≤ ADDRESS_LIMIT }
{
    next_multiple_32(greatest_end(image.segments()), SEGMENT_STEP)
}

/// A copy of a segment of the image, with its bytes.
fn kept_segment(alloc: Global, s: &Segment) -> Result<OwnSegment, AllocError>
    ensures { IfOk result (λ t. t ≡ kept_segment s.now) }
{
    Ok(OwnSegment {
        start: s.start(),
        bytes: OwnBytes::of_vec(Vec::from_slice(alloc, s.bytes())?),
        size: s.size(),
        write: s.may_write(),
        exec: s.may_execute(),
    })
}

/// Adds a read-only segment with these bytes, if there are any.
fn push_segment(
    segments: &mut Vec<OwnSegment>,
    start: u32,
    bytes: Vec<u8>,
) -> Result<(), AllocError>
    requires { length bytes.items < 2 ^ 32 }
    ensures { OnOk result (segments.new.items ≡ segments.old.items ++ segment_from start bytes.items) }
{
    let size = bytes.len() as u32;
    if size != 0 {
        segments.push(OwnSegment {
            start,
            bytes: OwnBytes::of_vec(bytes),
            size,
            write: false,
            exec: false,
        })?;
    }
    Ok(())
}

/// Copies of segments.
fn kept_segments(alloc: Global, all: &[Segment]) -> Result<Vec<OwnSegment>, AllocError>
    ensures { IfOk result (λ v. v.items ≡ map kept_segment all.now) }
{
    let mut segments = Vec::new(alloc);
    for s in all {
        segments.push(kept_segment(alloc, s)?)?;
    }
    Ok(segments)
}

/// The segments of the image, and a read-only one with these bytes, if there are any.
pub(crate) fn segments_with(
    alloc: Global,
    image: &Image,
    start: u32,
    bytes: Vec<u8>,
) -> Result<Vec<OwnSegment>, AllocError>
    requires { length bytes.items < 2 ^ 32 }
    ensures { IfOk result (λ v. v.items ≡ map kept_segment image.now.segments ++ segment_from start bytes.items) }
{
    let mut segments = kept_segments(alloc, image.segments())?;
    push_segment(&mut segments, start, bytes)?;
    Ok(segments)
}
