//! Finds the segment of an address by binary search (docs/rules/elf.md).
ghost use Rattle.elf_image.specs.declared.limits.TheConstants.{ADDRESS_LIMIT};
ghost use Rattle.std.specs.Prelude.{◌≡◌, ◌+◌, ◌<◌, ◌≤◌, length, nat_le, IfSome, option_copied};
ghost use Rattle.std.specs.List.{prefix_len, position_from};
ghost use Rattle.elf_image.specs.Segments.{RiseFrom, holds, segment_end};
ghost use Rattle.elf_image.specs.Functions.{segment_at};

use crate::segment::Segment;

/// How many segments begin at or below `a`.
fn segments_up_to(segments: &[Segment], a: u32) -> usize
    requires { RiseFrom 0 segments.now }
    ensures count { result ≡ prefix_len (λ s. nat_le s.start a) segments.now }
    ensures within { result ≤ length segments.now }
{
    segments.partition_point(|s| s.start <= a)
}

/// The number of the segment that contains an address, or None.
#[tactic(auto, using(crate::proofs::Lookups::segment_numbers))]
pub(crate) fn segment_number(segments: &[Segment], a: u32) -> Option<usize>
    requires { RiseFrom 0 segments.now }
    ensures number { result ≡ position_from (holds a) 0 segments.now }
    ensures inside { IfSome result (λ i. i < length segments.now) }
{
    let count = segments_up_to(segments, a);
    if count == 0 {
        return None;
    }
    let segment = &segments[count - 1];
    if u64::from(a) < u64::from(segment.start) + u64::from(segment.size) {
        Some(count - 1)
    } else {
        None
    }
}

/// The segment that contains an address, or None.
#[tactic(auto, using(crate::proofs::Lookups::segment_lookups))]
pub(crate) fn segment_at<'b, 'a>(segments: &'b [Segment<'a>], a: u32) -> Option<&'b Segment<'a>>
    requires { RiseFrom 0 segments.now }
    ensures found { option_copied result ≡ segment_at segments.now a }
    ensures fits { IfSome result (λ s. segment_end s.now ≤ ADDRESS_LIMIT) }
{
    let number = segment_number(segments, a)?;
    Some(&segments[number])
}
