//! Words and names at addresses, read from the file bytes of an image's segments (docs/rules/types-and-matching.md).
ghost use Rattle.std.specs.Prelude.{◌≡◌, ◌+◌, ◌-◌, ◌*◌, ◌<◌, ◌≤◌, length, drop, if◌then◌else◌, ◌^◌, Some, None, IfSome, position, ◌==◌, MatchOption, option_copied, min, nat_le};
ghost use Rattle.std.specs.List.{prefix_len};
ghost use Rattle.byteorder.specs.Endian.{little_number};
ghost use Rattle.elf_image.specs.Image.{IsSound};
ghost use Rattle.elf_image.specs.Segments.{RiseFrom};
ghost use Rattle.elf_image.specs.Functions.{segment_at};
ghost use Rattle.eh_types.specs.Words.{has_bytes_at, room, word, words_from, name_at, name_in, text_of};

use byteorder::{ByteOrder, LittleEndian};
use elf_image::image::Image;
use elf_image::segment::Segment;

/// The size of a word, in bytes.
pub const WORD_SIZE: u64 = 4;

/// How many segments begin at or below an address.
fn segments_up_to(segments: &[Segment], a: u32) -> usize
    requires { RiseFrom 0 segments.now }
    ensures count { result ≡ prefix_len (λ s. nat_le s.start a) segments.now }
    ensures within { result ≤ length segments.now }
{
    segments.partition_point(|s| s.start() <= a)
}

/// The segment whose memory contains an address (binary search); None if there is none.
#[tactic(auto, using(crate::proofs::Reading::holders))]
fn segment_holding<'s, 'a>(segments: &'s [Segment<'a>], a: u32) -> Option<&'s Segment<'a>>
    requires { RiseFrom 0 segments.now }
    ensures { option_copied result ≡ segment_at segments.now a }
{
    let count = segments_up_to(segments, a);
    if count == 0 {
        return None;
    }
    let segment = &segments[count - 1];
    if u64::from(a) < u64::from(segment.start()) + u64::from(segment.size()) {
        Some(segment)
    } else {
        None
    }
}

/// The segment whose memory contains an address; None if there is none, as for every address from 2^32 on.
#[tactic(auto, using(crate::proofs::Reading::capped))]
fn segment_in<'s, 'a>(segments: &'s [Segment<'a>], a: u64) -> Option<&'s Segment<'a>>
    requires { RiseFrom 0 segments.now }
    ensures { option_copied result ≡ segment_at segments.now a }
{
    segment_holding(segments, a.min(u64::from(u32::MAX)) as u32)
}

/// The segment of an image whose memory contains an address; None if there is none.
fn segment_at<'i, 'a>(image: &'i Image<'a>, a: u64) -> Option<&'i Segment<'a>>
    ensures found { option_copied result ≡ segment_at image.now.segments a }
    ensures sound { IsSound image.now }
{
    segment_in(image.segments(), a)
}

/// How many file bytes of a segment there are from an address on.
fn room(segment: &Segment, a: u64) -> u64
    ensures { result ≡ room a segment.now }
{
    let start = u64::from(segment.start());
    if a < start {
        return 0;
    }
    (segment.bytes().len() as u64).saturating_sub(a - start)
}

/// The word at an address of a segment; 0 if the segment's file bytes don't contain all of it.
#[tactic(auto, using(crate::proofs::Reading::rooms))]
fn word_in(segment: &Segment, a: u64) -> u32
    ensures { result ≡ (if has_bytes_at WORD_SIZE a segment.now then little_number 4 (drop (a - segment.now.start) segment.now.bytes) else 0) }
{
    if room(segment, a) < WORD_SIZE {
        return 0;
    }
    let at = (a - u64::from(segment.start())) as usize;
    LittleEndian::read_u32(&segment.bytes()[at..])
}

/// The word at an address; 0 if there is none.
#[tactic(auto, using(crate::proofs::Reading::word_lookups))]
pub(crate) fn word_of(segments: &[Segment], a: u64) -> u32
    requires { RiseFrom 0 segments.now }
    ensures { result ≡ word segments.now a }
{
    match segment_in(segments, a) {
        Some(segment) => word_in(segment, a),
        None => 0,
    }
}

/// The word at an address of an image; 0 if there is none.
pub(crate) fn word(image: &Image, a: u64) -> u32
    ensures { result ≡ word image.now.segments a }
{
    word_of(image.segments(), a)
}

/// How many words of a segment there are from an address on, but at most `count`.
fn words_in(segment: &Segment, a: u64, count: u64) -> u64
    ensures room { WORD_SIZE * result ≤ room a segment.now }
    ensures asked { result ≤ count }
    ensures none { result ≡ 0 → 0 < count → room a segment.now < WORD_SIZE }
{
    (room(segment, a) / WORD_SIZE).min(count)
}

/// Whether one of `count` words from an address on is writable; None if one of them isn't in the image.
#[tactic(auto, using(crate::proofs::Reading::words_steps))]
pub(crate) fn words_from(image: &Image, a: u64, count: u64) -> Option<bool>
    requires { a < 2 ^ 32 }
    ensures { result ≡ words_from image.now.segments a count }
{
    let mut at = a;
    let mut left = count;
    let mut writable = false;
    while left > 0 {
        let segment = segment_at(image, at)?;
        let here = words_in(segment, at, left);
        if here == 0 {
            return None;
        }
        writable = writable || segment.may_write();
        at += WORD_SIZE * here;
        left -= here;
    }
    Some(writable)
}

/// The index of the first zero byte; None if there is none.
fn first_zero(bytes: &[u8]) -> Option<usize>
    ensures place { result ≡ position (λ b. b == 0) bytes.now }
    ensures within { IfSome result (λ end. end < length bytes.now) }
{
    bytes.iter().position(|b| *b == 0)
}

/// The bytes before the first zero byte; None if there is none.
#[tactic(auto, unfolding(crate::specs::Words::text_of))]
fn text_of(bytes: &[u8]) -> Option<&[u8]>
    ensures { option_copied result ≡ text_of bytes.now }
{
    let end = first_zero(bytes)?;
    Some(&bytes[..end])
}

/// The name at an address of a segment, and whether the segment is writable; None if its file bytes don't contain the zero byte at
/// the end.
#[tactic(auto, using(crate::proofs::Reading::rooms), unfolding(crate::specs::Words::name_in))]
fn name_in<'a>(segment: &Segment<'a>, a: u64) -> Option<(&'a [u8], bool)>
    ensures { MatchOption result (name_in a segment.now ≡ None) (λ n. name_in a segment.now ≡ Some (n.0.now, n.1)) }
{
    if room(segment, a) == 0 {
        return None;
    }
    let at = (a - u64::from(segment.start())) as usize;
    let text = text_of(&segment.bytes()[at..])?;
    Some((text, segment.may_write()))
}

/// The name at an address, and whether its segment is writable; None if no segment's file bytes contain the name with its zero
/// byte.
#[tactic(auto, using(crate::proofs::Reading::name_lookups))]
pub(crate) fn name_at<'a>(image: &Image<'a>, a: u32) -> Option<(&'a [u8], bool)>
    ensures { MatchOption result (name_at image.now.segments a ≡ None) (λ n. name_at image.now.segments a ≡ Some (n.0.now, n.1)) }
{
    let segment = segment_at(image, u64::from(a))?;
    name_in(segment, u64::from(a))
}
