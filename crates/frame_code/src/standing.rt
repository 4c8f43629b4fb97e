//! What is at an address of an image. docs/rules/acceptance.md, "Places".
ghost use Rattle.std.specs.Prelude.{◌≡◌, ◌+◌, ◌*◌, ◌-◌, ◌<◌, ◌^◌, slice_index};
ghost use Rattle.frame_code.specs.Standing.{halfword_in, halfword_at, standing_of_decoded, standing_by};

use elf_image::image::Image;
use elf_image::segment::Segment;
use thumb_isa::decode::{decode_for, is_wide};
use thumb_isa::instr::{Decoded, Instr};
use thumb_isa::profile::Profile;

/// The top byte of UDF, which the manual leaves undefined permanently.
pub const UDF: u16 = 0b1101_1110;

/// What is at a place of a function.
#[derive(Clone, Copy)]
pub enum Standing {
    /// An instruction, and its size in bytes, 2 or 4.
    Instruction(Instr, u32),
    /// UDF: executing it is a trap.
    Udf,
    /// No instruction, or one whose second halfword isn't code of the function, or no code of the function.
    Nothing,
}

/// The byte at an offset of a segment; 0 past the file bytes.
fn byte_at(segment: &Segment, at: usize) -> u8
    ensures { result ≡ slice_index segment.now.bytes at }
{
    let bytes = segment.bytes();
    if at < bytes.len() { bytes[at] } else { 0 }
}

/// The halfword at an address of a segment; None if the segment doesn't contain it.
fn halfword_in(segment: &Segment, a: u32) -> Option<u16>
    ensures { result ≡ halfword_in a segment.now }
{
    let end = u64::from(segment.start()) + u64::from(segment.size());
    if end < u64::from(a) + 2 {
        return None;
    }
    let at = a.saturating_sub(segment.start()) as usize;
    Some(u16::from(byte_at(segment, at)) + 256 * u16::from(byte_at(segment, at + 1)))
}

/// The halfword at an address of an image; None if no segment contains it.
pub fn halfword_at(image: &Image, a: u32) -> Option<u16>
    ensures { result ≡ halfword_at image.now a }
{
    let segment = image.segment_at(a)?;
    halfword_in(segment, a)
}

fn standing_of_decoded(decoded: Decoded) -> Standing
    ensures { result ≡ standing_of_decoded decoded }
{
    match decoded {
        Decoded::Is(i, size) => Standing::Instruction(i, size),
        Decoded::Undefined | Decoded::Unpredictable | Decoded::NotInProfile => Standing::Nothing,
    }
}

/// What is at a place, from its halfword and that of the next place, by the instructions of a profile.
pub fn standing_by(profile: Profile, first: Option<u16>, second: Option<u16>) -> Standing
    ensures { result ≡ standing_by profile first second }
{
    let Some(first) = first else {
        return Standing::Nothing;
    };
    if first >> 8 == UDF {
        return Standing::Udf;
    }
    if !is_wide(first) {
        return standing_of_decoded(decode_for(profile, first, 0));
    }
    match second {
        None => Standing::Nothing,
        Some(second) => standing_of_decoded(decode_for(profile, first, second)),
    }
}
