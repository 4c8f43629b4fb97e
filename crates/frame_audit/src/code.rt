//! Code that is in no function, which the checker never looks at (docs/guide/audit.md, "Code in no function").
ghost use Rattle.std.specs.Prelude.{◌≡◌, ◌*◌, ◌≤◌, if◌then◌else◌};
ghost use Rattle.elf_image.specs.Segments.{segment_end};
ghost use Rattle.elf_image.specs.declared.limits.TheConstants.{ADDRESS_LIMIT};
ghost use Rattle.frame_audit.specs.Code.{is_stray, halfwords_in, stray_bytes};

use elf_image::{Image, Segment};

/// The size of a halfword of code, in bytes.
pub const HALFWORD: u64 = 2;

/// Whether a halfword of code begins at an address, and the address is in no function.
fn is_stray(image: &Image, a: u32) -> bool
    ensures { result ≡ is_stray image.now a }
{
    image.is_code(a) && image.function_of(a).is_none()
}

/// 1 if `is_stray` holds at an address, else 0.
fn stray_at(image: &Image, a: u32) -> u32
    ensures { result ≡ (if is_stray image.now a then 1 else 0) }
{
    if is_stray(image, a) { 1 } else { 0 }
}

/// How many such halfwords a segment has.
fn stray_in(image: &Image, segment: &Segment) -> u32
    requires { segment_end segment.now ≤ ADDRESS_LIMIT }
    ensures { result ≡ halfwords_in (is_stray image.now) segment.now }
{
    let mut count = 0u32;
    for a in segment.start..segment.start + segment.size {
        count += stray_at(image, a);
    }
    count
}

/// The number of bytes of code that are in no function.
pub fn stray_bytes(image: &Image) -> u64
    ensures { result ≡ stray_bytes image.now }
{
    let mut count = 0u64;
    for segment in image.segments() {
        count += u64::from(stray_in(image, segment));
    }
    HALFWORD * count
}
