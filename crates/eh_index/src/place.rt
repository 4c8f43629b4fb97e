//! The places that rows may point to: code, and tables in read-only bytes (docs/rules/unwind-tables.md).
ghost use Rattle.elf_image.specs.Image.{IsSound};
ghost use Rattle.std.specs.Prelude.{drop, ◌-◌, Some, None, if◌then◌else◌, ◌≡◌, ◌&&◌, option_copied};
ghost use Rattle.std.specs.List.{list_any};
ghost use Rattle.elf_image.specs.Segments.{holds};
ghost use Rattle.eh_index.specs.Places.{holds_byte, is_code_bound, bytes_at};

use elf_image::image::Image;
use elf_image::segment::Segment;

/// Whether an executable segment contains the address.
#[tactic(auto, using(crate::proofs::Places::executing))]
fn executes(image: &Image, a: u32) -> bool
    ensures executes { result ≡ list_any (λ s. holds a s && s.exec) image.now.segments }
    ensures sound { IsSound image.now }
{
    match image.segment_at(a) {
        Some(segment) => segment.may_execute(),
        None => false,
    }
}

/// Whether the address lies in an executable segment, or at the end of one.
pub(crate) fn bounds_code(image: &Image, a: u32) -> bool
    ensures { result ≡ is_code_bound image.now.segments a }
{
    executes(image, a) || (a > 0 && executes(image, a - 1))
}

/// The file bytes of a read-only segment from an address on; None if it has none there.
#[inline(always)]
fn bytes_in<'a>(segment: &Segment<'a>, a: u32) -> Option<&'a [u8]>
    ensures { option_copied result ≡ (if holds_byte a segment.now then Some (drop (a - segment.now.start) segment.now.bytes) else None) }
{
    if segment.may_write() || a < segment.start() {
        return None;
    }
    let bytes = segment.bytes();
    let at = (a - segment.start()) as usize;
    if at < bytes.len() {
        Some(&bytes[at..])
    } else {
        None
    }
}

/// The file bytes from an address on, up to the end of those of the read-only segment that contains it. Tries the first segment, which
/// mostly has the tables, before a binary search over all.
#[tactic(auto, using(crate::proofs::Places::reading))]
pub(crate) fn bytes_at<'a>(image: &Image<'a>, a: u32) -> Option<&'a [u8]>
    ensures { option_copied result ≡ bytes_at image.now.segments a }
{
    if let [first, ..] = image.segments() {
        if let Some(bytes) = bytes_in(first, a) {
            return Some(bytes);
        }
    }
    let segment = image.segment_at(a)?;
    bytes_in(segment, a)
}

/// Whether a read-only segment has file bytes at the address.
pub(crate) fn has_bytes(image: &Image, a: u32) -> bool
    ensures { result ≡ list_any (holds_byte a) image.now.segments }
{
    match bytes_at(image, a) {
        Some(_) => true,
        None => false,
    }
}
