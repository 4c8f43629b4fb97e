//! The limits of an image, and the test of its entry (docs/rules/elf.md).
ghost use Rattle.elf_image.specs.declared.limits.TheConstants.{ADDRESS_LIMIT, MEMORY_LIMIT, SEGMENT_LIMIT, SYMBOL_LIMIT};
ghost use Rattle.std.specs.Prelude.{◌≡◌, ◌≤◌, length, sum_by, nat_lt, nat_eq, ◌||◌, Some, None, Option};
ghost use Rattle.std.specs.List.{list_any};
ghost use Rattle.elf_image.specs.Image.{entry_refusal};

use crate::fault::ImageFault;
use crate::function::Function;
use crate::segment::Segment;

/// All addresses of an image are below this.
pub const ADDRESS_LIMIT: u64 = 0x3000_0000;
/// The most bytes of memory that all segments may have together.
pub const MEMORY_LIMIT: u64 = 1_048_576;
/// The most segments.
pub const SEGMENT_LIMIT: usize = 1024;
/// The most symbols, the null symbol included.
pub const SYMBOL_LIMIT: usize = 65_536;
/// The most functions.
pub const FUNCTION_LIMIT: usize = 4096;

/// The bytes of memory of all segments together.
fn memory(segments: &[Segment]) -> u64
    requires { sum_by (λ s. s.size) segments.now ≤ ADDRESS_LIMIT }
    ensures { result ≡ sum_by (λ s. s.size) segments.now }
{
    let mut total = 0;
    for s in segments {
        total += u64::from(s.size);
    }
    total
}

/// Whether the segments or the number of symbols exceed the limits.
pub(crate) fn is_too_large(segments: &[Segment], symbols: usize) -> bool
    requires { sum_by (λ s. s.size) segments.now ≤ ADDRESS_LIMIT }
    ensures { result ≡ (nat_lt MEMORY_LIMIT (sum_by (λ s. s.size) segments.now) || nat_lt SEGMENT_LIMIT (length segments.now) || nat_lt SYMBOL_LIMIT symbols) }
{
    memory(segments) > MEMORY_LIMIT || segments.len() > SEGMENT_LIMIT || symbols > SYMBOL_LIMIT
}

/// Whether a function begins at an address.
fn is_start(f: &Function, a: u32) -> bool
    ensures { result ≡ nat_eq f.now.start a }
{
    f.start == a
}

/// Whether some function begins at an address.
fn has_start(functions: &[Function], a: u32) -> bool
    ensures { result ≡ list_any (λ f. nat_eq f.start a) functions.now }
{
    functions.iter().any(|f| is_start(f, a))
}

/// Entry if bit 0 of the entry field is clear or no function begins there, else None.
#[tactic(auto, unfolding(crate::specs::Image::entry_refusal))]
pub(crate) fn entry_refusal(field: u32, functions: &[Function]) -> Option<ImageFault>
    ensures { result ≡ entry_refusal field functions.now }
{
    if field % 2 != 1 {
        return Some(ImageFault::Entry);
    }
    if has_start(functions, field - 1) {
        None
    } else {
        Some(ImageFault::Entry)
    }
}
