//! Mapping symbols that tell which addresses of an image are code. docs/rules/gnu-tables.md states the rule.
ghost use Rattle.std.specs.Prelude.{◌≡◌, ◌+◌, ◌≤◌, ◌++◌, OnOk, IfOk};
ghost use Rattle.std.specs.List.{flat_map};
ghost use Rattle.elf_image.specs.declared.limits.TheConstants.{ADDRESS_LIMIT};
ghost use Rattle.elf_image.specs.Segments.{RiseFrom, segment_end};
ghost use Rattle.gnu_rewrite.specs.Marks.{turns, is_marked, marks_from, marks_in, marks_of};

use elf_image::{Image, Segment};
use std::alloc::{AllocError, Global};

/// Whether exactly one of an address and the address two bytes below it is code.
fn turns(image: &Image, a: u32) -> bool
    requires { 2 ≤ a }
    ensures { result ≡ turns image.now a }
{
    image.is_code(a) != image.is_code(a - 2)
}

/// Whether an address of a segment needs a mark: the first even one, and where code begins or ends.
fn is_marked(image: &Image, start: u32, a: u32) -> bool
    requires { start ≤ ADDRESS_LIMIT }
    ensures { result ≡ is_marked image.now start a }
{
    a % 2 == 0 && (a < start + 2 || turns(image, a))
}

/// Adds the marks of the `size` bytes from `start` on.
#[tactic(auto, using(crate::proofs::Marking::marking))]
fn push_from(
    marks: &mut Vec<(u32, bool)>,
    image: &Image,
    start: u32,
    size: u32,
) -> Result<(), AllocError>
    requires { start + size ≤ ADDRESS_LIMIT }
    ensures { OnOk result (marks.new.items ≡ marks.old.items ++ marks_from image.now start size) }
{
    for k in 0..size {
        let a = start + k;
        if is_marked(image, start, a) {
            marks.push((a, image.is_code(a)))?;
        }
    }
    Ok(())
}

/// Adds the marks of a segment, if it is executable.
fn push_in(marks: &mut Vec<(u32, bool)>, image: &Image, s: &Segment) -> Result<(), AllocError>
    requires { segment_end s.now ≤ ADDRESS_LIMIT }
    ensures { OnOk result (marks.new.items ≡ marks.old.items ++ marks_in image.now s.now) }
{
    if s.may_execute() {
        push_from(marks, image, s.start(), s.size())?;
    }
    Ok(())
}

/// The marks of segments.
fn marks_along(
    alloc: Global,
    image: &Image,
    segments: &[Segment],
) -> Result<Vec<(u32, bool)>, AllocError>
    requires { RiseFrom 0 segments.now }
    ensures { IfOk result (λ v. v.items ≡ flat_map (marks_in image.now) segments.now) }
{
    let mut marks = Vec::new(alloc);
    for s in segments {
        push_in(&mut marks, image, s)?;
    }
    Ok(marks)
}

/// The marks of an image: addresses, each with whether code begins there. Two binary searches for each even executable address.
#[tactic(auto, unfolding(crate::specs::Marks::marks_of))]
pub(crate) fn marks_of(alloc: Global, image: &Image) -> Result<Vec<(u32, bool)>, AllocError>
    ensures { IfOk result (λ v. v.items ≡ marks_of image.now) }
{
    marks_along(alloc, image, image.segments())
}
