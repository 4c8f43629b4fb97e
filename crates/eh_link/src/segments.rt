//! Builds the segments of an image (docs/rules/linking.md).
ghost use Rattle.std.specs.Prelude.{◌≡◌, ◌++◌, ◌∷◌, [], ◌≤◌, ◌+◌, map, IfOk, OnOk};
ghost use Rattle.eh_link.specs.Fields.{part_in};
ghost use Rattle.eh_link.specs.Layout.{Rises};
ghost use Rattle.eh_link.specs.Linked.{join_aligned, code_bytes, data_bytes, segments_of};

use crate::fill::{FilledSections, part_in};
use crate::places::{CODE_START, ImageLayout};
use asm_relocatable::place::Section;
use eh_word::bytes::{gap, push_zeros};
use elf_write::parts::{OwnBytes, OwnSegment};
use std::alloc::{AllocError, Global};

/// Appends a part at the next multiple of 4.
fn put_part(out: &mut Vec<u8>, part: &[u8]) -> Result<(), AllocError>
    ensures { OnOk result (out.new.items ≡ join_aligned out.old.items (part.now ∷ [])) }
{
    let len = out.len();
    push_zeros(out, gap(len as u64, 4) as usize)?;
    out.extend_from_slice(part)
}

/// Appends all parts of a section, each at the next multiple of 4.
fn put_parts(out: &mut Vec<u8>, section: Section, all: &[FilledSections]) -> Result<(), AllocError>
    ensures { OnOk result (out.new.items ≡ join_aligned out.old.items (map (part_in section) all.now)) }
{
    for parts in all {
        put_part(out, part_in(section, parts))?;
    }
    Ok(())
}

/// The bytes of the first segment.
#[tactic(auto, using(crate::proofs::Steps::joined_append))]
fn code_bytes(alloc: Global, all: &[FilledSections], index: &[u8]) -> Result<Vec<u8>, AllocError>
    ensures { IfOk result (λ v. v.items ≡ code_bytes all.now index.now) }
{
    let mut out = Vec::new(alloc);
    put_parts(&mut out, Section::Text, all)?;
    put_parts(&mut out, Section::Rodata, all)?;
    put_parts(&mut out, Section::Extab, all)?;
    put_part(&mut out, index)?;
    Ok(out)
}

/// The bytes of the second segment.
fn data_bytes(alloc: Global, all: &[FilledSections]) -> Result<Vec<u8>, AllocError>
    ensures { IfOk result (λ v. v.items ≡ data_bytes all.now) }
{
    let mut out = Vec::new(alloc);
    put_parts(&mut out, Section::Init, all)?;
    Ok(out)
}

/// The segments of the image.
pub(crate) fn segments_of(
    alloc: Global,
    layout: ImageLayout,
    all: &[FilledSections],
    index: &[u8],
) -> Result<Vec<OwnSegment>, AllocError>
    requires { Rises layout }
    ensures { IfOk result (λ v. v.items ≡ segments_of layout all.now index.now) }
{
    let mut segments = Vec::new(alloc);
    segments.push(OwnSegment {
        start: CODE_START,
        bytes: OwnBytes::of_vec(code_bytes(alloc, all, index)?),
        size: layout.code_end - CODE_START,
        write: false,
        exec: true,
    })?;
    if layout.bss_end - layout.data_start != 0 {
        segments.push(OwnSegment {
            start: layout.data_start,
            bytes: OwnBytes::of_vec(data_bytes(alloc, all)?),
            size: layout.bss_end - layout.data_start,
            write: true,
            exec: false,
        })?;
    }
    Ok(segments)
}
