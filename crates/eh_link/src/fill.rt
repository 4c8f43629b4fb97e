//! Applies relocations to the fields of objects (docs/rules/linking.md; IHI 0044).
ghost use Rattle.std.specs.Prelude.{◌≡◌, ◌+◌, ◌≤◌, ℕ, List, length, drop, map, IfOk};
ghost use Rattle.std.specs.Map.{lookup};
ghost use Rattle.eh_word.specs.Names.{same_bytes};
ghost use Rattle.asm_relocatable.specs.Fields.{bytes_at};
ghost use Rattle.eh_link.specs.Symbols.{is_global, first_in, look_up, meaning_by};
ghost use Rattle.eh_link.specs.Fields.{size_of, change_of, overwrite_at, apply_change, unreachable_at, fill_fields, lower, unreachable_in, part_in, fill_section, fill_object_by, fill_object, unreachable_for, unreachable_by, lowest_unreachable};

use crate::field::{Change, change_by};
use crate::names::{Meanings, global_meanings, look_up, own_meanings};
use crate::places::{PlacedObject, address_at, address_in};
use asm_relocatable::object::{Object, Reloc};
use asm_relocatable::place::{Section, same_section};
use elf_write::parts::OwnBytes;
use std::alloc::{AllocError, Global};

/// The sections of an object after relocation.
#[derive(Drop)]
pub struct FilledSections {
    /// The text.
    pub text: OwnBytes,
    /// The read-only data.
    pub rodata: OwnBytes,
    /// The exception tables.
    pub extab: OwnBytes,
    /// The initialized data.
    pub init: OwnBytes,
}

/// The bytes of an object's section.
fn bytes_at(section: Section, object: &Object) -> &[u8]
    ensures { result.now ≡ bytes_at section object.now }
{
    match section {
        Section::Text => object.text.as_slice(),
        Section::Rodata => object.rodata.as_slice(),
        Section::Extab => object.extab.as_slice(),
        Section::Init => object.init.as_slice(),
        Section::Bss => &[],
    }
}

/// The bytes of a section after relocation.
pub(crate) fn part_in(section: Section, parts: &FilledSections) -> &[u8]
    ensures { result.now ≡ part_in section parts.now }
{
    match section {
        Section::Text => parts.text.as_slice(),
        Section::Rodata => parts.rodata.as_slice(),
        Section::Extab => parts.extab.as_slice(),
        Section::Init => parts.init.as_slice(),
        Section::Bss => &[],
    }
}

/// The lower of two addresses, if there are any.
fn lower(a: Option<u32>, b: Option<u32>) -> Option<u32>
    ensures { result ≡ lower a b }
{
    match (a, b) {
        (None, b) => b,
        (Some(a), None) => Some(a),
        (Some(a), Some(b)) => Some(a.min(b)),
    }
}

/// Overwrites bytes at an offset.
#[tactic(auto, unfolding(crate::specs::Fields::overwrite_at))]
fn write_at(bytes: &mut [u8], offset: usize, new: &[u8])
    requires { offset + length new.now ≤ length bytes.old }
    ensures { bytes.new ≡ overwrite_at offset new.now bytes.old }
{
    bytes[offset..offset + new.len()].copy_from_slice(new);
}

/// Applies a change at an offset.
#[tactic(auto, unfolding(elf_write::specs::Layout::half, elf_write::specs::Layout::word))]
fn apply(bytes: &mut [u8], offset: usize, change: Change)
    requires { size_of change ≤ length (drop offset bytes.old) }
    ensures { bytes.new ≡ apply_change change offset bytes.old }
{
    match change {
        Change::Keep | Change::Unreachable => {}
        Change::Half(value) => write_at(bytes, offset, &value.to_le_bytes()),
        Change::Word(value) => write_at(bytes, offset, &value.to_le_bytes()),
    }
}

/// The address of a branch that can't be encoded; None for other changes.
fn unreachable_at(change: Change, place: u32) -> Option<u32>
    ensures { result ≡ unreachable_at change place }
{
    match change {
        Change::Unreachable => Some(place),
        Change::Keep | Change::Half(_) | Change::Word(_) => None,
    }
}

/// The bytes from an offset on; empty past the end.
fn bytes_from(bytes: &[u8], offset: usize) -> &[u8]
    ensures { result.now ≡ drop offset bytes.now }
{
    if offset <= bytes.len() {
        &bytes[offset..]
    } else {
        &[]
    }
}

/// The change that a relocation makes to the bytes of a section that begins at `start`.
#[tactic(auto, using(crate::proofs::Changes::change_fits), unfolding(crate::specs::Fields::change_of))]
fn change_of(
    own: &Meanings<'_>,
    global: &Meanings<'_>,
    section: Section,
    start: u32,
    bytes: &[u8],
    reloc: &Reloc,
) -> Change
    ensures is { result ≡ change_of (look_up own.now global.now) section start bytes.now reloc.now }
    ensures fits { size_of result ≤ length (drop reloc.now.offset bytes.now) }
{
    if !same_section(reloc.section, section) {
        return Change::Keep;
    }
    let there = bytes_from(bytes, reloc.offset as usize);
    let meaning = look_up(own, global, &reloc.name);
    let place = address_at(start, reloc.offset);
    change_by(reloc.kind, meaning, reloc.addend, place, there)
}

/// Applies the relocations of a section that begins at `start`, one by one. Gives the lowest address of a branch that
/// can't be encoded, if any.
#[tactic(auto, using(crate::proofs::Changes::fills))]
fn fill_fields(
    bytes: &mut [u8],
    own: &Meanings<'_>,
    global: &Meanings<'_>,
    section: Section,
    start: u32,
    relocs: &[Reloc],
) -> Option<u32>
    ensures bytes { bytes.new ≡ fill_fields (look_up own.now global.now) section start bytes.old relocs.now }
    ensures lowest { result ≡ unreachable_in (look_up own.now global.now) section start bytes.old relocs.now }
{
    let mut lowest = None;
    for reloc in relocs {
        let change = change_of(own, global, section, start, bytes, reloc);
        let here = unreachable_at(change, address_at(start, reloc.offset));
        apply(bytes, reloc.offset as usize, change);
        lowest = lower(lowest, here);
    }
    lowest
}

/// An object's section after relocation, and the lowest address of a branch that can't be encoded.
fn filled_part(
    alloc: Global,
    placed: &PlacedObject,
    own: &Meanings<'_>,
    global: &Meanings<'_>,
    section: Section,
) -> Result<(OwnBytes, Option<u32>), AllocError>
    ensures bytes { IfOk result (λ part. part.0 ≡ fill_section (look_up own.now global.now) placed.now section) }
    ensures lowest { IfOk result (λ part. part.1 ≡ unreachable_for (look_up own.now global.now) placed.now section) }
{
    let mut bytes = Vec::from_slice(alloc, bytes_at(section, placed.object))?;
    let start = address_in(section, placed.at);
    let lowest = fill_fields(
        &mut bytes,
        own,
        global,
        section,
        start,
        placed.object.relocs.as_slice(),
    );
    Ok((OwnBytes::of_vec(bytes), lowest))
}

/// Two of an object's sections after relocation, and the lowest address of a branch that can't be encoded.
fn filled_two(
    alloc: Global,
    placed: &PlacedObject,
    own: &Meanings<'_>,
    global: &Meanings<'_>,
    first: Section,
    second: Section,
) -> Result<(OwnBytes, OwnBytes, Option<u32>), AllocError>
    ensures first { IfOk result (λ r. r.0 ≡ fill_section (look_up own.now global.now) placed.now first) }
    ensures second { IfOk result (λ r. r.1 ≡ fill_section (look_up own.now global.now) placed.now second) }
    ensures lowest { IfOk result (λ r. r.2 ≡ lower (unreachable_for (look_up own.now global.now) placed.now first) (unreachable_for (look_up own.now global.now) placed.now second)) }
{
    let (bytes, here) = filled_part(alloc, placed, own, global, first)?;
    let (more, there) = filled_part(alloc, placed, own, global, second)?;
    Ok((bytes, more, lower(here, there)))
}

/// An object's sections after relocation, and the lowest address of a branch that can't be encoded. Names are looked up
/// in `own` first, then in `global`.
fn fill_object_by(
    alloc: Global,
    placed: &PlacedObject,
    own: &Meanings<'_>,
    global: &Meanings<'_>,
) -> Result<(FilledSections, Option<u32>), AllocError>
    ensures parts { IfOk result (λ r. r.0 ≡ fill_object_by (look_up own.now global.now) placed.now) }
    ensures lowest { IfOk result (λ r. r.1 ≡ unreachable_by (look_up own.now global.now) placed.now) }
{
    let (text, rodata, here) = filled_two(
        alloc,
        placed,
        own,
        global,
        Section::Text,
        Section::Rodata,
    )?;
    let (extab, init, there) = filled_two(
        alloc,
        placed,
        own,
        global,
        Section::Extab,
        Section::Init,
    )?;
    let parts = FilledSections {
        text,
        rodata,
        extab,
        init,
    };
    Ok((parts, lower(here, there)))
}

/// An object's sections after relocation, and the lowest address of a branch that can't be encoded.
fn filled_object(
    alloc: Global,
    placed: &PlacedObject,
    global: &Meanings<'_>,
) -> Result<(FilledSections, Option<u32>), AllocError>
    ensures parts { IfOk result (λ r. r.0 ≡ fill_object_by (meaning_by global.now placed.now) placed.now) }
    ensures lowest { IfOk result (λ r. r.1 ≡ unreachable_by (meaning_by global.now placed.now) placed.now) }
{
    let own = own_meanings(alloc, placed)?;
    fill_object_by(alloc, placed, &own, global)
}

/// All objects after relocation, and the lowest address of a branch that can't be encoded, given the table of global
/// names.
fn fill_each(
    alloc: Global,
    all: &[PlacedObject],
    global: &Meanings<'_>,
) -> Result<(Vec<FilledSections>, Option<u32>), AllocError>
    requires { (q : List ℕ) → lookup (same_bytes q) global.now ≡ first_in (is_global q) all.now }
    ensures parts { IfOk result (λ r. r.0.items ≡ map (fill_object all.now) all.now) }
    ensures lowest { IfOk result (λ r. r.1 ≡ lowest_unreachable all.now all.now) }
{
    let mut parts = Vec::new(alloc);
    let mut lowest = None;
    for placed in all {
        let (filled, here) = filled_object(alloc, placed, global)?;
        parts.push(filled)?;
        lowest = lower(lowest, here);
    }
    Ok((parts, lowest))
}

/// All objects after relocation, and the lowest address of a branch that can't be encoded.
pub(crate) fn fill_all(
    alloc: Global,
    all: &[PlacedObject],
) -> Result<(Vec<FilledSections>, Option<u32>), AllocError>
    ensures parts { IfOk result (λ r. r.0.items ≡ map (fill_object all.now) all.now) }
    ensures lowest { IfOk result (λ r. r.1 ≡ lowest_unreachable all.now all.now) }
{
    let global = global_meanings(alloc, all)?;
    fill_each(alloc, all, &global)
}
