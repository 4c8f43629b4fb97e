//! Lays out an image: the addresses of all sections (docs/rules/linking.md).
ghost use Rattle.std.specs.Prelude.{◌≡◌, ◌+◌, ◌*◌, ◌^◌, ◌<◌, ◌≤◌, Bool, false, None, Some, if◌then◌else◌, length, IfOk, IfSome, IfNone};
ghost use Rattle.eh_link.specs.Layout.{align_to_word, size_in, address_in, end_of, index_size, page_after, Rises, layout_of, is_too_large, firsts, align_all, part_ends, place_objects, address_at};

use asm_relocatable::object::Object;
use asm_relocatable::place::Section;
use eh_codes::row::ROW_SIZE;
use eh_word::bytes::next_multiple_32;
use std::alloc::{AllocError, Global};
use std::marker::Model;

/// The address in bytes at which the first segment begins.
pub const CODE_START: u32 = 0x8000;
/// The start of the second segment is a multiple of this, in bytes.
pub const PAGE: u32 = 0x1000;
/// The most bytes of memory that both segments may have together.
pub const MOST_MEMORY: u32 = 1_048_576;
/// The layout gives up above this address, which is far above what the segments may take.
pub const REACH: u32 = 0x40_0000;

/// The addresses, in bytes, at which an object's sections begin or end.
#[derive(Clone, Copy)]
pub struct Addresses {
    /// Of the text.
    pub text: u32,
    /// Of the read-only data.
    pub rodata: u32,
    /// Of the exception tables.
    pub extab: u32,
    /// Of the initialized data.
    pub init: u32,
    /// Of bss.
    pub bss: u32,
}

/// The layout of an image. All fields are addresses in bytes.
#[derive(Clone, Copy)]
pub struct ImageLayout {
    /// After the last byte of text.
    pub text_end: u32,
    /// After the last byte of read-only data.
    pub rodata_end: u32,
    /// After the last byte of the exception tables.
    pub extab_end: u32,
    /// The first byte of the exception index.
    pub index_start: u32,
    /// After the index, which is the end of the first segment.
    pub code_end: u32,
    /// The first byte of the second segment.
    pub data_start: u32,
    /// After the last byte of initialized data.
    pub init_end: u32,
    /// After the last byte of bss, which is the end of the second segment.
    pub bss_end: u32,
}

/// An object, and where its sections begin.
#[derive(Drop)]
pub struct PlacedObject<'a> {
    /// The object.
    pub object: &'a Object,
    /// The addresses at which its sections begin.
    pub at: Addresses,
}

impl<'a> Model for PlacedObject<'a> {
    ghost use Rattle.eh_link.specs.Placed.{PlacedObject as Fields};

    ghost Value = { Fields };

    ghost view = { λ p. record { object = p.object.now; at = p.at } };
}

/// The size in bytes of an object's section in memory.
fn size_in(section: Section, object: &Object) -> u64
    ensures { result ≡ size_in section object.now }
{
    match section {
        Section::Text => object.text.as_slice().len() as u64,
        Section::Rodata => object.rodata.as_slice().len() as u64,
        Section::Extab => object.extab.as_slice().len() as u64,
        Section::Init => object.init.as_slice().len() as u64,
        Section::Bss => u64::from(object.bss),
    }
}

/// The next multiple of 4.
pub(crate) fn align_to_word(at: u32) -> u32
    requires { at + 3 < 2 ^ 32 }
    ensures { result ≡ align_to_word at }
{
    next_multiple_32(at, 4)
}

/// The next multiple of a page.
fn page_after(at: u32) -> u32
    requires { at + PAGE ≤ 2 ^ 32 }
    ensures { result ≡ page_after at }
{
    next_multiple_32(at, PAGE)
}

/// The address of a section.
pub(crate) fn address_in(section: Section, at: Addresses) -> u32
    ensures { result ≡ address_in section at }
{
    match section {
        Section::Text => at.text,
        Section::Rodata => at.rodata,
        Section::Extab => at.extab,
        Section::Init => at.init,
        Section::Bss => at.bss,
    }
}

/// The address `offset` bytes after `start`.
pub(crate) fn address_at(start: u32, offset: u32) -> u32
    ensures { result ≡ address_at start offset }
{
    start.wrapping_add(offset)
}

/// The end of all objects' parts of a section whose first part begins at or after `start`. None above `REACH`.
fn end_of(section: Section, start: u32, objects: &[Object]) -> Option<u32>
    requires { start ≤ REACH }
    ensures some { IfSome result (λ end. (end ≡ end_of section start objects.now) × (end ≤ REACH)) }
    ensures none { IfNone result (REACH < end_of section start objects.now) }
{
    let mut at = start;
    for object in objects {
        let begin = align_to_word(at);
        let size = size_in(section, object);
        if size > u64::from(REACH - begin) {
            return None;
        }
        at = begin + size as u32;
    }
    Some(at)
}

/// The end of the index that begins at an address. None above `REACH`.
fn index_end(start: u32, objects: &[Object]) -> Option<u32>
    requires { start ≤ REACH }
    ensures some { IfSome result (λ end. (end ≡ start + index_size objects.now) × (end ≤ REACH)) }
    ensures none { IfNone result (REACH < start + index_size objects.now) }
{
    if start > REACH - ROW_SIZE {
        return None;
    }
    let mut at = start + ROW_SIZE;
    for object in objects {
        let rows = object.rows.as_slice().len();
        if rows > ((REACH - at) / ROW_SIZE) as usize {
            return None;
        }
        at += ROW_SIZE * rows as u32;
    }
    Some(at)
}

/// The layout of these objects. None if the segments have more than 1,048,576 bytes of memory together.
pub(crate) fn lay_out(objects: &[Object]) -> Option<ImageLayout>
    ensures found { result ≡ (if is_too_large (layout_of objects.now) then None else Some (layout_of objects.now)) }
    ensures rises { IfSome result (λ layout. Rises layout) }
{
    let text_end = end_of(Section::Text, CODE_START, objects)?;
    let rodata_end = end_of(Section::Rodata, text_end, objects)?;
    let extab_end = end_of(Section::Extab, rodata_end, objects)?;
    let index_start = align_to_word(extab_end);
    let code_end = index_end(index_start, objects)?;
    let data_start = page_after(code_end);
    let init_end = end_of(Section::Init, data_start, objects)?;
    let bss_end = end_of(Section::Bss, init_end, objects)?;
    if code_end - CODE_START + (bss_end - data_start) > MOST_MEMORY {
        return None;
    }
    Some(ImageLayout {
        text_end,
        rodata_end,
        extab_end,
        index_start,
        code_end,
        data_start,
        init_end,
        bss_end,
    })
}

/// The addresses from which the first part of each section is placed.
fn firsts(layout: ImageLayout) -> Addresses
    ensures { result ≡ firsts layout }
{
    Addresses {
        text: CODE_START,
        rodata: layout.text_end,
        extab: layout.rodata_end,
        init: layout.data_start,
        bss: layout.init_end,
    }
}

/// Each address rounded up to a multiple of 4.
fn align_all(at: Addresses) -> Addresses
    requires text { at.text ≤ REACH }
    requires rodata { at.rodata ≤ REACH }
    requires extab { at.extab ≤ REACH }
    requires init { at.init ≤ REACH }
    requires bss { at.bss ≤ REACH }
    ensures { result ≡ align_all at }
{
    Addresses {
        text: align_to_word(at.text),
        rodata: align_to_word(at.rodata),
        extab: align_to_word(at.extab),
        init: align_to_word(at.init),
        bss: align_to_word(at.bss),
    }
}

/// The ends of an object's sections that begin at these addresses.
fn part_ends(at: Addresses, object: &Object) -> Addresses
    requires text { at.text + length object.now.text ≤ REACH }
    requires rodata { at.rodata + length object.now.rodata ≤ REACH }
    requires extab { at.extab + length object.now.extab ≤ REACH }
    requires init { at.init + length object.now.init ≤ REACH }
    requires bss { at.bss + object.now.bss ≤ REACH }
    ensures { result ≡ part_ends at object.now }
{
    Addresses {
        text: at.text + object.text.as_slice().len() as u32,
        rodata: at.rodata + object.rodata.as_slice().len() as u32,
        extab: at.extab + object.extab.as_slice().len() as u32,
        init: at.init + object.init.as_slice().len() as u32,
        bss: at.bss + object.bss,
    }
}

/// Gives each object its addresses.
pub(crate) fn place<'a>(
    alloc: Global,
    layout: ImageLayout,
    objects: &'a [Object],
) -> Result<Vec<PlacedObject<'a>>, AllocError>
    requires is { layout ≡ layout_of objects.now }
    requires rises { Rises layout }
    ensures { IfOk result (λ v. v.items ≡ place_objects objects.now) }
{
    let mut all = Vec::new(alloc);
    let mut next = firsts(layout);
    for object in objects {
        let at = align_all(next);
        next = part_ends(at, object);
        all.push(PlacedObject { object, at })?;
    }
    Ok(all)
}
