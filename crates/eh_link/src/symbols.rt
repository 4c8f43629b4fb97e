//! Builds the symbols of an image (docs/rules/linking.md).
ghost use Rattle.std.specs.Prelude.{◌≡◌, ◌++◌, ◌≤◌, IfOk, OnOk};
ghost use Rattle.eh_link.specs.Symbols.{own_symbol, mark_at, mark_symbol, mark_symbols, words_between, label_kind, label_symbols, exported_symbols, symbols_of};
ghost use Rattle.std.specs.List.{flat_map};
ghost use Rattle.eh_link.specs.Layout.{Rises};

use crate::names::symbol_address;
use crate::places::{Addresses, ImageLayout, PlacedObject, address_at, align_to_word};
use asm_relocatable::name::{copy_name, is_local};
use asm_relocatable::object::{Mark, ObjSymbol};
use eh_word::Name;
use elf_write::parts::{OwnSymbol, SymbolKind};
use std::alloc::{AllocError, Global};

/// A symbol of size 0.
fn symbol(alloc: Global, name: &[u8], value: u32, kind: SymbolKind) -> Result<OwnSymbol, AllocError>
    ensures { IfOk result (λ s. s ≡ own_symbol name.now value 0 kind) }
{
    Ok(OwnSymbol {
        name: Name::of_vec(Vec::from_slice(alloc, name)?),
        value,
        size: 0,
        kind,
    })
}

/// The mapping symbol for code or data that begins at an address.
fn mark_at(alloc: Global, value: u32, code: bool) -> Result<OwnSymbol, AllocError>
    ensures { IfOk result (λ s. s ≡ mark_at value code) }
{
    if code {
        symbol(alloc, b"$t", value, SymbolKind::Code)
    } else {
        symbol(alloc, b"$d", value, SymbolKind::Words)
    }
}

/// The mapping symbol of a mark.
fn mark_symbol(alloc: Global, at: Addresses, mark: &Mark) -> Result<OwnSymbol, AllocError>
    ensures { IfOk result (λ s. s ≡ mark_symbol at mark.now) }
{
    mark_at(alloc, address_at(at.text, mark.offset), mark.code)
}

/// Appends the mapping symbols of an object's text.
fn push_marks(
    alloc: Global,
    out: &mut Vec<OwnSymbol>,
    placed: &PlacedObject,
) -> Result<(), AllocError>
    ensures { OnOk result (out.new.items ≡ out.old.items ++ mark_symbols placed.now) }
{
    for mark in placed.object.marks.as_slice() {
        out.push(mark_symbol(alloc, placed.at, mark)?)?;
    }
    Ok(())
}

/// Appends a mapping symbol for data at the start of a section, unless it is empty.
fn push_words(
    alloc: Global,
    out: &mut Vec<OwnSymbol>,
    start: u32,
    end: u32,
) -> Result<(), AllocError>
    ensures { OnOk result (out.new.items ≡ out.old.items ++ words_between start end) }
{
    if start != end {
        out.push(mark_at(alloc, start, false)?)?;
    }
    Ok(())
}

/// The kind of a label.
fn label_kind(symbol: &ObjSymbol) -> SymbolKind
    ensures { result ≡ label_kind symbol.now }
{
    if symbol.function {
        SymbolKind::Function
    } else {
        SymbolKind::Object
    }
}

/// Appends a label, unless its name is local.
fn push_label(
    alloc: Global,
    out: &mut Vec<OwnSymbol>,
    at: Addresses,
    symbol: &ObjSymbol,
) -> Result<(), AllocError>
    ensures { OnOk result (out.new.items ≡ out.old.items ++ label_symbols at symbol.now) }
{
    if is_local(&symbol.name) {
        return Ok(());
    }
    out.push(OwnSymbol {
        name: copy_name(alloc, &symbol.name)?,
        value: symbol_address(at, symbol),
        size: symbol.size,
        kind: label_kind(symbol),
    })?;
    Ok(())
}

/// Appends an object's labels.
fn push_labels(
    alloc: Global,
    out: &mut Vec<OwnSymbol>,
    placed: &PlacedObject,
) -> Result<(), AllocError>
    ensures { OnOk result (out.new.items ≡ out.old.items ++ exported_symbols placed.now) }
{
    for symbol in placed.object.symbols.as_slice() {
        push_label(alloc, out, placed.at, symbol)?;
    }
    Ok(())
}

/// Appends the mapping symbols of all texts.
fn push_all_marks(
    alloc: Global,
    out: &mut Vec<OwnSymbol>,
    all: &[PlacedObject],
) -> Result<(), AllocError>
    ensures { OnOk result (out.new.items ≡ out.old.items ++ flat_map mark_symbols all.now) }
{
    for placed in all {
        push_marks(alloc, out, placed)?;
    }
    Ok(())
}

/// Appends the labels of all objects.
fn push_all_labels(
    alloc: Global,
    out: &mut Vec<OwnSymbol>,
    all: &[PlacedObject],
) -> Result<(), AllocError>
    ensures { OnOk result (out.new.items ≡ out.old.items ++ flat_map exported_symbols all.now) }
{
    for placed in all {
        push_labels(alloc, out, placed)?;
    }
    Ok(())
}

/// The symbols of the image.
#[tactic(auto, unfolding(crate::specs::Symbols::symbols_of))]
pub(crate) fn symbols_of(
    alloc: Global,
    layout: ImageLayout,
    all: &[PlacedObject],
) -> Result<Vec<OwnSymbol>, AllocError>
    requires { Rises layout }
    ensures { IfOk result (λ v. v.items ≡ symbols_of layout all.now) }
{
    let mut out = Vec::new(alloc);
    push_all_marks(alloc, &mut out, all)?;
    push_words(
        alloc,
        &mut out,
        align_to_word(layout.text_end),
        layout.rodata_end,
    )?;
    push_words(
        alloc,
        &mut out,
        align_to_word(layout.rodata_end),
        layout.extab_end,
    )?;
    push_words(alloc, &mut out, layout.index_start, layout.code_end)?;
    push_all_labels(alloc, &mut out, all)?;
    Ok(out)
}
