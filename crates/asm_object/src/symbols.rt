//! The symbols and relocations of an object (docs/rules/sources.md).
ghost use Rattle.std.specs.Prelude.{◌≡◌, ◌++◌, map, IfOk};
ghost use Rattle.asm_object.specs.Objects.{symbol_of};

use asm_layout::labels::{Label, Labels};
use asm_layout::word::low_part;
use asm_relocatable::object::{ObjSymbol, ObjSymbols, Relocs};
use eh_word::Name;
use std::alloc::{AllocError, Global};

/// The symbol of a label.
fn symbol(name: Name, label: Label) -> ObjSymbol
    ensures { result ≡ symbol_of (name, label) }
{
    ObjSymbol {
        name,
        section: label.place.section,
        offset: low_part(label.place.offset),
        size: low_part(label.size),
        function: label.function,
        global: label.global,
    }
}

/// The symbols of labels, in order.
pub fn symbols(alloc: Global, labels: Labels) -> Result<ObjSymbols, AllocError>
    ensures { IfOk result (λ symbols. symbols ≡ map symbol_of labels) }
{
    let map = labels.into_map();
    let mut symbols = Vec::with_capacity(alloc, map.len())?;
    for (name, label) in map {
        symbols.push(symbol(name, label))?;
    }
    Ok(ObjSymbols::of_vec(symbols))
}

/// The relocations of the four sections, in order.
pub fn relocs(
    text: Relocs,
    rodata: Relocs,
    extab: Relocs,
    init: Relocs,
) -> Result<Relocs, AllocError>
    ensures { IfOk result (λ relocs. relocs ≡ text ++ rodata ++ extab ++ init) }
{
    let mut relocs = text;
    relocs.append(rodata)?;
    relocs.append(extab)?;
    relocs.append(init)?;
    Ok(relocs)
}
