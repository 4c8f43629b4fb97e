//! The symbols of a rewritten image: those that are looked up by name, the functions, the types by address, and the marks.
//! docs/rules/gnu-tables.md states the rules.
ghost use Rattle.std.specs.Prelude.{◌≡◌, ◌^◌, ◌<◌, ◌++◌, length, map, OnOk, IfOk};
ghost use Rattle.gnu_rewrite.specs.Marks.{marks_of};
ghost use Rattle.gnu_rewrite.specs.Symbols.{object, kept_names, symbol_of_name, function_symbol, type_name, type_symbol, mark_symbol, symbols_of};
ghost use Rattle.gnu_rewrite.specs.Sizes.{names_size};
ghost use Rattle.std.specs.List.{flat_map};

use crate::limits::{MARK_NAME_SIZE, function_names_size, names_size};
use eh_types::vtables::{CLASS, FUNDAMENTAL, MANY, POINTER, SINGLE};
use eh_word::{Name, address_text};
use elf_image::{Function, Image};
use elf_write::parts::{OwnSymbol, SymbolKind};
use std::alloc::{AllocError, Global};

/// The name of the symbol that tells an image's instruction set profile.
pub const PROFILE: &[u8] = b"__ehabi_profile";
/// The size of a type symbol's name with its zero byte, in bytes.
pub const TYPE_NAME_SIZE: usize = 13;

/// A symbol that isn't a function's; its name is copied.
fn object(alloc: Global, name: &[u8], address: u32) -> Result<OwnSymbol, AllocError>
    ensures { IfOk result (λ s. s ≡ object name.now address) }
{
    Ok(OwnSymbol {
        name: Name::of_vec(Vec::from_slice(alloc, name)?),
        value: address,
        size: 0,
        kind: SymbolKind::Object,
    })
}

/// Adds the symbol with a name, if the image has one.
fn push_symbol_of_name(
    alloc: Global,
    out: &mut Vec<OwnSymbol>,
    image: &Image,
    name: &[u8],
) -> Result<(), AllocError>
    ensures { OnOk result (out.new.items ≡ out.old.items ++ symbol_of_name image.now name.now) }
{
    if let Some(address) = image.symbol(name) {
        out.push(object(alloc, name, address)?)?;
    }
    Ok(())
}

/// Adds the symbols that are looked up by name.
pub(crate) fn push_kept_symbols(
    alloc: Global,
    out: &mut Vec<OwnSymbol>,
    image: &Image,
) -> Result<(), AllocError>
    ensures { OnOk result (out.new.items ≡ out.old.items ++ flat_map (symbol_of_name image.now) kept_names) }
{
    push_symbol_of_name(alloc, out, image, FUNDAMENTAL)?;
    push_symbol_of_name(alloc, out, image, CLASS)?;
    push_symbol_of_name(alloc, out, image, SINGLE)?;
    push_symbol_of_name(alloc, out, image, MANY)?;
    push_symbol_of_name(alloc, out, image, POINTER)?;
    push_symbol_of_name(alloc, out, image, PROFILE)
}

fn function_symbol(alloc: Global, f: &Function) -> Result<OwnSymbol, AllocError>
    ensures { IfOk result (λ s. s ≡ function_symbol f.now) }
{
    Ok(OwnSymbol {
        name: Name::of_vec(Vec::from_slice(alloc, f.name)?),
        value: f.start,
        size: f.end.saturating_sub(f.start),
        kind: SymbolKind::Function,
    })
}

/// Adds the symbols of the functions.
fn push_functions(
    alloc: Global,
    out: &mut Vec<OwnSymbol>,
    functions: &[Function],
) -> Result<(), AllocError>
    ensures { OnOk result (out.new.items ≡ out.old.items ++ map function_symbol functions.now) }
{
    for f in functions {
        out.push(function_symbol(alloc, f)?)?;
    }
    Ok(())
}

/// The name of the type symbol at an address.
#[tactic(auto, unfolding(crate::specs::Symbols::type_name))]
fn type_name(alloc: Global, address: u32) -> Result<Vec<u8>, AllocError>
    ensures { IfOk result (λ v. v.items ≡ type_name address) }
{
    let mut name = Vec::from_slice(alloc, b"_ZTI")?;
    name.extend_from_slice(&address_text(address))?;
    Ok(name)
}

fn type_symbol(alloc: Global, address: u32) -> Result<OwnSymbol, AllocError>
    ensures { IfOk result (λ s. s ≡ type_symbol address) }
{
    let name = type_name(alloc, address)?;
    object(alloc, &name, address)
}

/// Adds the symbols of the types.
fn push_types(alloc: Global, out: &mut Vec<OwnSymbol>, types: &[u32]) -> Result<(), AllocError>
    ensures { OnOk result (out.new.items ≡ out.old.items ++ map type_symbol types.now) }
{
    for address in types {
        out.push(type_symbol(alloc, *address)?)?;
    }
    Ok(())
}

fn mark_symbol(alloc: Global, mark: (u32, bool)) -> OwnSymbol
    ensures { result ≡ mark_symbol mark }
{
    OwnSymbol {
        name: Name::of_vec(Vec::new(alloc)),
        value: mark.0,
        size: 0,
        kind: if mark.1 {
            SymbolKind::Code
        } else {
            SymbolKind::Words
        },
    }
}

/// Adds the mapping symbols of the marks.
fn push_marks(
    alloc: Global,
    out: &mut Vec<OwnSymbol>,
    marks: &[(u32, bool)],
) -> Result<(), AllocError>
    ensures { OnOk result (out.new.items ≡ out.old.items ++ map mark_symbol marks.now) }
{
    for mark in marks {
        out.push(mark_symbol(alloc, *mark))?;
    }
    Ok(())
}

/// Adds all symbols after those that are looked up by name.
#[tactic(auto, unfolding(crate::specs::Symbols::symbols_of))]
pub(crate) fn push_others(
    alloc: Global,
    out: &mut Vec<OwnSymbol>,
    image: &Image,
    marks: &[(u32, bool)],
) -> Result<(), AllocError>
    requires kept { out.old.items ≡ flat_map (symbol_of_name image.now) kept_names }
    requires marks { marks.now ≡ marks_of image.now }
    ensures { OnOk result (out.new.items ≡ symbols_of image.now) }
{
    push_functions(alloc, out, image.functions())?;
    push_types(alloc, out, image.type_symbols())?;
    push_marks(alloc, out, marks)
}

/// The number of all symbols: `kept`, which are looked up by name, and the others.
#[tactic(auto, using(crate::proofs::Sizes::counted))]
pub(crate) fn count(kept: &[OwnSymbol], image: &Image, marks: &[(u32, bool)]) -> u128
    requires kept { kept.now ≡ flat_map (symbol_of_name image.now) kept_names }
    requires marks { marks.now ≡ marks_of image.now }
    ensures count { result ≡ length (symbols_of image.now) }
    ensures few { result < 2 ^ 100 }
{
    let functions = image.functions().len() as u128;
    let types = image.type_symbols().len() as u128;
    kept.len() as u128 + functions + types + marks.len() as u128
}

/// The size of all symbols' names in the file, in bytes.
#[tactic(auto, using(crate::proofs::Sizes::counted))]
pub(crate) fn names(kept: &[OwnSymbol], image: &Image, marks: &[(u32, bool)]) -> u128
    requires kept { kept.now ≡ flat_map (symbol_of_name image.now) kept_names }
    requires marks { marks.now ≡ marks_of image.now }
    ensures size { result ≡ names_size (symbols_of image.now) }
    ensures few { result < 2 ^ 100 }
{
    let functions = function_names_size(image.functions());
    let types = TYPE_NAME_SIZE as u128 * image.type_symbols().len() as u128;
    let marks = MARK_NAME_SIZE as u128 * marks.len() as u128;
    names_size(kept) + functions + types + marks
}
