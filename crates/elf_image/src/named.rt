//! The defined symbols, by name (docs/rules/elf.md).
ghost use Rattle.std.specs.Prelude.{◌≡◌, length, IfOk, codes, filter, map, nat_eq};
ghost use Rattle.std.specs.List.{starts_with};
ghost use Rattle.elf_image.specs.Segments.{RiseFrom};
ghost use Rattle.elf_image.specs.Image.{NamedAddress as Address, named_address, named_addresses, type_symbols_of};

use crate::function::function_of_symbol;
use crate::segment::Segment;
use crate::symbol::{SHN_UNDEF, Symbol};
use std::alloc::{AllocError, Global};
use std::marker::Model;

/// A defined symbol.
#[derive(Drop)]
pub struct NamedAddress<'a> {
    /// The symbol's name.
    pub name: &'a [u8],
    /// The symbol's value, with bit 0 clear if it is a function.
    pub address: u32,
}

impl<'a> Model for NamedAddress<'a> {
    ghost use Rattle.elf_image.specs.Image.{NamedAddress as Address};

    ghost Value = { Address };

    ghost view = { λ n. record { name = n.name.now; address = n.address } };
}

/// The name and address of a symbol.
#[tactic(auto, unfolding(crate::specs::Image::named_address))]
fn make_named<'a>(segments: &[Segment], s: &Symbol<'a>) -> NamedAddress<'a>
    requires { RiseFrom 0 segments.now }
    ensures { result ≡ named_address segments.now s.now }
{
    let address = match function_of_symbol(segments, s) {
        Some(f) => f.start,
        None => s.value,
    };
    NamedAddress {
        name: s.name,
        address,
    }
}

/// The names and addresses of the defined symbols, in the order of the table.
#[tactic(auto, unfolding(crate::specs::Image::named_addresses))]
pub(crate) fn read_named<'a>(
    alloc: Global,
    segments: &[Segment],
    symbols: &[Symbol<'a>],
) -> Result<Vec<NamedAddress<'a>>, AllocError>
    requires { RiseFrom 0 segments.now }
    ensures { IfOk result (λ v. v.items ≡ named_addresses segments.now symbols.now) }
{
    let mut all = Vec::new(alloc);
    for s in symbols {
        if s.section != SHN_UNDEF {
            all.push(make_named(segments, s))?;
        }
    }
    Ok(all)
}

/// Whether a name begins with `_ZTI`.
fn is_type_name(name: &[u8]) -> bool
    ensures { result ≡ starts_with nat_eq name.now (codes "_ZTI") }
{
    name.starts_with(b"_ZTI")
}

/// The addresses of the symbols whose names begin with `_ZTI`.
pub(crate) fn type_symbols(alloc: Global, symbols: &[NamedAddress]) -> Result<Vec<u32>, AllocError>
    ensures { IfOk result (λ v. v.items ≡ type_symbols_of symbols.now) }
{
    let mut all = Vec::new(alloc);
    for n in symbols {
        if is_type_name(n.name) {
            all.push(n.address)?;
        }
    }
    Ok(all)
}
