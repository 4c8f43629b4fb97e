//! A path of steps to bases, with what the walk needs to know of it. docs/rules/types-and-matching.md says how a subobject is identified.
ghost use Rattle.std.specs.Prelude.{◌≡◌, Result};
ghost use Rattle.eh_match.specs.Address.{load_or_address, address_after_step};
ghost use Rattle.eh_match.specs.Walk.{along, empty_path};

use eh_bus::bus::Bus;
use eh_types::Base;

/// What the walk knows of a path of steps to bases.
#[derive(Clone, Copy)]
pub struct Path {
    /// The address of the type that the path leads to.
    pub ty: u32,
    /// Whether each of its steps is to a public base.
    pub is_public: bool,
    /// The type that its last virtual step reaches; None if it has no virtual step.
    pub root: Option<u32>,
    /// The sum of the offsets after that step in bytes, modulo 2^32.
    pub offset: u32,
    /// The address of the subobject that it leads to; Err with the first address on the way that can't be loaded.
    pub at: Result<u32, u32>,
}

/// The word at an address; Err with the address if it can't be loaded.
pub fn load_or_address<B: Bus>(bus: &B, a: u32) -> Result<u32, u32>
    ensures { result ≡ load_or_address (B.memory bus.now).segments a }
{
    match bus.load32(a) {
        Ok(word) => Ok(word),
        Err(_) => Err(a),
    }
}

/// The address of a base, from the address of the object; Err with the first address that can't be loaded.
fn address_after_step<B: Bus>(bus: &B, at: Result<u32, u32>, base: &Base) -> Result<u32, u32>
    ensures { result ≡ address_after_step (B.memory bus.now).segments at base.now }
{
    match at {
        Err(refused) => Err(refused),
        Ok(a) => {
            if base.is_virtual {
                match load_or_address(bus, a) {
                    Err(refused) => Err(refused),
                    Ok(vtable) => match load_or_address(
                        bus,
                        vtable.wrapping_add_signed(base.offset),
                    ) {
                        Err(refused) => Err(refused),
                        Ok(distance) => Ok(a.wrapping_add(distance)),
                    },
                }
            } else {
                Ok(a.wrapping_add_signed(base.offset))
            }
        }
    }
}

impl Path {
    /// The path without steps, to the whole object of type `ty` at `at`.
    pub fn empty_path(ty: u32, at: Result<u32, u32>) -> Self
        ensures { result ≡ empty_path ty at }
    {
        Path {
            ty,
            is_public: true,
            root: None,
            offset: 0,
            at,
        }
    }

    /// This path with one more step, to `base`.
    pub fn with_step<B: Bus>(&self, base: &Base, bus: &B) -> Self
        ensures { result ≡ along (B.memory bus.now).segments self.now base.now }
    {
        Path {
            ty: base.ty,
            is_public: self.is_public && base.is_public,
            root: if base.is_virtual {
                Some(base.ty)
            } else {
                self.root
            },
            offset: if base.is_virtual {
                0
            } else {
                self.offset.wrapping_add_signed(base.offset)
            },
            at: address_after_step(bus, self.at, base),
        }
    }
}
