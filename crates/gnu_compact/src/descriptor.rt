//! Writes descriptors as bytes (IHI 0038, "Scope encoding" and the descriptors of cleanups, catches and function exception
//! specifications). docs/rules/gnu-tables.md states the format.
ghost use Rattle.std.specs.Prelude.{◌≡◌, ◌+◌, ◌-◌, ◌%◌, ◌^◌, ◌<◌, ◌≤◌, ◌++◌, length, OnOk};
ghost use Rattle.byteorder.specs.Endian.{little_bytes};
ghost use Rattle.eh_codes.specs.Rows.{prel31_to};
ghost use Rattle.gnu_compact.specs.Descriptors.{type_word, kind_size, scope_bytes, landing_bytes, kind_bytes, descriptor_bytes, descriptors_bytes};
ghost use Rattle.gnu_compact.specs.Tables.{codes_end, table_bytes};

use crate::codes::{codes_end, push_codes};
use eh_codes::prel31_to;
use eh_desc::CatchType;
use eh_desc::descriptor::{ALL, ALL_FAILS};
use eh_word::bytes::push_word;
use std::alloc::AllocError;

/// The size of a descriptor's scope, in bytes: a length and an offset.
pub const SCOPE_SIZE: u32 = 8;
/// The size of a word, in bytes.
pub const WORD_SIZE: u32 = 4;

/// The kind of a descriptor to write.
#[derive(Clone, Copy)]
pub enum OwnKind {
    /// A specification without types and landing pad: it stops every exception.
    Specification,
    /// A catch by value: the address of its landing pad, and what it catches.
    Catch { pad: u32, takes: CatchType },
    /// A cleanup: the address of its landing pad.
    Cleanup { pad: u32 },
}

/// A descriptor to write.
#[derive(Clone, Copy)]
pub struct OwnDescriptor {
    /// The start of its scope, in bytes from its function's start.
    pub offset: u32,
    /// The size of its scope, in bytes.
    pub size: u32,
    /// Its kind.
    pub kind: OwnKind,
}

/// The type word of a catch, for the word at address `place`.
fn type_word(place: u32, takes: CatchType) -> u32
    ensures { result ≡ type_word place takes }
{
    match takes {
        CatchType::All => ALL,
        CatchType::AllFails => ALL_FAILS,
        CatchType::One(address) => address.wrapping_sub(place),
    }
}

impl OwnKind {
    /// The size of a descriptor of this kind, in bytes.
    pub fn size(&self) -> u32
        ensures { result ≡ kind_size self.now }
    {
        match self {
            OwnKind::Specification => SCOPE_SIZE + WORD_SIZE,
            OwnKind::Catch { .. } => SCOPE_SIZE + 2 * WORD_SIZE,
            OwnKind::Cleanup { .. } => SCOPE_SIZE + WORD_SIZE,
        }
    }
}

/// Appends a scope: a length and an offset.
fn push_scope(bytes: &mut Vec<u8>, length: u32, offset: u32) -> Result<(), AllocError>
    ensures { OnOk result (bytes.new.items ≡ bytes.old.items ++ scope_bytes length offset) }
{
    push_word(bytes, length)?;
    push_word(bytes, offset)
}

/// Appends the word at address `place` that refers to a landing pad.
fn push_pad(bytes: &mut Vec<u8>, place: u32, pad: u32) -> Result<(), AllocError>
    ensures { OnOk result (bytes.new.items ≡ bytes.old.items ++ little_bytes 4 (prel31_to place pad)) }
{
    push_word(bytes, prel31_to(place, pad))
}

/// Appends a specification without types: its offset has the mark bit.
#[tactic(auto, using(std::proofs::lemmas::List::append_assoc))]
fn push_specification(
    bytes: &mut Vec<u8>,
    place: u32,
    size: u32,
    offset: u32,
) -> Result<(), AllocError>
    ensures { OnOk result (bytes.new.items ≡ bytes.old.items ++ kind_bytes place size offset OwnKind.Specification) }
{
    push_scope(bytes, size, offset.wrapping_add(1))?;
    push_word(bytes, 0)
}

/// Appends a cleanup, at address `place`.
#[tactic(auto, using(std::proofs::lemmas::List::append_assoc))]
fn push_cleanup(
    bytes: &mut Vec<u8>,
    place: u32,
    size: u32,
    offset: u32,
    pad: u32,
) -> Result<(), AllocError>
    ensures { OnOk result (bytes.new.items ≡ bytes.old.items ++ kind_bytes place size offset (OwnKind.Cleanup pad)) }
{
    push_scope(bytes, size, offset)?;
    push_pad(bytes, place.wrapping_add(SCOPE_SIZE), pad)
}

/// Appends the landing pad word and the type word of a catch; the first is at address `place`.
fn push_landing(
    bytes: &mut Vec<u8>,
    place: u32,
    pad: u32,
    takes: CatchType,
) -> Result<(), AllocError>
    ensures { OnOk result (bytes.new.items ≡ bytes.old.items ++ landing_bytes place pad takes) }
{
    push_pad(bytes, place, pad)?;
    push_word(bytes, type_word(place.wrapping_add(WORD_SIZE), takes))
}

/// Appends a catch, at address `place`: its length has the mark bit.
#[tactic(auto, using(std::proofs::lemmas::List::append_assoc))]
fn push_catch(
    bytes: &mut Vec<u8>,
    place: u32,
    scope: (u32, u32),
    pad: u32,
    takes: CatchType,
) -> Result<(), AllocError>
    ensures { OnOk result (bytes.new.items ≡ bytes.old.items ++ kind_bytes place scope.0 scope.1 (OwnKind.Catch pad takes)) }
{
    push_scope(bytes, scope.0.wrapping_add(1), scope.1)?;
    push_landing(bytes, place.wrapping_add(SCOPE_SIZE), pad, takes)
}

/// Appends a descriptor, at address `place`: its scope with the mark bits, and the words of its kind, each relative to its own address.
pub fn push_descriptor(bytes: &mut Vec<u8>, place: u32, d: &OwnDescriptor) -> Result<(), AllocError>
    ensures { OnOk result (bytes.new.items ≡ bytes.old.items ++ descriptor_bytes place d.now) }
{
    match d.kind {
        OwnKind::Specification => push_specification(bytes, place, d.size, d.offset),
        OwnKind::Catch { pad, takes } => {
            push_catch(bytes, place, (d.size, d.offset), pad, takes)
        }
        OwnKind::Cleanup { pad } => push_cleanup(bytes, place, d.size, d.offset, pad),
    }
}

/// Appends descriptors, the first at address `place`, and the word that ends the list.
#[tactic(auto, using(crate::proofs::Written::steps))]
pub fn push_descriptors(
    bytes: &mut Vec<u8>,
    place: u32,
    descriptors: &[OwnDescriptor],
) -> Result<(), AllocError>
    ensures { OnOk result (bytes.new.items ≡ bytes.old.items ++ descriptors_bytes place descriptors.now) }
{
    let mut at = place;
    for d in descriptors {
        push_descriptor(bytes, at, d)?;
        at = at.wrapping_add(d.kind.size());
    }
    push_word(bytes, 0)
}

/// Appends a table of personality index 2, at address `place`: its unwind instructions and its descriptors. It is read as it was
/// written if the number of instruction bytes is two more than a multiple of 4, and at most 1,022.
pub fn push_table(
    bytes: &mut Vec<u8>,
    place: u32,
    codes: &[u8],
    descriptors: &[OwnDescriptor],
) -> Result<(), AllocError>
    ensures { OnOk result (bytes.new.items ≡ bytes.old.items ++ table_bytes place codes.now descriptors.now) }
{
    push_codes(bytes, codes)?;
    push_descriptors(bytes, place.wrapping_add(codes_end(codes)), descriptors)
}
