//! Decodes one type from the words at its address (docs/rules/types-and-matching.md).
ghost use Rattle.std.specs.Prelude.{◌≡◌, ◌+◌, ◌*◌, ◌^◌, ◌<◌, IfOk, IfErr, Ok, Err, Some, None};
ghost use Rattle.eh_types.specs.Vtables.{vtables_of, kind_by};
ghost use Rattle.eh_types.specs.Words.{word, words_from, name_at};
ghost use Rattle.eh_types.specs.Types.{base_count, base_type, word_count, kind_at, type_or_fault, row_named, row_in, type_at};

use crate::bases::base_count;
use crate::fault::TypeFault;
use crate::info::TypeInfo;
use crate::kind::TypeKind;
use crate::vtables::{SECOND, Vtables, kind_by};
use crate::words::{WORD_SIZE, name_at, word, words_from};
use elf_image::image::Image;

/// The most bytes of a type's name.
pub const NAME_LIMIT: usize = 1024;
/// Offset of the word with the name's address, in bytes from the start of the type.
pub const NAME: u64 = 4;
/// Offset of the list of bases, in bytes from the start of the type.
pub const BASES: u64 = 16;
/// The size of one entry of the list of bases, in bytes.
pub const BASE_SIZE: u64 = 8;

/// What a type's own words tell: its kind, its name, and its number of bases.
#[derive(Drop)]
pub(crate) struct Head<'a> {
    /// The kind of the type.
    pub kind: TypeKind,
    /// The type's name, without its zero byte.
    pub name: &'a [u8],
    /// The number of its bases.
    pub count: u32,
}

/// The address of the type of base `k`.
pub(crate) fn base_type(image: &Image, at: u32, kind: TypeKind, k: u32) -> u32
    ensures { result ≡ base_type image.now.segments at kind k }
{
    match kind {
        TypeKind::Si(base) => base,
        TypeKind::Vmi => word(image, u64::from(at) + BASES + BASE_SIZE * u64::from(k)),
        TypeKind::Other | TypeKind::Fundamental | TypeKind::Class | TypeKind::Pointer { .. } => 0,
    }
}

/// The number of words of a type.
fn word_count(image: &Image, at: u32, kind: TypeKind) -> u64
    ensures { result ≡ word_count image.now.segments at kind }
{
    match kind {
        TypeKind::Other | TypeKind::Fundamental | TypeKind::Class => 2,
        TypeKind::Si(_) => 3,
        TypeKind::Vmi => 4 + 2 * u64::from(word(image, u64::from(at) + SECOND)),
        TypeKind::Pointer { .. } => 4,
    }
}

/// Reads a type's kind, name and number of bases; Err with the first fault that its words show.
#[tactic(auto, unfolding(crate::specs::Types::type_at))]
pub(crate) fn read_head<'a>(
    image: &Image<'a>,
    vtables: &Vtables,
    at: u32,
) -> Result<Head<'a>, TypeFault>
    requires { vtables.now ≡ vtables_of image.now }
    ensures row { IfOk result (λ h. type_at image.now at ≡ Ok (row_named image.now at h.name.now)) }
    ensures kind { IfOk result (λ h. h.kind ≡ kind_at image.now at) }
    ensures count { IfOk result (λ h. h.count ≡ base_count image.now.segments at (kind_at image.now at)) }
    ensures fits { IfOk result (λ h. h.count < 2 ^ 32) }
    ensures refused { IfErr result (λ fault. type_at image.now at ≡ Err fault) }
{
    let kind = kind_by(image, vtables, at);
    let Some(writable) = words_from(image, u64::from(at), word_count(image, at, kind)) else {
        return Err(TypeFault::Unreadable(at));
    };
    let Some((name, shared)) = name_at(image, word(image, u64::from(at) + NAME)) else {
        return Err(TypeFault::Unreadable(at));
    };
    if writable || shared {
        return Err(TypeFault::Writable(at));
    }
    if name.len() > NAME_LIMIT {
        return Err(TypeFault::NameTooLong(at));
    }
    Ok(Head {
        kind,
        name,
        count: base_count(image.segments(), at, kind),
    })
}

/// Reads the type at an address, without its bases; Err with the first fault that its words show.
#[tactic(auto, unfolding(crate::specs::Types::row_named))]
pub(crate) fn info<'a>(
    image: &Image<'a>,
    vtables: &Vtables,
    at: u32,
) -> Result<TypeInfo<'a>, TypeFault>
    requires { vtables.now ≡ vtables_of image.now }
    ensures row { IfOk result (λ t. type_at image.now at ≡ Ok (row_in image.now.segments t)) }
    ensures refused { IfErr result (λ fault. type_at image.now at ≡ Err fault) }
{
    match read_head(image, vtables, at) {
        Ok(head) => Ok(TypeInfo {
            at,
            kind: head.kind,
            name: head.name,
        }),
        Err(fault) => Err(fault),
    }
}
