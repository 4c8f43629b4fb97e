//! The vtables that tell the kinds of types apart (docs/rules/types-and-matching.md).
ghost use Rattle.std.specs.Prelude.{◌≡◌, ◌+◌, ◌%◌, ◌^◌, option_map};
ghost use Rattle.elf_image.specs.Image.{symbol_in};
ghost use Rattle.eh_types.specs.Vtables.{vtable_at, vtables_of, is_at, kind_by};
ghost use Rattle.eh_types.specs.Words.{word};

use crate::kind::TypeKind;
use crate::words::word;
use elf_image::image::Image;

/// The vtable symbol of the type information of built-in types.
pub const FUNDAMENTAL: &[u8] = b"_ZTVN10__cxxabiv123__fundamental_type_infoE";
/// The vtable symbol for classes without bases.
pub const CLASS: &[u8] = b"_ZTVN10__cxxabiv117__class_type_infoE";
/// The vtable symbol for classes with one base, which is public, not virtual, and at offset 0.
pub const SINGLE: &[u8] = b"_ZTVN10__cxxabiv120__si_class_type_infoE";
/// The vtable symbol for classes with a list of bases of any sort.
pub const MANY: &[u8] = b"_ZTVN10__cxxabiv121__vmi_class_type_infoE";
/// The vtable symbol for pointers.
pub const POINTER: &[u8] = b"_ZTVN10__cxxabiv119__pointer_type_infoE";

/// Offset of the address that type information holds as its vtable pointer, in bytes from the start of the vtable.
pub const VTABLE_POINT: u32 = 8;
/// Offset of the first word after the name's, in bytes from the start of the type: the type of a single base, or flags.
pub const FIRST: u64 = 8;
/// Offset of the second word after the name's, in bytes from the start of the type: the number of bases, or a pointee.
pub const SECOND: u64 = 12;

/// The vtable pointers of the five kinds of type information. Each is None if the image doesn't define the vtable.
#[derive(Clone, Copy)]
pub(crate) struct Vtables {
    /// The vtable pointer of built-in types.
    pub fundamental: Option<u32>,
    /// The vtable pointer of classes without bases.
    pub class: Option<u32>,
    /// The vtable pointer of classes with a single base.
    pub single: Option<u32>,
    /// The vtable pointer of classes with a list of bases.
    pub many: Option<u32>,
    /// The vtable pointer of pointers.
    pub pointer: Option<u32>,
}

/// The vtable pointer for the vtable with this symbol; None if the image doesn't define it.
fn vtable_at(image: &Image, name: &[u8]) -> Option<u32>
    ensures { result ≡ vtable_at image.now name.now }
{
    match image.symbol(name) {
        Some(a) => Some(a.wrapping_add(VTABLE_POINT)),
        None => None,
    }
}

/// The vtable pointers that an image has.
pub(crate) fn vtables_of(image: &Image) -> Vtables
    ensures { result ≡ vtables_of image.now }
{
    Vtables {
        fundamental: vtable_at(image, FUNDAMENTAL),
        class: vtable_at(image, CLASS),
        single: vtable_at(image, SINGLE),
        many: vtable_at(image, MANY),
        pointer: vtable_at(image, POINTER),
    }
}

fn is_at(vtable: Option<u32>, word: u32) -> bool
    ensures { result ≡ is_at vtable word }
{
    match vtable {
        Some(a) => a == word,
        None => false,
    }
}

/// The kind of the type at an address, which its first word tells. If several vtables have that address, the first kind counts.
#[tactic(auto, unfolding(crate::specs::Vtables::kind_by))]
pub(crate) fn kind_by(image: &Image, vtables: &Vtables, at: u32) -> TypeKind
    ensures { result ≡ kind_by vtables.now image.now.segments at }
{
    let a = u64::from(at);
    let vtable = word(image, a);
    if is_at(vtables.fundamental, vtable) {
        TypeKind::Fundamental
    } else if is_at(vtables.class, vtable) {
        TypeKind::Class
    } else if is_at(vtables.single, vtable) {
        TypeKind::Si(word(image, a + FIRST))
    } else if is_at(vtables.many, vtable) {
        TypeKind::Vmi
    } else if is_at(vtables.pointer, vtable) {
        TypeKind::Pointer {
            flags: word(image, a + FIRST),
            pointee: word(image, a + SECOND),
        }
    } else {
        TypeKind::Other
    }
}
