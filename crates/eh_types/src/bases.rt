//! The bases of a type, lent from the image's bytes (docs/rules/types-and-matching.md, "The words of a type").
ghost use Rattle.std.specs.Prelude.{◌≡◌, ◌+◌, ◌-◌, ◌*◌, ◌/◌, ◌%◌, ◌^◌, ◌<◌, ◌==◌, pos, ◌-ℤ◌, nat_lt, if◌then◌else◌, length, drop};
ghost use Rattle.std.specs.Iterator.{YieldsFirst, item_count};
ghost use Rattle.elf_image.specs.Segments.{RiseFrom};
ghost use Rattle.eh_types.specs.Words.{word};
ghost use Rattle.eh_types.specs.Types.{offset_in, base_by, base_in, base_count, single_base, nth_base, bases_at};

use crate::kind::{Base, TypeKind};
use crate::types::{BASE_SIZE, BASES};
use crate::vtables::SECOND;
use crate::words::{WORD_SIZE, word_of};
use elf_image::segment::Segment;
use std::marker::Model;

/// The signed 24-bit offset in the upper bits of a base's flags word.
fn offset_in(flags: u32) -> i32
    ensures { result ≡ offset_in flags }
{
    let high = flags / 256;
    if high < 0x80_0000 {
        high as i32
    } else {
        high as i32 - 0x100_0000
    }
}

/// The base that two words describe: its type and its flags. Bit 0 of the flags is set for a virtual base, bit 1 for a public one.
#[tactic(auto, unfolding(crate::specs::Types::base_by))]
fn base_by(ty: u32, flags: u32) -> Base
    ensures { result ≡ base_by ty flags }
{
    Base {
        ty,
        offset: offset_in(flags),
        is_virtual: flags % 2 == 1,
        is_public: flags / 2 % 2 == 1,
    }
}

/// Base `k` of the base list of the type at `at` (a class with a list of bases).
#[tactic(auto, unfolding(crate::specs::Types::base_in))]
fn base_in(segments: &[Segment], at: u32, k: u32) -> Base
    requires { RiseFrom 0 segments.now }
    ensures { result ≡ base_in segments.now at k }
{
    let place = u64::from(at) + BASES + BASE_SIZE * u64::from(k);
    base_by(
        word_of(segments, place),
        word_of(segments, place + WORD_SIZE),
    )
}

/// The only base of a class with a single base: public, not virtual, at offset 0.
fn single_base(ty: u32) -> Base
    ensures { result ≡ single_base ty }
{
    Base {
        ty,
        offset: 0,
        is_virtual: false,
        is_public: true,
    }
}

/// Base `k` of a type; `k` must be below the type's number of bases.
fn nth_base(segments: &[Segment], at: u32, kind: TypeKind, k: u32) -> Base
    requires { RiseFrom 0 segments.now }
    ensures { result ≡ nth_base segments.now at kind k }
{
    match kind {
        TypeKind::Si(base) => single_base(base),
        TypeKind::Other
        | TypeKind::Fundamental
        | TypeKind::Class
        | TypeKind::Vmi
        | TypeKind::Pointer { .. } => base_in(segments, at, k),
    }
}

/// How many bases a type has.
pub(crate) fn base_count(segments: &[Segment], at: u32, kind: TypeKind) -> u32
    requires { RiseFrom 0 segments.now }
    ensures { result ≡ base_count segments.now at kind }
{
    match kind {
        TypeKind::Si(_) => 1,
        TypeKind::Vmi => word_of(segments, u64::from(at) + SECOND),
        TypeKind::Other | TypeKind::Fundamental | TypeKind::Class | TypeKind::Pointer { .. } => 0,
    }
}

/// Iterates over the bases of a type, in the order of its list. In contracts, a `Bases` is the list of bases still to come. It
/// reads the image's bytes in place and allocates nothing; each word takes a binary search over the segments.
#[derive(Drop)]
pub struct Bases<'g, 'a> {
    segments: &'g [Segment<'a>],
    at: u32,
    kind: TypeKind,
    next: u32,
    count: u32,
}

impl<'g, 'a> Model for Bases<'g, 'a> {
    ghost use Rattle.std.specs.Prelude.{◌≡◌, List, length, drop};
    ghost use Rattle.elf_image.specs.Segments.{RiseFrom};
    ghost use Rattle.eh_types.specs.declared.kind.Base.{Base};
    ghost use Rattle.eh_types.specs.Types.{bases_at};

    ghost Value = { List Base };

    ghost view = { λ b. drop b.next (bases_at b.segments.now b.at b.kind) };

    ghost invariant = { λ b. RiseFrom 0 b.segments.now × (b.count ≡ length (bases_at b.segments.now b.at b.kind)) };
}

impl<'g, 'a> Bases<'g, 'a> {
    /// The bases of the type at `at`, read from these segments.
    #[tactic(auto, using(crate::proofs::BaseLists::base_counts))]
    pub(crate) fn of(segments: &'g [Segment<'a>], at: u32, kind: TypeKind) -> Bases<'g, 'a>
        requires { RiseFrom 0 segments.now }
        ensures { result ≡ bases_at segments.now at kind }
    {
        Bases {
            segments,
            at,
            kind,
            next: 0,
            count: base_count(segments, at, kind),
        }
    }
}

impl<'g, 'a> Iterator for Bases<'g, 'a> {
    type Item = Base;

    ghost next_gives = { YieldsFirst (λ s. s) };

    ghost remaining = { item_count (λ s. s) };

    #[tactic(auto, using(crate::proofs::BaseLists::steps))]
    fn next(&mut self) -> Option<Base> {
        if self.next >= self.count {
            return None;
        }
        let base = nth_base(self.segments, self.at, self.kind, self.next);
        self.next += 1;
        Some(base)
    }
}
