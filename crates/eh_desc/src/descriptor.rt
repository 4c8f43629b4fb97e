//! Descriptors and the iterator over them (IHI 0038). docs/rules/unwind-tables.md has the formats.
ghost use Rattle.std.specs.Prelude.{◌≡◌, ◌+◌, ◌-◌, ◌*◌, ◌/◌, ◌%◌, ◌^◌, ◌<◌, ◌≤◌, ◌==◌, [], length, IfSome, IsOk, IsTrue, ◌↔◌, nat_le, Some, None, Ok, Err, option_copied};
ghost use Rattle.std.specs.Iterator.{YieldsFirst, item_count};
ghost use Rattle.eh_desc.specs.Grammar.{word_at, address_at, pad_by, type_by, catch_type, descriptor_of, cleanup_at, catch_at, spec_with_pad, types_at, specification_at, kind_at, next_desc_at, items_from, items_of, table_items, type_in};
ghost use Rattle.eh_desc.specs.Tables.{form, scope_at};
ghost use Rattle.eh_index.specs.Places.{table_of};
ghost use Rattle.eh_bytecode.specs.Codes.{table_codes};

use eh_bytecode::Codes;
use eh_codes::row::even;
use eh_codes::words::{LANDING_PAD_MARK, REFERENCE_MARK, WIDE_PERSONALITY};
use eh_codes::{Entry, EntryBody, code_words_after, personality_of_word};
use eh_index::Index;
use eh_word::{get_word, prel31};
use std::marker::Model;

/// The type word of a catch that catches everything.
pub const ALL: u32 = 0xFFFF_FFFF;
/// The type word of a catch that ends the search: it matches everything, but the search then fails.
pub const ALL_FAILS: u32 = 0xFFFF_FFFE;
/// The most types of a specification.
pub const MOST_TYPES: u32 = 1024;

/// What a catch descriptor catches.
#[derive(Clone, Copy)]
pub enum CatchType {
    /// Everything.
    All,
    /// Everything, but then the search fails and the program terminates.
    AllFails,
    /// The type whose information is at this address; 0 for no type.
    One(u32),
}

/// The kind of a descriptor. Addresses are in bytes; bit 0 of a landing pad's address is clear.
#[derive(Clone, Copy)]
pub enum DescKind {
    /// A cleanup; `pad` is its landing pad's address.
    Cleanup {
        pad: u32,
    },
    /// A catch of the type `ty`, or with `reference` of a reference to it; `pad` is its landing pad's address.
    Catch {
        pad: u32,
        reference: bool,
        ty: CatchType,
    },
    /// A function's exception specification: `types` is the address of its type words, `count` their number, and `pad` its landing
    /// pad's address, if it has one.
    Spec {
        types: u32,
        count: u32,
        pad: Option<u32>,
    },
}

/// A descriptor of an exception table entry.
#[derive(Clone, Copy)]
pub struct Desc {
    /// Its address, in bytes.
    pub at: u32,
    /// The address of the descriptor after it.
    pub next: u32,
    /// The first address of its scope.
    pub start: u32,
    /// The size of its scope, in bytes.
    pub size: u32,
    /// Its kind, with what that needs.
    pub kind: DescKind,
}

impl Desc {
    /// Whether an address lies in the scope: at or above its start, and below its end. A scope that ends past the last address contains
    /// no address.
    #[inline(always)]
    pub fn covers(&self, site: u32) -> bool
        ensures { IsTrue result ↔ ((self.now.start ≤ site) × (site < (self.now.start + self.now.size) % 2 ^ 32)) }
    {
        self.start <= site && site < self.start.wrapping_add(self.size)
    }
}

/// Why the list of descriptors can't be read further.
#[derive(Clone, Copy)]
pub enum DescFault {
    /// A descriptor goes past the end of the bytes.
    Short,
    /// Both mark bits are set: no kind of descriptor has them.
    Kind,
    /// A specification has more than 1,024 types.
    Count,
}

/// The bytes of an exception table entry, and where they lie.
#[derive(Clone, Copy)]
pub struct Table<'a> {
    /// The bytes from the entry's first byte on.
    pub bytes: &'a [u8],
    /// The address of the first byte.
    pub address: u32,
    /// The start address of the entry's function.
    pub start: u32,
    /// Whether scope lengths and offsets are words; else they are halfwords.
    pub wide: bool,
}

/// The scope words of a descriptor, and the place after them.
#[derive(Clone, Copy)]
pub struct Scope {
    /// The first word: the length of the scope in bytes; bit 0 is a mark.
    pub length: u32,
    /// The second word: the start of the scope, in bytes from the function's start; bit 0 is a mark.
    pub offset: u32,
    /// The place after both words: an index into the table's bytes.
    pub place: usize,
}

/// What the bytes at a place are.
#[derive(Clone, Copy)]
pub enum NextDesc {
    /// The end of the list.
    End,
    /// A descriptor, and the place after it (an index into the table's bytes).
    One(Desc, usize),
    /// They can't be read, for this reason.
    Fault(DescFault),
}

/// The address of the type that a type word at `address` refers to; 0 for a word of 0.
fn type_by(address: u32, word: u32) -> u32
    ensures { result ≡ type_by address word }
{
    if word == 0 {
        0
    } else {
        address.wrapping_add(word)
    }
}

/// What a catch with this type word at `address` catches.
fn catch_type(address: u32, word: u32) -> CatchType
    ensures { result ≡ catch_type address word }
{
    match word {
        ALL => CatchType::All,
        ALL_FAILS => CatchType::AllFails,
        _ => CatchType::One(type_by(address, word)),
    }
}

impl<'a> Table<'a> {
    /// The word at a place; None if the bytes don't contain it.
    #[inline(always)]
    #[tactic(auto, using(crate::proofs::Room::room))]
    fn word(&self, place: usize) -> Option<u32>
        ensures word { result ≡ word_at (form self.now) place }
        ensures room { IfSome result (λ word. place + 4 ≤ length self.now.bytes.now) }
    {
        get_word(self.bytes, place)
    }

    /// The address of a place.
    #[inline(always)]
    fn address_at(&self, place: usize) -> u32
        ensures { result ≡ address_at (form self.now) place }
    {
        self.address.wrapping_add((place % 0x1_0000_0000) as u32)
    }

    /// The landing pad's address that the word at a place refers to.
    #[inline(always)]
    fn pad_by(&self, place: usize, word: u32) -> u32
        ensures { result ≡ pad_by (form self.now) place word }
    {
        even(prel31(self.address_at(place), word))
    }

    #[inline(always)]
    fn descriptor_of(&self, place: usize, scope: Scope, kind: DescKind, next: usize) -> NextDesc
        ensures { result ≡ descriptor_of (form self.now) place scope.length scope.offset kind next }
    {
        let desc = Desc {
            at: self.address_at(place),
            next: self.address_at(next),
            start: self.start.wrapping_add(even(scope.offset)),
            size: even(scope.length),
            kind,
        };
        NextDesc::One(desc, next)
    }

    #[inline(always)]
    fn cleanup(&self, place: usize, scope: Scope) -> NextDesc
        ensures { result ≡ cleanup_at (form self.now) place scope.length scope.offset scope.place }
    {
        let Some(pad) = self.word(scope.place) else {
            return NextDesc::Fault(DescFault::Short);
        };
        let pad = self.pad_by(scope.place, pad);
        self.descriptor_of(place, scope, DescKind::Cleanup { pad }, scope.place + 4)
    }

    #[inline(always)]
    fn catch(&self, place: usize, scope: Scope) -> NextDesc
        ensures { result ≡ catch_at (form self.now) place scope.length scope.offset scope.place }
    {
        let Some(pad) = self.word(scope.place) else {
            return NextDesc::Fault(DescFault::Short);
        };
        let Some(ty) = self.word(scope.place + 4) else {
            return NextDesc::Fault(DescFault::Short);
        };
        let kind = DescKind::Catch {
            pad: self.pad_by(scope.place, pad),
            reference: pad >= REFERENCE_MARK,
            ty: catch_type(self.address_at(scope.place + 4), ty),
        };
        self.descriptor_of(place, scope, kind, scope.place + 8)
    }

    /// A specification with `count` type words at `types`, and a landing pad after them.
    fn spec_with_pad(&self, place: usize, scope: Scope, types: usize, count: u32) -> NextDesc
        requires types { types ≤ length self.now.bytes.now }
        requires count { count ≤ MOST_TYPES }
        ensures { result ≡ spec_with_pad (form self.now) place scope.length scope.offset types count }
    {
        let at = types + 4 * count as usize;
        let Some(pad) = self.word(at) else {
            return NextDesc::Fault(DescFault::Short);
        };
        let kind = DescKind::Spec {
            types: self.address_at(types),
            count,
            pad: Some(self.pad_by(at, pad)),
        };
        self.descriptor_of(place, scope, kind, at + 4)
    }

    /// A specification with `count` type words at `types`; `padded` says whether a landing pad comes after them.
    fn types(&self, place: usize, scope: Scope, types: usize, count: u32, padded: bool) -> NextDesc
        requires types { types ≤ length self.now.bytes.now }
        requires count { count ≤ MOST_TYPES }
        ensures { result ≡ types_at (form self.now) place scope.length scope.offset types count padded }
    {
        let after = types + 4 * count as usize;
        if after > self.bytes.len() {
            return NextDesc::Fault(DescFault::Short);
        }
        if padded {
            return self.spec_with_pad(place, scope, types, count);
        }
        let kind = DescKind::Spec {
            types: self.address_at(types),
            count,
            pad: None,
        };
        self.descriptor_of(place, scope, kind, after)
    }

    #[inline(never)]
    fn specification(&self, place: usize, scope: Scope) -> NextDesc
        ensures { result ≡ specification_at (form self.now) place scope.length scope.offset scope.place }
    {
        let Some(word) = self.word(scope.place) else {
            return NextDesc::Fault(DescFault::Short);
        };
        let count = word % LANDING_PAD_MARK;
        if count > MOST_TYPES {
            return NextDesc::Fault(DescFault::Count);
        }
        let padded = word >= LANDING_PAD_MARK;
        self.types(place, scope, scope.place + 4, count, padded)
    }

    /// The descriptor with this scope, whose kind its marks tell.
    #[inline(always)]
    fn kind(&self, place: usize, scope: Scope) -> NextDesc
        ensures { result ≡ kind_at (form self.now) place scope.length scope.offset scope.place }
    {
        match (scope.offset % 2 == 0, scope.length % 2 == 0) {
            (true, true) => self.cleanup(place, scope),
            (true, false) => self.catch(place, scope),
            (false, true) => self.specification(place, scope),
            (false, false) => NextDesc::Fault(DescFault::Kind),
        }
    }

    /// The scope whose first word is at a place. None if its second word isn't there.
    #[inline(always)]
    fn scope(&self, place: usize, first: u32) -> Option<Scope>
        requires { place + 4 ≤ length self.now.bytes.now }
        ensures { result ≡ scope_at (form self.now) place first }
    {
        if !self.wide {
            return Some(Scope {
                length: first % 0x1_0000,
                offset: first / 0x1_0000,
                place: place + 4,
            });
        }
        let offset = self.word(place + 4)?;
        Some(Scope {
            length: first,
            offset,
            place: place + 8,
        })
    }

    /// What the bytes at a place are: a descriptor, a fault, or the end of the list.
    #[inline(always)]
    fn next_desc_at(&self, place: usize) -> NextDesc
        ensures { result ≡ next_desc_at (form self.now) place }
    {
        let Some(first) = self.word(place) else {
            return NextDesc::Fault(DescFault::Short);
        };
        if first == 0 {
            return NextDesc::End;
        }
        match self.scope(place, first) {
            Some(scope) => self.kind(place, scope),
            None => NextDesc::Fault(DescFault::Short),
        }
    }
}

/// Iterates over the descriptors of an entry; a fault is the last item. In contracts, a `Descs` is the list of items still to come. It
/// reads the table in place and allocates nothing.
#[derive(Drop)]
pub struct Descs<'a> {
    table: Table<'a>,
    place: usize,
    over: bool,
}

impl<'a> Model for Descs<'a> {
    ghost use Rattle.std.specs.Prelude.{List, Result, [], if◌then◌else◌};
    ghost use Rattle.eh_desc.specs.declared.descriptor.Desc.{Desc};
    ghost use Rattle.eh_desc.specs.declared.descriptor.DescFault.{DescFault};
    ghost use Rattle.eh_desc.specs.Grammar.{items_from};
    ghost use Rattle.eh_desc.specs.Tables.{form};

    ghost Value = { List (Result Desc DescFault) };

    ghost view = { λ d. if d.over then [] else items_from (form d.table) d.place };
}

impl<'a> Descs<'a> {
    /// No descriptors.
    #[inline(always)]
    pub fn none() -> Descs<'a>
        ensures { result ≡ [] }
    {
        Descs {
            table: Table {
                bytes: &[],
                address: 0,
                start: 0,
                wide: false,
            },
            place: 0,
            over: true,
        }
    }

    /// The descriptors in a table at `address`, of an entry that starts at `start`. They follow the unwind instructions, which must be
    /// readable.
    #[inline(always)]
    pub fn after_codes(start: u32, address: u32, bytes: &'a [u8]) -> Descs<'a>
        requires { IsOk (table_codes bytes.now) }
        ensures { result ≡ table_items start address bytes.now }
    {
        let Some(first) = get_word(bytes, 0) else {
            return Descs::none();
        };
        let table = Table {
            bytes,
            address,
            start,
            wide: personality_of_word(first) == WIDE_PERSONALITY,
        };
        Descs {
            table,
            place: 4 + 4 * code_words_after(first) as usize,
            over: false,
        }
    }

    /// The descriptors after the unwind instructions of a table.
    fn after(start: u32, address: u32, bytes: &'a [u8]) -> Descs<'a>
        ensures { result ≡ table_items start address bytes.now }
    {
        if Codes::table(bytes).is_err() {
            return Descs::none();
        }
        Descs::after_codes(start, address, bytes)
    }

    /// The descriptors of an entry. The bytes end with the file bytes of the read-only segment that contains the table. An entry
    /// without a table, or whose unwind instructions can't be read, has none.
    pub fn of(index: &Index<'_, 'a>, e: &Entry) -> Descs<'a>
        ensures { result ≡ items_of e.now (table_of index.now e.now) }
    {
        Descs::of_table(e, index.table(e))
    }

    /// As `of`, from the bytes that the index gives for the entry.
    pub fn of_table(e: &Entry, table: Option<&'a [u8]>) -> Descs<'a>
        ensures { result ≡ items_of e.now (option_copied table.entry) }
    {
        match (e.body, table) {
            (EntryBody::Table(address), Some(bytes)) => Descs::after(e.start, address, bytes),
            (EntryBody::Table(_) | EntryBody::CantUnwind | EntryBody::Inline(_), _) =>
                Descs::none(),
        }
    }
}

impl<'a> Iterator for Descs<'a> {
    type Item = Result<Desc, DescFault>;

    ghost next_gives = { YieldsFirst (λ s. s) };

    ghost remaining = { item_count (λ s. s) };

    #[inline(always)]
    #[tactic(auto, using(crate::proofs::Items::over, crate::proofs::Items::one, crate::proofs::Items::fault))]
    fn next(&mut self) -> Option<Result<Desc, DescFault>> {
        if self.over {
            return None;
        }
        match self.table.next_desc_at(self.place) {
            NextDesc::End => {
                self.over = true;
                None
            }
            NextDesc::One(desc, next) => {
                self.place = next;
                Some(Ok(desc))
            }
            NextDesc::Fault(fault) => {
                self.over = true;
                Some(Err(fault))
            }
        }
    }
}

/// The address of type `i` of a specification. None if `i` isn't below the count, the word is 0 or not in the file bytes of a read-only
/// segment, or the descriptor isn't a specification.
pub fn spec_type(index: &Index, d: &Desc, i: u32) -> Option<u32>
    ensures { result ≡ type_in index.now.segments d.now.kind i }
{
    let DescKind::Spec { types, count, .. } = d.kind else {
        return None;
    };
    if i >= count {
        return None;
    }
    let at = types.wrapping_add(i.wrapping_mul(4));
    let place = Entry {
        start: 0,
        body: EntryBody::Table(at),
    };
    let word = get_word(index.table(&place)?, 0)?;
    if word == 0 {
        return None;
    }
    Some(at.wrapping_add(word))
}
