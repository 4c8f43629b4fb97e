//! The graph of an image's types, looked up by address (docs/rules/types-and-matching.md).
ghost use Rattle.std.specs.Prelude.{◌≡◌, ◌≢◌, ◌<◌, ◌≤◌, is_some, option_copied, option_map, length, map, nat_lt, IfOk, IfErr};
ghost use Rattle.std.specs.List.{prefix_len};
ghost use Rattle.std.specs.Map.{values_of, keys_of};
ghost use Rattle.std.specs.List.Sorted.{IsStrictlySortedBy};
ghost use Rattle.std.specs.Ordering.{nat_cmp};
ghost use Rattle.eh_types.specs.declared.fault.TypeFault.TheVariants.{OutOfMemory};
ghost use Rattle.eh_types.specs.Vtables.{vtables_of};
ghost use Rattle.eh_types.specs.Meant.{IsGraph, Shows, NoGraph};
ghost use Rattle.eh_types.specs.Graph.{Rise, row_of, kind_of, bases_of, name_of, same_type, same_name, IsSound};
ghost use Rattle.eh_types.specs.Types.{row_in, rows_in};

use crate::bases::Bases;
use crate::fault::TypeFault;
use crate::info::TypeInfo;
use crate::kind::TypeKind;
use crate::reader::{TypeReader, read_all};
use crate::state::{CountedType, GraphWalk};
use crate::vtables::vtables_of;
use elf_image::image::Image;
use elf_image::segment::Segment;
use std::alloc::{AllocError, Global};
use std::collections::BTreeMap;
use std::marker::Model;

/// The most paths that may lead from a type through its bases; the empty path counts.
pub const MOST_PATHS: u32 = 256;

/// The first byte of the name of a type that is compared by its address alone.
pub const LOCAL_MARK: u8 = b'*';

/// The types of an image, looked up by their addresses. Names and bases are read in place from the image's segments. In contracts,
/// a `TypeGraph` is a list of rows in ascending order of their addresses.
#[derive(Drop)]
pub struct TypeGraph<'a> {
    segments: Vec<Segment<'a>>,
    types: Vec<TypeInfo<'a>>,
}

impl<'a> Model for TypeGraph<'a> {
    ghost use Rattle.std.specs.Prelude.{List};
    ghost use Rattle.elf_image.specs.Segments.{RiseFrom};
    ghost use Rattle.eh_types.specs.Graph.{Row, IsSound};
    ghost use Rattle.eh_types.specs.Types.{rows_in};

    ghost Value = { List Row };

    ghost view = { λ g. rows_in g.segments.items g.types.items };

    ghost invariant = { λ g. IsSound (rows_in g.segments.items g.types.items) × RiseFrom 0 g.segments.items };
}

/// How many of the types have an address below `ty` (binary search).
fn types_below(types: &[TypeInfo], ty: u32) -> usize
    requires { Rise 0 types.now }
    ensures count { result ≡ prefix_len (λ r. nat_lt r.at ty) types.now }
    ensures within { result ≤ length types.now }
{
    types.partition_point(|t| t.at < ty)
}

/// The entry of the type at an address; None if there is none.
#[tactic(auto, using(crate::proofs::Lookups::row_lookups))]
fn row<'g, 'a>(types: &'g [TypeInfo<'a>], ty: u32) -> Option<&'g TypeInfo<'a>>
    requires { Rise 0 types.now }
    ensures { option_copied result ≡ row_of types.now ty }
{
    let below = types_below(types, ty);
    if below == types.len() {
        return None;
    }
    let info = &types[below];
    if info.at() == ty { Some(info) } else { None }
}

/// As `row`; its contract also gives the bases that the type has in these segments.
fn row_read<'g, 'a>(
    segments: &[Segment],
    types: &'g [TypeInfo<'a>],
    ty: u32,
) -> Option<&'g TypeInfo<'a>>
    requires { Rise 0 (rows_in segments.now types.now) }
    ensures { option_map (row_in segments.now) (option_copied result) ≡ row_of (rows_in segments.now types.now) ty }
{
    let _count = segments.len();
    row(types, ty)
}

/// Whether two names are equal, not empty, and not compared by address (see `LOCAL_MARK`).
fn is_same_name(a: &[u8], b: &[u8]) -> bool
    ensures { result ≡ same_name a.now b.now }
{
    !a.is_empty() && a[0] != LOCAL_MARK && a == b
}

/// The types that were read, in ascending order of their addresses.
fn types_in_order<'a>(
    alloc: Global,
    done: BTreeMap<u32, CountedType<'a>>,
) -> Result<Vec<TypeInfo<'a>>, AllocError>
    ensures items { IfOk result (λ v. v.items ≡ map (λ d. d.info) (values_of done.entry.entries)) }
    ensures ordered { IsStrictlySortedBy nat_cmp (keys_of done.entry.entries) }
{
    let mut types = Vec::with_capacity(alloc, done.len())?;
    for d in done.into_values() {
        let CountedType { info, paths: _ } = d;
        types.push(info)?;
    }
    Ok(types)
}

/// A copy of the segment that borrows the same bytes.
fn same_segment<'a>(segment: &Segment<'a>) -> Segment<'a>
    ensures { result ≡ segment.now }
{
    Segment {
        start: segment.start(),
        bytes: segment.bytes(),
        size: segment.size(),
        write: segment.may_write(),
        exec: segment.may_execute(),
    }
}

/// Copies of the segments, at most 1,024 by the limit of docs/rules/elf.md; Err if memory runs out.
fn same_segments<'a>(
    alloc: Global,
    segments: &[Segment<'a>],
) -> Result<Vec<Segment<'a>>, AllocError>
    ensures { IfOk result (λ v. v.items ≡ segments.now) }
{
    let mut same = Vec::with_capacity(alloc, segments.len())?;
    for segment in segments {
        same.push(same_segment(segment))?;
    }
    Ok(same)
}

/// The types that can be reached from the roots; Err with the first fault met.
fn types_of<'a>(alloc: Global, source: &TypeReader<'_, 'a>) -> Result<Vec<TypeInfo<'a>>, TypeFault>
    requires told { source.now.vtables ≡ vtables_of source.now.image.now }
    ensures meant { IfOk result (λ types. IsGraph source.now.image.now source.now.roots.now (rows_in source.now.image.now.segments types.items)) }
    ensures shown { IfErr result (λ fault. fault ≢ OutOfMemory → Shows source.now.image.now source.now.roots.now fault) }
{
    match read_all(alloc, source) {
        Ok(
            GraphWalk {
                done,
                open: _,
                stack: _,
                pending: _,
            },
        ) => Ok(types_in_order(alloc, done)?),
        Err(fault) => Err(fault),
    }
}

impl<'a> TypeGraph<'a> {
    /// Reads the types at the root addresses and everything they lead to: the bases of a class, the pointee of a pointer. Err if
    /// and only if a reachable type has a fault, or memory runs out; if several types have faults, any of them may be named. The
    /// time is linear in the number of types and bases, apart from binary searches. Names and bases aren't copied.
    pub fn read(alloc: Global, image: &Image<'a>, roots: &[u32]) -> Result<TypeGraph<'a>, TypeFault>
        ensures meant { IfOk result (λ graph. IsGraph image.now roots.now graph) }
        ensures shown { IfErr result (λ fault. fault ≢ OutOfMemory → Shows image.now roots.now fault) }
        ensures none { IfErr result (λ fault. fault ≢ OutOfMemory → NoGraph image.now roots.now) }
    {
        let source = TypeReader {
            image,
            vtables: vtables_of(image),
            roots,
        };
        match types_of(alloc, &source) {
            Ok(types) => {
                let segments = same_segments(alloc, image.segments())?;
                Ok(TypeGraph { segments, types })
            }
            Err(fault) => Err(fault),
        }
    }

    /// Whether there is a type at the address. A binary search, as every look-up here.
    pub fn holds(&self, ty: u32) -> bool
        ensures holds { result ≡ is_some (row_of self.now ty) }
        ensures sound { IsSound self.now }
    {
        match row_read(&self.segments, &self.types, ty) {
            Some(_) => true,
            None => false,
        }
    }

    /// The kind of the type at the address; None if there is no type.
    pub fn kind(&self, ty: u32) -> Option<TypeKind>
        ensures kind { result ≡ kind_of self.now ty }
        ensures sound { IsSound self.now }
    {
        match row_read(&self.segments, &self.types, ty) {
            Some(info) => Some(info.kind()),
            None => None,
        }
    }

    /// The bases of the type at the address, in the order of its list; empty if there is no type. Costs one look-up, and one more
    /// for each word that is read.
    pub fn bases(&self, ty: u32) -> Bases<'_, 'a>
        ensures bases { result ≡ bases_of self.now ty }
        ensures sound { IsSound self.now }
    {
        let segments = &self.segments[..];
        match row_read(segments, &self.types, ty) {
            Some(info) => Bases::of(segments, info.at(), info.kind()),
            None => Bases::of(segments, 0, TypeKind::Other),
        }
    }

    /// The name of the type at the address, without its zero byte; empty if there is no type.
    pub fn name(&self, ty: u32) -> &[u8]
        ensures name { result.now ≡ name_of self.now ty }
        ensures sound { IsSound self.now }
    {
        match row_read(&self.segments, &self.types, ty) {
            Some(info) => info.name(),
            None => &[],
        }
    }

    /// Whether two types are equal: they have the same address, or the same name, which isn't empty and doesn't begin with `*`. An
    /// address without a type equals only itself.
    #[tactic(auto, unfolding(crate::specs::Graph::same_type))]
    pub fn is_same(&self, a: u32, b: u32) -> bool
        ensures { result ≡ same_type self.now a b }
    {
        a == b || is_same_name(self.name(a), self.name(b))
    }
}
