//! The rules by which a thrown type is caught as a wanted type, in their order. docs/rules/types-and-matching.md states them.
ghost use Rattle.std.specs.Prelude.{◌≡◌, ◌<◌, Option, Result};
ghost use Rattle.eh_types.specs.Graph.{kind_of};
ghost use Rattle.eh_match.specs.Rules.{is_class_type, is_fundamental, is_void, is_function, pointer_of, object_at, pointer_at, pointee_match, is_dropped, loses_qualifier, adds_promise, pointer_match, unequal_match, match_of};

use crate::path::load_or_address;
use crate::walk::base_at;
use eh_bus::bus::Bus;
use eh_types::{TypeGraph, TypeKind};

/// The name of `void` in type information.
pub const VOID_NAME: u8 = b'v';

/// The first byte of the name of a function type.
pub const FUNCTION_MARK: u8 = b'F';

/// The number of the pointer flag for a const pointee.
pub const CONST_BIT: u32 = 0;

/// The number of the pointer flag for a volatile pointee.
pub const VOLATILE_BIT: u32 = 1;

/// The number of the pointer flag for a pointee that is a transaction-safe function.
pub const TRANSACTION_SAFE_BIT: u32 = 5;

/// The number of the pointer flag for a pointee that is a `noexcept` function.
pub const NOEXCEPT_BIT: u32 = 6;

/// How a thrown object matches the type of a catch.
#[derive(Clone, Copy, PartialEq, Eq)]
pub enum Match {
    /// It isn't caught.
    Failed,
    /// The object, or a base of it, is caught: its address.
    Object(u32),
    /// A pointer to a base of the thrown pointer's pointee is caught: the base's address, 0 for a null pointer.
    PointerToBase(u32),
    /// It can't be decided: the word at this address is needed to find the base, and can't be loaded.
    Unreadable(u32),
}

/// A pointer type: the qualifiers of its pointee, and the pointee's type.
#[derive(Clone, Copy)]
struct Pointing {
    flags: u32,
    pointee: u32,
}

fn is_class_type(graph: &TypeGraph, ty: u32) -> bool
    ensures { result ≡ is_class_type graph.now ty }
{
    match graph.kind(ty) {
        Some(TypeKind::Class | TypeKind::Si(_) | TypeKind::Vmi) => true,
        Some(TypeKind::Other | TypeKind::Fundamental | TypeKind::Pointer { .. }) | None => false,
    }
}

fn is_fundamental(graph: &TypeGraph, ty: u32) -> bool
    ensures { result ≡ is_fundamental (kind_of graph.now ty) }
{
    match graph.kind(ty) {
        Some(TypeKind::Fundamental) => true,
        Some(
            TypeKind::Other
            | TypeKind::Class
            | TypeKind::Si(_)
            | TypeKind::Vmi
            | TypeKind::Pointer { .. },
        )
        | None => false,
    }
}

fn pointer_of(graph: &TypeGraph, ty: u32) -> Option<Pointing>
    ensures { result ≡ pointer_of (kind_of graph.now ty) }
{
    match graph.kind(ty) {
        Some(TypeKind::Pointer { flags, pointee }) => Some(Pointing { flags, pointee }),
        Some(
            TypeKind::Other
            | TypeKind::Fundamental
            | TypeKind::Class
            | TypeKind::Si(_)
            | TypeKind::Vmi,
        )
        | None => None,
    }
}

fn is_void(graph: &TypeGraph, ty: u32) -> bool
    ensures { result ≡ is_void graph.now ty }
{
    let name = graph.name(ty);
    is_fundamental(graph, ty) && name.len() == 1 && name[0] == VOID_NAME
}

fn is_function(graph: &TypeGraph, ty: u32) -> bool
    ensures { result ≡ is_function graph.now ty }
{
    let name = graph.name(ty);
    !name.is_empty() && name[0] == FUNCTION_MARK
}

fn object_at(found: Option<Result<u32, u32>>) -> Match
    ensures { result ≡ object_at found }
{
    match found {
        None => Match::Failed,
        Some(Ok(a)) => Match::Object(a),
        Some(Err(refused)) => Match::Unreadable(refused),
    }
}

fn pointer_at(pointer: Result<u32, u32>, found: Option<Result<u32, u32>>) -> Match
    ensures { result ≡ pointer_at pointer found }
{
    match found {
        None => Match::Failed,
        Some(at) => match pointer {
            Err(refused) => Match::Unreadable(refused),
            Ok(0) => Match::PointerToBase(0),
            Ok(_) => match at {
                Ok(a) => Match::PointerToBase(a),
                Err(refused) => Match::Unreadable(refused),
            },
        },
    }
}

/// The match of a thrown pointer to `from` with a wanted pointer to `to`, if the qualifiers allow it.
fn pointee_match<B: Bus>(graph: &TypeGraph, bus: &B, from: u32, object: u32, to: u32) -> Match
    ensures { result ≡ pointee_match graph.now (B.memory bus.now).segments from object to }
{
    if graph.is_same(from, to) {
        Match::Object(object)
    } else if is_void(graph, to) {
        if is_function(graph, from) {
            Match::Failed
        } else {
            Match::Object(object)
        }
    } else if is_class_type(graph, from) && is_class_type(graph, to) {
        let pointer = load_or_address(bus, object);
        pointer_at(pointer, base_at(graph, bus, from, pointer, to))
    } else {
        Match::Failed
    }
}

/// Whether bit `bit` is set in `flags` and not in `wanted`.
fn is_dropped(bit: u32, flags: u32, wanted: u32) -> bool
    requires { bit < 32 }
    ensures { result ≡ is_dropped bit flags wanted }
{
    (flags >> bit) % 2 == 1 && (wanted >> bit) % 2 == 0
}

fn loses_qualifier(flags: u32, wanted: u32) -> bool
    ensures { result ≡ loses_qualifier flags wanted }
{
    is_dropped(CONST_BIT, flags, wanted) || is_dropped(VOLATILE_BIT, flags, wanted)
}

/// Whether the wanted pointer's function is transaction-safe or `noexcept` while the thrown one's isn't.
fn adds_promise(flags: u32, wanted: u32) -> bool
    ensures { result ≡ adds_promise flags wanted }
{
    is_dropped(TRANSACTION_SAFE_BIT, wanted, flags) || is_dropped(NOEXCEPT_BIT, wanted, flags)
}

fn pointer_match<B: Bus>(
    graph: &TypeGraph,
    bus: &B,
    object: u32,
    thrown: Option<Pointing>,
    wanted: Option<Pointing>,
) -> Match
    ensures { result ≡ pointer_match graph.now (B.memory bus.now).segments object thrown wanted }
{
    match thrown {
        None => Match::Failed,
        Some(thrown) => match wanted {
            None => Match::Failed,
            Some(wanted) => {
                if loses_qualifier(thrown.flags, wanted.flags)
                    || adds_promise(thrown.flags, wanted.flags)
                {
                    Match::Failed
                } else {
                    pointee_match(graph, bus, thrown.pointee, object, wanted.pointee)
                }
            }
        },
    }
}

fn unequal_match<B: Bus>(graph: &TypeGraph, bus: &B, thrown: u32, object: u32, wanted: u32) -> Match
    ensures { result ≡ unequal_match graph.now (B.memory bus.now).segments thrown object wanted }
{
    if is_class_type(graph, thrown) && is_class_type(graph, wanted) {
        object_at(base_at(graph, bus, thrown, Ok(object), wanted))
    } else {
        pointer_match(
            graph,
            bus,
            object,
            pointer_of(graph, thrown),
            pointer_of(graph, wanted),
        )
    }
}

/// How an object of type `thrown` at `object` matches a catch of the type `wanted`. Type 0 matches nothing. Catching by value or by
/// reference makes no difference. It reads memory and allocates nothing. It visits each path to a base of the thrown type, or of its
/// pointee, once.
#[tactic(auto, unfolding(crate::specs::Rules::match_of))]
pub fn type_match<B: Bus>(
    graph: &TypeGraph,
    thrown: u32,
    object: u32,
    wanted: u32,
    bus: &B,
) -> Match
    ensures { result ≡ match_of graph.now (B.memory bus.now).segments thrown object wanted }
{
    if thrown == 0 || wanted == 0 {
        Match::Failed
    } else if graph.is_same(thrown, wanted) {
        Match::Object(object)
    } else {
        unequal_match(graph, bus, thrown, object, wanted)
    }
}
