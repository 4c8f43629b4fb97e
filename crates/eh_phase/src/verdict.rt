//! What the descriptors of a frame decide about a thrown object (docs/rules/phases-and-exceptions.md, "What a frame says").
ghost use Rattle.std.specs.Prelude.{◌≡◌, map, unwrap_or};
ghost use Rattle.std.specs.List.{range_with_len};
ghost use Rattle.eh_desc.specs.Grammar.{type_in};
ghost use Rattle.eh_phase.specs.Verdict.{in_scope, by_match, catch_says, is_hit, first_hit, unless_named, desc_verdict, heard, verdict_of};
ghost use Rattle.eh_phase.specs.Calls.{types_of, meeting};

use crate::walk::Tables;
use eh_bus::bus::Bus;
use eh_desc::{CatchType, Desc, DescFault, DescKind, Descs, spec_type};
use eh_match::{Match, type_match};
use thumb_core::ends::Cause;

/// A thrown object.
#[derive(Clone, Copy)]
pub struct Thrown {
    /// The address of the object.
    pub object: u32,
    /// The address of its type information.
    pub ty: u32,
}

/// What a frame decides about a thrown object.
#[derive(Clone, Copy)]
pub enum Verdict {
    /// The descriptor at the address `desc` stops the object, which matched as `hit` says.
    Barrier { desc: u32, hit: Match },
    /// A match has to read a word of the object that can't be read: the first such address.
    ObjectRead(u32),
    /// The program terminates, for this reason.
    Terminate(Cause),
}

/// Whether a site lies in the scope of a descriptor.
#[inline(always)]
pub(crate) fn is_in_scope(desc: &Desc, site: u32) -> bool
    ensures { result ≡ in_scope site desc.now }
{
    desc.covers(site)
}

/// The verdict of a catch at the address `at`, from the object's match with its type; None if it doesn't match.
fn by_match(at: u32, hit: Match) -> Option<Verdict>
    ensures { result ≡ by_match at hit }
{
    match hit {
        Match::Failed => None,
        Match::Object(_) | Match::PointerToBase(_) => Some(Verdict::Barrier { desc: at, hit }),
        Match::Unreadable(a) => Some(Verdict::ObjectRead(a)),
    }
}

/// The verdict of a specification at the address `at`, from the object's first match with its types; None if one of them matches.
fn unless_named(object: u32, at: u32, hit: Match) -> Option<Verdict>
    ensures { result ≡ unless_named object at hit }
{
    match hit {
        Match::Failed => Some(Verdict::Barrier {
            desc: at,
            hit: Match::Object(object),
        }),
        Match::Object(_) | Match::PointerToBase(_) => None,
        Match::Unreadable(a) => Some(Verdict::ObjectRead(a)),
    }
}

/// Whether a match is anything but `Failed`.
fn is_hit(hit: Match) -> bool
    ensures { result ≡ is_hit hit }
{
    match hit {
        Match::Failed => false,
        Match::Object(_) | Match::PointerToBase(_) | Match::Unreadable(_) => true,
    }
}

/// How a thrown object matches the type at the address `wanted`.
fn match_thrown<B: Bus>(t: &Tables, bus: &B, what: &Thrown, wanted: u32) -> Match
    ensures { result ≡ (meeting t.now.index t.now.types.now (B.memory bus.now).segments what.now).matched wanted }
{
    type_match(t.types, what.ty, what.object, wanted, bus)
}

/// The first match with the types of a specification that isn't `Failed`; `Failed` if there is none.
#[tactic(auto, using(crate::proofs::Hits::hit_past, crate::proofs::Hits::hit_here, crate::proofs::Hits::hit_none))]
fn first_hit<B: Bus>(t: &Tables, bus: &B, what: &Thrown, desc: &Desc, count: u32) -> Match
    ensures { let m = meeting t.now.index t.now.types.now (B.memory bus.now).segments what.now in
        result ≡ first_hit (map m.matched (map (λ i. unwrap_or (type_in t.now.index.segments desc.now.kind i) 0) (range_with_len 0 count))) }
{
    for i in 0..count {
        let wanted = spec_type(&t.index, desc, i).unwrap_or(0);
        let hit = match_thrown(t, bus, what, wanted);
        if is_hit(hit) {
            return hit;
        }
    }
    Match::Failed
}

/// The verdict of a descriptor that is in scope; None if it has none.
#[inline(always)]
fn desc_verdict<B: Bus>(t: &Tables, bus: &B, what: &Thrown, desc: &Desc) -> Option<Verdict>
    ensures { result ≡ desc_verdict (meeting t.now.index t.now.types.now (B.memory bus.now).segments what.now) desc.now }
{
    match desc.kind {
        DescKind::Cleanup { .. } => None,
        DescKind::Catch { ty, .. } => match ty {
            CatchType::All => Some(Verdict::Barrier {
                desc: desc.at,
                hit: Match::Object(what.object),
            }),
            CatchType::AllFails => Some(Verdict::Terminate(Cause::NoThrow)),
            CatchType::One(wanted) => by_match(desc.at, match_thrown(t, bus, what, wanted)),
        },
        DescKind::Spec { count, .. } => unless_named(
            what.object,
            desc.at,
            first_hit(t, bus, what, desc, count),
        ),
    }
}

/// The verdict of an item of a descriptor list at a site. A fault, which ends a list, counts at every site.
#[inline(always)]
fn heard<B: Bus>(
    t: &Tables,
    bus: &B,
    what: &Thrown,
    site: u32,
    item: &Result<Desc, DescFault>,
) -> Option<Verdict>
    ensures { result ≡ heard (meeting t.now.index t.now.types.now (B.memory bus.now).segments what.now) site item.now }
{
    match item {
        Ok(desc) => {
            if is_in_scope(desc, site) {
                desc_verdict(t, bus, what, desc)
            } else {
                None
            }
        }
        Err(_) => Some(Verdict::Terminate(Cause::CannotUnwind)),
    }
}

/// The verdict of a frame: that of the first of its descriptors in scope that has one.
#[inline(always)]
#[tactic(auto, using(crate::proofs::First::first_past, crate::proofs::First::first_here, crate::proofs::First::first_none), unfolding(crate::specs::Verdict::verdict_of))]
pub(crate) fn verdict_of<B: Bus>(
    t: &Tables,
    bus: &B,
    what: &Thrown,
    site: u32,
    descs: Descs,
) -> Option<Verdict>
    ensures { result ≡ verdict_of (meeting t.now.index t.now.types.now (B.memory bus.now).segments what.now) site descs.entry }
{
    for item in descs {
        let said = heard(t, bus, what, site, &item);
        if said.is_some() {
            return said;
        }
    }
    None
}
