//! The work list that computes the facts of a function. docs/rules/acceptance.md, "Valid facts".
ghost use Rattle.std.specs.Prelude.{◌≡◌, ℕ, ◌+◌, ◌*◌, ◌<◌, ◌≤◌, ◌^◌, ◌++◌, ◌∷◌, [], List, Option, map, length, IfOk, IfErr, slice_set};
ghost use Rattle.thumb_core.specs.Words.{registers_of_list};
ghost use Rattle.frame_facts.specs.Facts.{forget_registers};
ghost use Rattle.frame_graph.specs.SiteCaching.{TellsOn};
ghost use Rattle.frame_flow.specs.Framed.{framed_view};
ghost use Rattle.frame_flow.specs.Flows.{along_edge, count_of, HasFacts, NoneStands};
ghost use Rattle.frame_flow.specs.Work.{IsSound, FaultStands, LacksFacts, Keeps, MergesFact};

use crate::facts::Facts;
use crate::framed::FramedFunction;
use frame_facts::{Fact, FrameCause, clobber, entry_fact, is_meeting, join};
use frame_graph::{Edge, SiteCache};
use std::alloc::Global;

/// Memory that computing facts uses, and that is reused from one function to the next. Its contents don't matter.
#[derive(Drop)]
pub struct SolveRoom {
    facts: Facts,
    work: Vec<u32>,
    edges: Vec<Edge>,
    stretch: SiteCache,
}

impl SolveRoom {
    /// Holds no memory yet.
    pub fn new(alloc: Global) -> SolveRoom {
        SolveRoom {
            facts: Facts::none(alloc),
            work: Vec::new(alloc),
            edges: Vec::new(alloc),
            stretch: SiteCache::new(alloc),
        }
    }
}

/// Why a function has no valid facts, or why none were computed.
#[derive(Clone, Copy)]
pub enum FrameFault {
    /// This cause stands at this place, counted in halfwords after the function's entry.
    Stands(u32, FrameCause),
    /// An allocation failed.
    OutOfMemory,
}

/// Sets the fact of a place, and queues the place.
fn put(facts: &mut Facts, work: &mut Vec<u32>, to: u32, fact: &Fact) -> Result<(), FrameFault>
    requires { to < length facts.old }
    ensures facts { IfOk result (λ _. facts.new ≡ slice_set facts.old to (Some fact.now)) }
    ensures work { IfOk result (λ _. work.new.items ≡ work.old.items ++ to ∷ []) }
    ensures spent { IfErr result (λ e. e ≡ FrameFault.OutOfMemory) }
{
    match facts.put(to, fact) {
        Ok(()) => {}
        Err(_) => return Err(FrameFault::OutOfMemory),
    }
    match work.push(to) {
        Ok(()) => Ok(()),
        Err(_) => Err(FrameFault::OutOfMemory),
    }
}

/// Merges a fact into that of the place `to`, which an edge leads to; queues the place if its fact changes.
fn merge(
    x: &FramedFunction,
    facts: &mut Facts,
    work: &mut Vec<u32>,
    to: u32,
    fact: &Fact,
) -> Result<(), FrameFault>
    requires { to < length facts.old }
    ensures { MergesFact (framed_view x.now) facts.old work.old.items to fact.now facts.new work.new.items result }
{
    match facts.get(to) {
        None => put(facts, work, to, fact),
        Some(held) => {
            if is_meeting(held, fact) {
                return Ok(());
            }
            match join(held, fact) {
                None => Err(FrameFault::Stands(to, x.depth_cause(to))),
                Some(met) => put(facts, work, to, &met),
            }
        }
    }
}

/// Follows an edge of a place; `fact` is the fact after the instruction.
#[tactic(auto, using(crate::proofs::Merging::taken_whole))]
fn follow_edge(
    x: &FramedFunction,
    facts: &mut Facts,
    work: &mut Vec<u32>,
    edge: &Edge,
    fact: &Fact,
) -> Result<(), FrameFault>
    requires { edge.now.to < length facts.old }
    ensures { MergesFact (framed_view x.now) facts.old work.old.items edge.now.to (forget_registers (registers_of_list edge.now.clobbers) fact.now) facts.new work.new.items result }
{
    if edge.clobbers == 0 {
        merge(x, facts, work, edge.to, fact)
    } else {
        merge(x, facts, work, edge.to, &clobber(fact, edge.clobbers))
    }
}

/// Follows all edges of a place; `fact` is the fact after the instruction.
fn follow_edges(
    x: &FramedFunction,
    facts: &mut Facts,
    work: &mut Vec<u32>,
    edges: &[Edge],
    fact: &Fact,
) -> Result<(), FrameFault>
    requires { IsSound (framed_view x.now) facts.old work.old.items (map (along_edge fact.now) edges.now) }
    ensures { Keeps (framed_view x.now) facts.old work.old.items facts.new work.new.items [] result }
{
    for edge in edges {
        match follow_edge(x, facts, work, edge, fact) {
            Ok(()) => {}
            Err(fault) => return Err(fault),
        }
    }
    Ok(())
}

/// Visits a place that was taken from the end of the work list. `stretch` is the answer for its site. The contents of `edges` and
/// `next` don't matter; only their memory is used.
fn visit(
    x: &FramedFunction,
    facts: &mut Facts,
    work: &mut Vec<u32>,
    edges: &mut Vec<Edge>,
    next: &mut Fact,
    stretch: &SiteCache,
    place: u32,
) -> Result<(), FrameFault>
    requires short { x.now.flow_graph.end < 2 ^ 32 }
    requires sound { IsSound (framed_view x.now) facts.old (work.old.items ++ place ∷ []) [] }
    requires tells { TellsOn x.now.flow_graph stretch.now place }
    ensures { Keeps (framed_view x.now) facts.old work.old.items facts.new work.new.items [] result }
{
    match facts.get(place) {
        None => Ok(()),
        Some(fact) => match x.pass_place(stretch, place, fact, next) {
            Err(cause) => Err(FrameFault::Stands(place, cause)),
            Ok(leads) => {
                if !leads {
                    return Ok(());
                }
                match x.flow_graph.put_edges(edges, stretch, place) {
                    Ok(()) => follow_edges(x, facts, work, edges, next),
                    Err(_) => Err(FrameFault::OutOfMemory),
                }
            }
        },
    }
}

/// Computes the facts of a function whose entry is below its end.
///
/// `Ok` if it has valid facts, so that no cause stands at any of its places. Err `Stands` with a place and a cause that stands there,
/// so that it has none. Only `OutOfMemory` leaves it open.
pub fn solve(alloc: Global, x: &FramedFunction) -> Result<(), FrameFault>
    requires { x.now.flow_graph.start < x.now.flow_graph.end }
    ensures accepted { IfOk result (λ _. HasFacts (framed_view x.now)) }
    ensures clear { IfOk result (λ _. NoneStands (framed_view x.now)) }
    ensures refused { IfErr result (FaultStands (framed_view x.now)) }
    ensures lacks { IfErr result (LacksFacts (framed_view x.now)) }
{
    let mut room = SolveRoom::new(alloc);
    solve_in(alloc, &mut room, x)
}

/// As `solve`, with memory that is reused.
pub fn solve_in(alloc: Global, room: &mut SolveRoom, x: &FramedFunction) -> Result<(), FrameFault>
    requires { x.now.flow_graph.start < x.now.flow_graph.end }
    ensures accepted { IfOk result (λ _. HasFacts (framed_view x.now)) }
    ensures clear { IfOk result (λ _. NoneStands (framed_view x.now)) }
    ensures refused { IfErr result (FaultStands (framed_view x.now)) }
    ensures lacks { IfErr result (LacksFacts (framed_view x.now)) }
{
    let count = (x.flow_graph.end() - x.flow_graph.start()).div_ceil(2);
    match room.facts.blank(count) {
        Ok(()) => {}
        Err(_) => return Err(FrameFault::OutOfMemory),
    }
    room.work.clear();
    room.stretch.forget();
    let mut next = entry_fact();
    put(&mut room.facts, &mut room.work, 0, &next)?;
    while let Some(place) = room.work.pop() {
        match x.flow_graph.answer_place(alloc, &mut room.stretch, place) {
            Ok(()) => {}
            Err(_) => return Err(FrameFault::OutOfMemory),
        }
        match visit(
            x,
            &mut room.facts,
            &mut room.work,
            &mut room.edges,
            &mut next,
            &room.stretch,
            place,
        ) {
            Ok(()) => {}
            Err(fault) => return Err(fault),
        }
    }
    Ok(())
}
