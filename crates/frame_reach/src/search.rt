//! The search for the reached places: a list of places that grows while their edges are followed.
//! docs/rules/acceptance.md, "Reached places".
ghost use Rattle.std.specs.Prelude.{◌≡◌, ◌+◌, ◌*◌, ◌<◌, ◌^◌, IfOk, OnOk, Err, false, replicate};
ghost use Rattle.std.specs.List.{Contains};
ghost use Rattle.frame_graph.specs.declared.edges.Edge.{Edge as AnEdge};
ghost use Rattle.frame_graph.specs.Reach.{IsReached};
ghost use Rattle.frame_graph.specs.SiteCaching.{IsStretch, TellsOn};
ghost use Rattle.frame_reach.specs.Marks.{AreMarks, IsPad, IsTooLong};
ghost use Rattle.frame_reach.specs.Held.{marks_of};
ghost use Rattle.frame_reach.specs.Landed.{ArePadsOf};
ghost use Rattle.frame_reach.specs.Search.{IsSound, Steps, AllTargets, Aims, IsPut, IsLanded, ArePut, AreLanded, IsVisited, Starts, Begins, Follows};

use crate::marks::{MOST_REACHED, ReachMarks, is_set};
use crate::prologue::places;
use frame_graph::{Edge, FlowGraph, SiteCache};
use std::alloc::{AllocError, Global};

/// Why the search for the reached places failed.
#[derive(Clone, Copy)]
pub enum ReachFault {
    /// More than `MOST_REACHED` places are reached.
    TooLong,
    /// An allocation failed.
    OutOfMemory,
}

impl From<AllocError> for ReachFault {
    ghost use Rattle.std.specs.Prelude.{◌≡◌};
    ghost use Rattle.frame_reach.specs.declared.search.ReachFault.TheVariants.{OutOfMemory};

    ghost from_gives = { λ _ e. e ≡ OutOfMemory };

    fn from(_e: AllocError) -> ReachFault {
        ReachFault::OutOfMemory
    }
}

/// Memory that a search uses, and that is reused from one function to the next. Its contents don't matter.
#[derive(Drop)]
pub struct ReachRoom {
    /// The marks of an earlier function, whose memory is reused.
    before: Option<ReachMarks>,
    stretch: SiteCache,
    edges: Vec<Edge>,
}

impl ReachRoom {
    /// Holds no memory yet.
    pub fn new(alloc: Global) -> ReachRoom {
        ReachRoom {
            before: None,
            stretch: SiteCache::new(alloc),
            edges: Vec::new(alloc),
        }
    }

    /// Gives back marks that aren't needed any more, so that the next search reuses their memory.
    pub fn keep(&mut self, marks: ReachMarks) {
        self.before = Some(marks);
    }

    /// Marks whose memory the next search reuses.
    fn lists(&mut self, alloc: Global) -> ReachMarks {
        match self.before.take() {
            None => ReachMarks::none(alloc),
            Some(before) => before,
        }
    }
}

/// The state of a search: the marks of all places, and the reached places, each once.
#[derive(Drop)]
struct Search {
    reached: Vec<bool>,
    targets: Vec<bool>,
    pads: Vec<bool>,
    places: Vec<u32>,
}

/// Adds a place to the list, if it isn't there.
fn push_place(flow_graph: &FlowGraph, found: &mut Search, place: u32) -> Result<(), ReachFault>
    requires sound { IsSound flow_graph.now found.old }
    requires reached { IsReached flow_graph.now place }
    ensures { Steps flow_graph.now found.old found.new (IsPut found.new place) result }
{
    if is_set(&found.reached, place as usize) {
        return Ok(());
    }
    if found.places.len() >= MOST_REACHED as usize {
        return Err(ReachFault::TooLong);
    }
    match found.places.push(place) {
        Ok(()) => {}
        Err(_) => return Err(ReachFault::OutOfMemory),
    }
    found.reached[place as usize] = true;
    Ok(())
}

/// Adds the places that edges lead to.
fn push_places(flow_graph: &FlowGraph, found: &mut Search, edges: &[Edge]) -> Result<(), ReachFault>
    requires sound { IsSound flow_graph.now found.old }
    requires reached { (w : AnEdge) → Contains edges.now w → IsReached flow_graph.now w.to }
    ensures { Steps flow_graph.now found.old found.new (ArePut found.new edges.now) result }
{
    for edge in edges {
        push_place(flow_graph, found, edge.to)?;
    }
    Ok(())
}

/// Adds a landing pad to the list, and marks it.
fn push_pad(flow_graph: &FlowGraph, found: &mut Search, place: u32) -> Result<(), ReachFault>
    requires sound { IsSound flow_graph.now found.old }
    requires pad { IsPad flow_graph.now place }
    ensures { Steps flow_graph.now found.old found.new (IsLanded found.new place) result }
{
    push_place(flow_graph, found, place)?;
    found.targets[place as usize] = true;
    found.pads[place as usize] = true;
    Ok(())
}

/// As `land`, for the places that edges lead to.
fn push_pads(flow_graph: &FlowGraph, found: &mut Search, edges: &[Edge]) -> Result<(), ReachFault>
    requires sound { IsSound flow_graph.now found.old }
    requires pads { (w : AnEdge) → Contains edges.now w → IsPad flow_graph.now w.to }
    ensures { Steps flow_graph.now found.old found.new (AreLanded found.new edges.now) result }
{
    for edge in edges {
        push_pad(flow_graph, found, edge.to)?;
    }
    Ok(())
}

/// Marks the target of a branch; does nothing for None.
fn mark_target(flow_graph: &FlowGraph, found: &mut Search, target: Option<u32>)
    requires sound { IsSound flow_graph.now found.old }
    requires target { AllTargets flow_graph.now target }
    ensures { Aims flow_graph.now found.old found.new target }
{
    let Some(place) = target else {
        return;
    };
    found.targets[place as usize] = true;
}

/// Adds the landing pads of the site at a place, if it has one. `stretch` is the answer for its site.
fn push_site_pads(
    flow_graph: &FlowGraph,
    found: &mut Search,
    stretch: &SiteCache,
    place: u32,
) -> Result<(), ReachFault>
    requires low { flow_graph.now.start + 2 * place < 2 ^ 32 }
    requires sound { IsSound flow_graph.now found.old }
    requires reached { IsReached flow_graph.now place }
    requires tells { TellsOn flow_graph.now stretch.now place }
    ensures { Steps flow_graph.now found.old found.new (ArePadsOf flow_graph.now found.new place) result }
{
    match flow_graph.site_at(place) {
        None => Ok(()),
        Some(_) => push_pads(flow_graph, found, stretch.edges()),
    }
}

/// Follows the edges of a reached place. `stretch` is the answer for its site. The contents of `edges` don't matter; only its memory is
/// used.
fn visit(
    flow_graph: &FlowGraph,
    found: &mut Search,
    edges: &mut Vec<Edge>,
    stretch: &SiteCache,
    place: u32,
) -> Result<(), ReachFault>
    requires low { flow_graph.now.start + 2 * place < 2 ^ 32 }
    requires sound { IsSound flow_graph.now found.old }
    requires reached { IsReached flow_graph.now place }
    requires tells { TellsOn flow_graph.now stretch.now place }
    ensures { Steps flow_graph.now found.old found.new (IsVisited flow_graph.now found.new place) result }
{
    flow_graph.put_straight_edges(edges, place)?;
    push_places(flow_graph, found, edges)?;
    push_site_pads(flow_graph, found, stretch, place)?;
    mark_target(flow_graph, found, flow_graph.branch_place(place));
    Ok(())
}

/// Replaces the contents of a list by `count` cleared marks.
fn clear_marks(marks: &mut Vec<bool>, count: usize) -> Result<(), AllocError>
    ensures { OnOk result (marks.new.items ≡ replicate count false) }
{
    marks.clear();
    marks.resize(count, false)
}

/// The initial state: only the entry is found. Reuses the memory of other marks.
fn start_search(flow_graph: &FlowGraph, before: ReachMarks) -> Result<Search, ReachFault>
    ensures { Starts flow_graph.now result }
{
    let count = places(flow_graph) as usize;
    let mut found = Search {
        reached: before.reached,
        targets: before.targets,
        pads: before.pads,
        places: before.places,
    };
    clear_marks(&mut found.reached, count)?;
    clear_marks(&mut found.targets, count)?;
    clear_marks(&mut found.pads, count)?;
    found.places.clear();
    push_place(flow_graph, &mut found, 0)?;
    Ok(found)
}

/// Follows the edges of all places on the list, which grows meanwhile.
fn visit_all(
    alloc: Global,
    room: &mut ReachRoom,
    flow_graph: &FlowGraph,
    found: &mut Search,
) -> Result<(), ReachFault>
    requires { Begins flow_graph.now found.old }
    ensures { Follows flow_graph.now found.new result }
{
    // read here, so that both are known to have 32 bits
    let _start = flow_graph.start();
    let _end = flow_graph.end();
    let mut next = 0;
    room.stretch.forget();
    while next < found.places.len() {
        let place = found.places[next];
        flow_graph.answer_place(alloc, &mut room.stretch, place)?;
        visit(flow_graph, found, &mut room.edges, &room.stretch, place)?;
        next += 1;
    }
    Ok(())
}

/// Finds which places of a function are reached, which are targets, and which are landing pads. Err if more are reached than a function
/// may have, or memory runs out. If the function's start isn't below its end, only the entry is reached. Each place is visited once.
pub fn reach(alloc: Global, flow_graph: &FlowGraph) -> Result<ReachMarks, ReachFault>
    ensures marks { IfOk result (λ reached. AreMarks flow_graph.now (marks_of reached)) }
    ensures few { OnOk result (IsTooLong flow_graph.now → ⊥) }
    ensures too_long { result ≡ Err ReachFault.TooLong → IsTooLong flow_graph.now }
{
    let mut room = ReachRoom::new(alloc);
    reach_in(alloc, &mut room, flow_graph)
}

/// As `reach`, with memory that is reused.
pub fn reach_in(
    alloc: Global,
    room: &mut ReachRoom,
    flow_graph: &FlowGraph,
) -> Result<ReachMarks, ReachFault>
    ensures marks { IfOk result (λ reached. AreMarks flow_graph.now (marks_of reached)) }
    ensures few { OnOk result (IsTooLong flow_graph.now → ⊥) }
    ensures too_long { result ≡ Err ReachFault.TooLong → IsTooLong flow_graph.now }
{
    let mut found = start_search(flow_graph, room.lists(alloc))?;
    visit_all(alloc, room, flow_graph, &mut found)?;
    Ok(ReachMarks {
        reached: found.reached,
        targets: found.targets,
        pads: found.pads,
        places: found.places,
    })
}
