//! The marks of a function's places. docs/rules/acceptance.md, "Reached places".
ghost use Rattle.std.specs.Prelude.{◌≡◌, ◌+◌, ◌*◌, ◌<◌, ◌^◌, ◌↔◌, IsTrue};
ghost use Rattle.frame_reach.specs.Marks.{AreMarks, AreThePlaces, IsSplit};
ghost use Rattle.frame_reach.specs.Held.{is_set, marks_of, splits_at};

use frame_graph::FlowGraph;
use std::alloc::Global;
use std::marker::Model;

/// The most places of a function that may be reached.
pub const MOST_REACHED: u32 = 16_384;

/// The marks of a function's places: which are reached, which are targets, and which are landing pads. In contracts, it is a list for
/// each kind of mark, and a list of the reached places in the order in which they were found.
#[derive(Drop)]
pub struct ReachMarks {
    /// For each place, whether it is reached.
    pub(crate) reached: Vec<bool>,
    /// For each place, whether a reached branch leads to it or it is a landing pad.
    pub(crate) targets: Vec<bool>,
    /// For each place, whether it is a landing pad.
    pub(crate) pads: Vec<bool>,
    /// The reached places, each once, in the order in which they were found.
    pub(crate) places: Vec<u32>,
}

impl Model for ReachMarks {
    ghost use Rattle.frame_reach.specs.Marks.{AreThePlaces};
    ghost use Rattle.frame_reach.specs.Held.{SearchView, marks_of};

    ghost Value = { SearchView };

    ghost view = { λ r. record { reached = r.reached.items; target = r.targets.items; pad = r.pads.items; places = r.places.items } };

    ghost invariant = { λ r. AreThePlaces (marks_of (record { reached = r.reached.items; target = r.targets.items; pad = r.pads.items; places = r.places.items })) r.places.items };
}

/// Whether a place is marked; false past the last mark.
pub(crate) fn is_set(marks: &[bool], place: usize) -> bool
    ensures { result ≡ is_set marks.now place }
{
    place < marks.len() && marks[place]
}

/// Whether a place has a site whose covering entry begins after the function's start.
fn splits_at(flow_graph: &FlowGraph, place: u32) -> bool
    requires { flow_graph.now.start + 2 * place < 2 ^ 32 }
    ensures { result ≡ splits_at flow_graph.now place }
{
    match flow_graph.site_at(place) {
        None => false,
        Some(site) => flow_graph.is_split(site),
    }
}

impl ReachMarks {
    /// Marks of a function without places; holds no memory yet.
    pub(crate) fn none(alloc: Global) -> ReachMarks {
        ReachMarks {
            reached: Vec::new(alloc),
            targets: Vec::new(alloc),
            pads: Vec::new(alloc),
            places: Vec::new(alloc),
        }
    }

    /// Whether a place is reached.
    pub fn is_reached(&self, place: u32) -> bool
        ensures { result ≡ (marks_of self.now).reached place }
    {
        is_set(&self.reached, place as usize)
    }

    /// Whether a reached branch leads to a place, or the place is a landing pad.
    pub fn is_target(&self, place: u32) -> bool
        ensures { result ≡ (marks_of self.now).target place }
    {
        is_set(&self.targets, place as usize)
    }

    /// Whether a place is the landing pad of a reached site.
    pub fn is_pad(&self, place: u32) -> bool
        ensures { result ≡ (marks_of self.now).pad place }
    {
        is_set(&self.pads, place as usize)
    }

    /// For each place, whether it is reached; places past the end of the list aren't.
    pub fn reached(&self) -> &[bool]
        ensures { result.now ≡ self.now.reached }
    {
        &self.reached
    }

    /// For each place, whether it is a landing pad; places past the end of the list aren't.
    pub fn pads(&self) -> &[bool]
        ensures { result.now ≡ self.now.pad }
    {
        &self.pads
    }

    /// The reached places, each once, in the order in which they were found.
    pub fn places(&self) -> &[u32]
        ensures same { result.now ≡ self.now.places }
        ensures all { AreThePlaces (marks_of self.now) result.now }
    {
        &self.places
    }

    /// Whether the entry that covers a reached site begins after the function's start. The marks must be those of `flow_graph`.
    pub fn splits(&self, flow_graph: &FlowGraph) -> bool
        requires { AreMarks flow_graph.now (marks_of self.now) }
        ensures { IsTrue result ↔ IsSplit flow_graph.now }
    {
        // read here, so that both are known to have 32 bits
        let _start = flow_graph.start();
        let _end = flow_graph.end();
        for place in self.places() {
            if splits_at(flow_graph, *place) {
                return true;
            }
        }
        false
    }
}
