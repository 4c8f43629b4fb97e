//! Laws of every flow graph, in the terms of the standard. docs/rules/acceptance.md, "Edges" and "Sites".
ghost use Rattle.frame_graph.specs.Laws.{EdgesStayInside, LandingsFollow, ReachedPlacesAreInside, PlacesHaveTheirAddress, LoweringPlacesAreCopies};

/// Every edge leads to a place whose address is below the function's end.
pub fn edges_stay_inside()
    ensures { EdgesStayInside }
{}

/// A site has an edge to the landing pad of each descriptor in scope, in their order. A pad is reached by a resume if and only if a
/// cleanup in scope comes before its descriptor.
pub fn landings_follow()
    ensures { LandingsFollow }
{}

/// Every place that can be reached from the entry is below the function's end.
pub fn reached_places_are_inside()
    ensures { ReachedPlacesAreInside }
{}

/// A place that is code of the function is the place of its address.
pub fn places_have_their_address()
    ensures { PlacesHaveTheirAddress }
{}

/// A place is a lowering place if and only if three things hold. It has a MOV of a register into sp; 2 bytes before it is a SUB of two
/// registers into that register; and both are reached.
pub fn lowering_places_are_copies()
    ensures { LoweringPlacesAreCopies }
{}
