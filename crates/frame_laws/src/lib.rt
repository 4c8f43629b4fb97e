//! Two definitions of the same thing agree: what the frame checker says of a site or an instruction is what phase 2 and the core do
//! there (docs/rules/acceptance.md, "Laws").
#![tactic(auto)]

ghost use Rattle.frame_laws.specs.SiteLaws.{ScopesAreOne, EntriesAreOne, PadsAreOne};
ghost use Rattle.frame_laws.specs.MeetingLaws.{MeetingsAreCommon};
ghost use Rattle.frame_laws.specs.EdgeLaws.{InstructionsFollowEdges, WhatIsAheadIsAnEdge, CallsStandAtTheirSites};

/// A descriptor has the same sites in its scope for the checker and for the phases: those from its start to below its end.
pub fn scopes_are_one()
    ensures { ScopesAreOne }
{}

/// The checker finds a recipe at a site if and only if phase 2 has unwind instructions there with that recipe, and they pop no register
/// twice. Both see the same descriptors.
pub fn entries_are_one()
    ensures { EntriesAreOne }
{}

/// The landing pad that phase 2 enters at a site is one to which the checker has an edge; and it is a cleanup for both or for neither.
pub fn pads_are_one()
    ensures { PadsAreOne }
{}

/// From each instruction the core goes along an edge of the checker. Returns and other writes of pc are apart: the checker has no edge
/// from them. A call comes back along the edge to the next instruction.
pub fn instructions_follow_edges()
    ensures { InstructionsFollowEdges }
{}

/// What the core predicts of an instruction before executing it agrees. If it predicts that the run goes straight on, there is an edge
/// to the next instruction. A predicted jump goes to the branch's target, or the checker has no edge from the instruction.
pub fn what_is_ahead_is_an_edge()
    ensures { WhatIsAheadIsAnEdge }
{}

/// The site of a frame that has called is the site that the checker looked at.
pub fn calls_stand_at_their_sites()
    ensures { CallsStandAtTheirSites }
{}

/// The meeting of two facts of a place is what both tell of sp, of each save and of each register. It exists if and only if their
/// depths are equal.
pub fn meetings_are_common()
    ensures { MeetingsAreCommon }
{}
