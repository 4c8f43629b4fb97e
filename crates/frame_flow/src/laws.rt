//! Laws of the facts of every function. docs/rules/acceptance.md, "Valid facts".
ghost use Rattle.frame_flow.specs.Conditions.{CausesAreConditions, CausesStand, TransferFollowsEdges, EntryIsAState, SitesAreCallsOrGates};
ghost use Rattle.frame_flow.specs.Laws.{FlowsKeepLaws, FactsDecide, FoundAreMet, LowestIsFirst, FactsReach};

/// The facts of frames have the properties that a dataflow needs. Vagueness is an order, and meetings are least. A fact that is less
/// vague meets no more causes, and leads along no more edges.
pub fn flows_keep_laws()
    ensures { FlowsKeepLaws }
{}

/// A function whose entry is below its end has valid facts if and only if no cause stands.
pub fn valid_facts_exist_where_no_cause_stands()
    ensures { FactsDecide }
{}

/// A fact meets a cause at a place if and only if the condition of the cause holds.
pub fn causes_are_conditions()
    ensures { CausesAreConditions }
{}

/// A cause stands at a place if and only if a state there meets its condition. `JoinDepth` also stands if two states there have
/// different depths, and at a landing pad `PadDepth` does.
pub fn causes_stand()
    ensures { CausesStand }
{}

/// The entry's fact is a state of the first place.
pub fn entry_is_a_state()
    ensures { EntryIsAState }
{}

/// The instruction of a site is either a call or a gate.
pub fn sites_are_calls_or_gates()
    ensures { SitesAreCallsOrGates }
{}

/// A fact leads along the edges of its place and nowhere else. It arrives as the instruction leaves it, without the registers that the
/// edge clobbers.
pub fn transfer_follows_edges()
    ensures { TransferFollowsEdges }
{}

/// The causes that are computed for a fact are exactly those that it meets.
pub fn found_causes_are_met()
    ensures { FoundAreMet }
{}

/// The first cause that is computed has the lowest number.
pub fn lowest_cause_is_first()
    ensures { LowestIsFirst }
{}

/// If a function has valid facts, then exactly the reached places have a state, and each has a fact.
pub fn reached_places_have_facts()
    ensures { FactsReach }
{}
