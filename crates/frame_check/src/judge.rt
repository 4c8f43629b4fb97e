//! Whether a function is accepted. docs/rules/acceptance.md, "Functions".
ghost use Rattle.std.specs.Prelude.{◌≡◌, ◌<◌, map, IfOk, IfErr, IfSome, IfNone};
ghost use Rattle.frame_graph.specs.Sites.{unwinding_at};
ghost use Rattle.frame_reach.specs.Marks.{AreMarks};
ghost use Rattle.frame_reach.specs.Held.{marks_of};
ghost use Rattle.frame_reach.specs.Prologue.{prologue};
ghost use Rattle.frame_flow.specs.Flows.{HasFacts};
ghost use Rattle.frame_check.specs.Accepts.{StandsAtStart, IsWell, framed_function};
ghost use Rattle.frame_check.specs.Judged.{IsClear, IsJudged};
ghost use Rattle.frame_check.specs.Pushes.{pushing_of, pushings_of};

use crate::room::Room;
use crate::walk::walk_prologue;
use frame_entries::EntrySummary;
use frame_facts::{FrameCause, Prologue};
use frame_flow::{FrameFault, FramedFunction, SolveRoom, solve_in};
use frame_graph::FlowGraph;
use frame_reach::{ReachFault, ReachMarks, reach_in};
use std::alloc::Global;

/// The cause that the entry covering a function's start gives, from how it unwinds; None if it gives none.
fn summary_cause(flow_graph: &FlowGraph, unwinding: &EntrySummary) -> Option<FrameCause>
    requires { unwinding.now ≡ unwinding_at flow_graph.now flow_graph.now.start }
    ensures stands { IfSome result (StandsAtStart flow_graph.now) }
    ensures clear { IfNone result (IsClear flow_graph.now) }
{
    match unwinding {
        EntrySummary::BadBytecode => Some(FrameCause::BadBytecode),
        EntrySummary::GenericModel => Some(FrameCause::GenericModel),
        EntrySummary::Finds(_) | EntrySummary::Refused => {
            if flow_graph.has_fault(flow_graph.start()) {
                Some(FrameCause::BadDescriptor)
            } else {
                None
            }
        }
    }
}

/// As `entry_cause`, for an entry that isn't cached. It isn't inlined, so that the cached case stays short.
#[inline(never)]
fn uncached_entry_cause(flow_graph: &FlowGraph) -> Option<FrameCause>
    ensures stands { IfSome result (StandsAtStart flow_graph.now) }
    ensures clear { IfNone result (IsClear flow_graph.now) }
{
    summary_cause(flow_graph, &flow_graph.unwinding_at(flow_graph.start()))
}

/// The cause that the entry covering a function's start gives; None if it gives none.
fn entry_cause(flow_graph: &FlowGraph) -> Option<FrameCause>
    ensures stands { IfSome result (StandsAtStart flow_graph.now) }
    ensures clear { IfNone result (IsClear flow_graph.now) }
{
    match flow_graph.kept_unwinding_at(flow_graph.start()) {
        None => uncached_entry_cause(flow_graph),
        Some(unwinding) => summary_cause(flow_graph, unwinding),
    }
}

/// What is found of an accepted function.
#[derive(Drop)]
pub(crate) struct CheckedFunction {
    /// Its reached places, with their marks.
    pub(crate) reached: ReachMarks,
    /// Its prologue.
    pub(crate) prologue: Prologue,
}

/// Whether a function with these marks and this prologue has valid facts; Err with a cause that stands.
fn check_facts(
    alloc: Global,
    room: &mut SolveRoom,
    flow_graph: &FlowGraph,
    reached: &ReachMarks,
    p: &Prologue,
) -> Result<(), FrameFault>
    requires some { flow_graph.now.start < flow_graph.now.end }
    requires marks { AreMarks flow_graph.now (marks_of reached.now) }
    requires prologue { p.now ≡ prologue flow_graph.now (marks_of reached.now) }
    ensures well { IfOk result (λ _. HasFacts (framed_function flow_graph.now (marks_of reached.now))) }
    ensures refused { IfErr result (IsJudged flow_graph.now) }
{
    let framed = FramedFunction::new(flow_graph, p, reached.pads(), reached.reached());
    solve_in(alloc, room, &framed)
}

/// The reached places and the prologue of a function; Err with a place and a cause that stands there if it isn't accepted. The PUSHes
/// of the prologue are left in `room`.
pub(crate) fn analyse_function(
    alloc: Global,
    room: &mut Room,
    flow_graph: &FlowGraph,
) -> Result<CheckedFunction, FrameFault>
    requires { flow_graph.now.start < flow_graph.now.end }
    ensures marks { IfOk result (λ w. AreMarks flow_graph.now (marks_of w.reached)) }
    ensures prologue { IfOk result (λ w. w.prologue ≡ prologue flow_graph.now (marks_of w.reached)) }
    ensures pushes { IfOk result (λ w. map pushing_of room.new.pushes.items ≡ pushings_of flow_graph.now (marks_of w.reached)) }
    ensures well { IfOk result (λ _. IsWell flow_graph.now) }
    ensures refused { IfErr result (IsJudged flow_graph.now) }
{
    if let Some(cause) = entry_cause(flow_graph) {
        return Err(FrameFault::Stands(0, cause));
    }
    match reach_in(alloc, &mut room.reach, flow_graph) {
        Err(ReachFault::TooLong) => Err(FrameFault::Stands(0, FrameCause::TooLong)),
        Err(ReachFault::OutOfMemory) => Err(FrameFault::OutOfMemory),
        Ok(reached) => {
            if reached.splits(flow_graph) {
                return Err(FrameFault::Stands(0, FrameCause::SplitEntry));
            }
            match walk_prologue(&mut room.pushes, flow_graph, &reached) {
                Err(_) => Err(FrameFault::OutOfMemory),
                Ok(prologue) => {
                    check_facts(alloc, &mut room.solve, flow_graph, &reached, &prologue)?;
                    Ok(CheckedFunction { reached, prologue })
                }
            }
        }
    }
}
