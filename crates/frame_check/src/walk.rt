//! The prologue of a function with its PUSHes, found in one pass. docs/rules/acceptance.md, "What a run asks".
ghost use Rattle.std.specs.Prelude.{◌≡◌, map, IfOk, OnOk};
ghost use Rattle.frame_reach.specs.Prologue.{prologue};
ghost use Rattle.frame_reach.specs.Held.{marks_of};
ghost use Rattle.frame_check.specs.Pushes.{pushing_of, pushings_of};

use crate::pushes::{OpenPush, add_push};
use frame_facts::Prologue;
use frame_facts::straight::Straight;
use frame_graph::FlowGraph;
use frame_reach::ReachMarks;
use frame_reach::prologue::places;
use std::alloc::AllocError;

/// The prologue of a function. Replaces the contents of `pushes` by its PUSHes, in their order.
pub(crate) fn walk_prologue(
    pushes: &mut Vec<OpenPush>,
    flow_graph: &FlowGraph,
    reached: &ReachMarks,
) -> Result<Prologue, AllocError>
    ensures prologue { IfOk result (λ p. p ≡ prologue flow_graph.now (marks_of reached.now)) }
    ensures pushes { OnOk result (map pushing_of pushes.new.items ≡ pushings_of flow_graph.now (marks_of reached.now)) }
{
    pushes.clear();
    let mut run = Straight::begin(flow_graph.start());
    let mut place = 0;
    for step in 0..places(flow_graph) {
        let Some((i, size)) = reached.line_at(flow_graph, place) else {
            return Ok(run.prologue);
        };
        let Some(next) = run.taken(&i, size) else {
            return Ok(run.prologue);
        };
        add_push(pushes, &run, &i)?;
        run = next;
        place += size / 2;
    }
    Ok(run.prologue)
}
