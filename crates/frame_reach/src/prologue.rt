//! The prologue of a function of an image. docs/rules/acceptance.md, "The prologue".
ghost use Rattle.std.specs.Prelude.{◌≡◌, ◌^◌, ◌≤◌};
ghost use Rattle.frame_reach.specs.Held.{marks_of};
ghost use Rattle.frame_reach.specs.Prologue.{places, is_led_to, line_at, prologue};

use crate::marks::{ReachMarks, is_set};
use frame_code::Standing;
use frame_facts::{Prologue, Straight};
use frame_graph::FlowGraph;
use thumb_isa::instr::Instr;

/// The number of places from the entry to the function's end; at least the entry is one.
pub fn places(flow_graph: &FlowGraph) -> u32
    ensures count { result ≡ places flow_graph.now }
    ensures few { result ≤ 2 ^ 31 }
{
    let size = flow_graph.end().saturating_sub(flow_graph.start());
    (size / 2 + size % 2).max(1)
}

impl ReachMarks {
    fn target_at(&self, place: usize) -> bool
        ensures { result ≡ (marks_of self.now).target place }
    {
        is_set(&self.targets, place)
    }

    /// Whether one of the halfwords of an instruction at a place is a target.
    fn is_led_to(&self, place: u32, size: u32) -> bool
        ensures { result ≡ is_led_to (marks_of self.now).target place size }
    {
        let place = place as usize;
        self.target_at(place) || (size == 4 && self.target_at(place + 1))
    }

    /// The instruction at a place with its size in bytes. None if there is no instruction, or one of its halfwords is a target.
    pub fn line_at(&self, flow_graph: &FlowGraph, place: u32) -> Option<(Instr, u32)>
        ensures { result ≡ line_at flow_graph.now (marks_of self.now).target place }
    {
        match flow_graph.standing_at(place) {
            Standing::Instruction(i, size) => {
                if self.is_led_to(place, size) {
                    None
                } else {
                    Some((i, size))
                }
            }
            Standing::Udf | Standing::Nothing => None,
        }
    }

    /// The prologue: the run of instructions from the entry up to the first that is a target or isn't allowed in a prologue.
    pub fn prologue(&self, flow_graph: &FlowGraph) -> Prologue
        ensures { result ≡ prologue flow_graph.now (marks_of self.now) }
    {
        let mut run = Straight::begin(flow_graph.start());
        let mut place = 0;
        for step in 0..places(flow_graph) {
            let Some((i, size)) = self.line_at(flow_graph, place) else {
                return run.prologue;
            };
            let Some(longer) = run.taken(&i, size) else {
                return run.prologue;
            };
            run = longer;
            place += size / 2;
        }
        run.prologue
    }
}
