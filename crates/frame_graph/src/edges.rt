//! Where the instruction at a place leads, and the faults of a place that don't depend on facts. docs/rules/acceptance.md, "Edges".
ghost use Rattle.std.specs.Int.{cast_unsigned, w32};
ghost use Rattle.std.specs.Prelude.{◌≡◌, ◌+◌, ◌*◌, ◌%◌, ◌<◌, ◌^◌, ◌++◌, IfOk, OnOk, is_ok, if◌then◌else◌};
ghost use Rattle.frame_graph.specs.Places.{address_of, place_of, standing_at};
ghost use Rattle.frame_code.specs.Branches.{reaches_next, branch_target, call_target};
ghost use Rattle.frame_graph.specs.Edges.{branch_place, edges_to, straight_edges, straight_by, is_undecodable, branches_out, calls_nothing};

use crate::flow_graph::FlowGraph;
use frame_code::Standing;
use frame_code::branches::{branch_target, call_target, reaches_next};
use run_images::begins_function;
use std::alloc::{AllocError, Global};
use thumb_isa::instr::Instr;
use thumb_isa::plain;

/// An edge from a place to another.
#[derive(Clone, Copy, PartialEq, Eq, PartialOrd, Ord)]
pub struct Edge {
    /// The place that it leads to, in halfwords after the function's entry.
    pub to: u32,
    /// The registers of which nothing is known after this edge; bit k means register k.
    pub clobbers: u16,
}

/// Adds an edge if `to` is a place.
pub(crate) fn add_edge(
    edges: &mut Vec<Edge>,
    clobbers: u16,
    to: Option<u32>,
) -> Result<(), AllocError>
    ensures { edges.new.items ≡ (if is_ok result then edges.old.items ++ edges_to clobbers to else edges.old.items) }
{
    match to {
        None => Ok(()),
        Some(to) => {
            edges.push(Edge { to, clobbers })?;
            Ok(())
        }
    }
}

impl<'s, 'i, 'a> FlowGraph<'s, 'i, 'a> {
    /// The place `size` bytes after an address; None if that isn't code of the function.
    fn place_after(&self, a: u32, size: u32) -> Option<u32>
        ensures { result ≡ place_of self.now (a + size) }
    {
        let after = u64::from(a) + u64::from(size);
        if after < u64::from(self.end) {
            self.place_of(after as u32)
        } else {
            None
        }
    }

    /// Replaces the contents of `edges` by the edges of an instruction at an address, without those to landing pads.
    fn put_straight(
        &self,
        edges: &mut Vec<Edge>,
        a: u32,
        standing: Standing,
    ) -> Result<(), AllocError>
        ensures { OnOk result (edges.new.items ≡ straight_by self.now a standing) }
    {
        edges.clear();
        if let Standing::Instruction(i, size) = standing {
            if reaches_next(i) {
                add_edge(edges, 0, self.place_after(a, size))?;
            }
            if let Some(to) = branch_target(a, i) {
                add_edge(edges, 0, self.place_of(to))?;
            }
        }
        Ok(())
    }

    /// As `put_straight_edges`, from what is at the place.
    pub(crate) fn put_straight_by(
        &self,
        edges: &mut Vec<Edge>,
        place: u32,
        standing: Standing,
    ) -> Result<(), AllocError>
        requires place { self.now.start + 2 * place < 2 ^ 32 }
        requires standing { standing ≡ standing_at self.now place }
        ensures { OnOk result (edges.new.items ≡ straight_edges self.now place) }
    {
        self.put_straight(edges, self.address_of(place), standing)
    }

    /// Replaces the contents of `edges` by the edges of a place, without those to landing pads: to the next instruction, and to the
    /// target of a branch. Err if memory runs out.
    pub fn put_straight_edges(&self, edges: &mut Vec<Edge>, place: u32) -> Result<(), AllocError>
        requires { self.now.start + 2 * place < 2 ^ 32 }
        ensures { OnOk result (edges.new.items ≡ straight_edges self.now place) }
    {
        self.put_straight_by(edges, place, self.standing_at(place))
    }

    /// The edges of a place, without those to landing pads: to the next instruction, and to the target of a branch. Err if memory runs
    /// out.
    pub fn straight_edges(&self, alloc: Global, place: u32) -> Result<Vec<Edge>, AllocError>
        requires { self.now.start + 2 * place < 2 ^ 32 }
        ensures { IfOk result (λ edges. edges.items ≡ straight_edges self.now place) }
    {
        let mut edges = Vec::new(alloc);
        self.put_straight_edges(&mut edges, place)?;
        Ok(edges)
    }

    /// The place that the branch at a place leads to. None if there is no branch, or its target isn't code of the function.
    pub fn branch_place(&self, place: u32) -> Option<u32>
        requires { self.now.start + 2 * place < 2 ^ 32 }
        ensures { result ≡ branch_place self.now place }
    {
        let Standing::Instruction(i, _) = self.standing_at(place) else {
            return None;
        };
        let target = branch_target(self.address_of(place), i)?;
        self.place_of(target)
    }

    /// Whether the bytes at a place are neither an instruction nor UDF.
    pub fn is_undecodable(&self, place: u32) -> bool
        ensures { result ≡ is_undecodable self.now place }
    {
        matches!(self.standing_at(place), Standing::Nothing)
    }

    /// Whether the instruction `standing` at a place branches to an address that isn't code of the function.
    pub fn branches_out(&self, place: u32, standing: Standing) -> bool
        requires place { self.now.start + 2 * place < 2 ^ 32 }
        requires standing { standing ≡ standing_at self.now place }
        ensures { result ≡ branches_out self.now place }
    {
        let Standing::Instruction(i, _) = standing else {
            return false;
        };
        match branch_target(self.address_of(place), i) {
            None => false,
            Some(a) => !self.is_code(a),
        }
    }

    /// Whether the instruction `standing` at a place is a BL to an address where no function begins.
    pub fn calls_nothing(&self, place: u32, standing: Standing) -> bool
        requires place { self.now.start + 2 * place < 2 ^ 32 }
        requires standing { standing ≡ standing_at self.now place }
        ensures { result ≡ calls_nothing self.now place }
    {
        let Standing::Instruction(i, _) = standing else {
            return false;
        };
        match call_target(self.address_of(place), i) {
            None => false,
            Some(a) => !begins_function(self.index.image(), a),
        }
    }
}
