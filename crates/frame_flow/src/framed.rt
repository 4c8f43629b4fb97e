//! A function of an image, with what its facts depend on besides its code. docs/rules/acceptance.md, "Valid facts".
ghost use Rattle.std.specs.Prelude.{◌≡◌};
ghost use Rattle.frame_flow.specs.Framed.{Parts};

use frame_facts::Prologue;
use frame_graph::FlowGraph;
use std::marker::Model;

/// A function with its prologue, and two marks for each place: whether it is a landing pad, and whether it is reached. A place past the
/// last mark is neither.
#[derive(Drop)]
pub struct FramedFunction<'f, 's, 'i, 'a> {
    /// The function.
    pub(crate) flow_graph: &'f FlowGraph<'s, 'i, 'a>,
    /// Its prologue.
    pub(crate) prologue: &'f Prologue,
    /// For each place, whether it is a landing pad.
    pub(crate) pads: &'f [bool],
    /// For each place, whether it is reached.
    pub(crate) reached: &'f [bool],
}

impl<'f, 's, 'i, 'a> Model for FramedFunction<'f, 's, 'i, 'a> {
    ghost use Rattle.frame_flow.specs.Framed.{Parts};

    ghost Value = { Parts };

    ghost view = { λ f. record { flow_graph = f.flow_graph.now; prologue = f.prologue.now; pads = f.pads.now; reached = f.reached.now } };
}

impl<'f, 's, 'i, 'a> FramedFunction<'f, 's, 'i, 'a> {
    /// A function with its prologue, its landing pads and its reached places.
    pub fn new(
        flow_graph: &'f FlowGraph<'s, 'i, 'a>,
        prologue: &'f Prologue,
        pads: &'f [bool],
        reached: &'f [bool],
    ) -> FramedFunction<'f, 's, 'i, 'a>
        ensures { result ≡ record { flow_graph = flow_graph.entry.now; prologue = prologue.entry.now; pads = pads.entry.now; reached = reached.entry.now } }
    {
        FramedFunction {
            flow_graph,
            prologue,
            pads,
            reached,
        }
    }
}
