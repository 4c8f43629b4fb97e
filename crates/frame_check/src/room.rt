//! Memory that the check of a function uses.
use crate::pushes::{OpenPush, ProloguePush};
use frame_flow::SolveRoom;
use frame_reach::{ReachMarks, ReachRoom};
use std::alloc::Global;

/// Memory for the check of a function, reused from one function to the next. Its contents don't matter.
#[derive(Drop)]
pub struct Room {
    /// For the search of the reached places.
    pub(crate) reach: ReachRoom,
    /// For computing the facts.
    pub(crate) solve: SolveRoom,
    /// The PUSHes of the prologue.
    pub(crate) pushes: Vec<OpenPush>,
    /// The PUSHes of the prologue, with their saves.
    pub(crate) pushed: Vec<ProloguePush>,
}

impl Room {
    /// Holds no memory yet.
    pub fn new(alloc: Global) -> Room {
        Room {
            reach: ReachRoom::new(alloc),
            solve: SolveRoom::new(alloc),
            pushes: Vec::new(alloc),
            pushed: Vec::new(alloc),
        }
    }

    /// Gives back marks that aren't needed any more, so that the next function reuses their memory.
    pub fn keep(&mut self, marks: ReachMarks) {
        self.reach.keep(marks);
    }
}
