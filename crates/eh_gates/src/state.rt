//! The parts of a machine's state outside its memory (docs/rules/machine.md, "The state").
use eh_cxa::Globals;
use thumb_core::ends::End;
use thumb_core::regs::Regs;

/// The registers, and what the runtime stores of exceptions outside the pool.
#[derive(Clone, Copy, PartialEq, Eq)]
pub struct Core {
    /// The core registers and flags.
    pub regs: Regs,
    /// What the runtime stores of exceptions outside the pool.
    pub globals: Globals,
}

/// Whether a run goes on after a gate.
#[derive(Clone, Copy, PartialEq, Eq)]
pub enum Turned {
    /// It goes on.
    Went,
    /// It ends, in this way.
    Ended(End),
}
