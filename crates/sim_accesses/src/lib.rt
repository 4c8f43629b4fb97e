//! Loads, stores, moves of sp, PUSH and returns do the same in both machines, and their states still stand for each other
//! (docs/inside/simulation.md).
#![tactic(auto)]

ghost use Rattle.sim_accesses.specs.Events.{AccessTurns, StackTurns};
ghost use Rattle.sim_accesses.specs.Returning.{BxTurns, PopTurns};
ghost use Rattle.sim_accesses.specs.PushEvents.{PushTurns};

/// Loads into r0 to r7 and stores do the same in both machines: a store that goes on overwrites no saved word.
pub fn access_turns()
    ensures { AccessTurns }
{}

/// ADD and SUB of sp, and MOV into sp, do the same in both machines.
pub fn stack_turns()
    ensures { StackTurns }
{}

/// A return by BX goes to the recorded caller, and does the same in both machines.
pub fn bx_turns()
    ensures { BxTurns }
{}

/// POP does the same in both machines; a POP with pc returns to the recorded caller.
pub fn pop_turns()
    ensures { PopTurns }
{}

/// PUSH does the same in both machines: in the prologue the registers that it saves become saved words and hold what was recorded.
pub fn push_turns()
    ensures { PushTurns }
{}
