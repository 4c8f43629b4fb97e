//! Instructions that leave memory and sp, gates that walk no frames, and calls do the same in both machines, and their states still stand
//! for each other (docs/inside/simulation.md).
#![tactic(auto)]

ghost use Rattle.sim_steps.specs.Steps.{DataTurns};
ghost use Rattle.sim_steps.specs.StepLaws.{SimpleTurns, UnreachedTurns};
ghost use Rattle.sim_steps.specs.GateEvents.{GatesTurn};
ghost use Rattle.sim_steps.specs.CallEvents.{BlTurns, BlxTurns};

/// An instruction on registers other than sp that doesn't use memory does the same in both machines, and their states still stand for each
/// other.
pub fn data_turns()
    ensures { DataTurns }
{}

/// The same holds for branches, hints and barriers, and for ADD, MOV and CMP of any registers that don't write sp.
pub fn simple_turns()
    ensures { SimpleTurns }
{}

/// If the checker reached no instruction at pc, both machines end alike and the state is unchanged.
pub fn unreached_turns()
    ensures { UnreachedTurns }
{}

/// A gate that walks no frames does the same in both machines: an allocation, the begin or end of a catch, a byte in or out.
pub fn gates_turn()
    ensures { GatesTurn }
{}

/// A call by BL does the same in both machines: the caller's activation stands at its call, and the new one at its function's start.
pub fn bl_turns()
    ensures { BlTurns }
{}

/// The same for a call by BLX.
pub fn blx_turns()
    ensures { BlxTurns }
{}
