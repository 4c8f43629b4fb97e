//! One event of any instruction, and runs of any length, are the same in both machines (docs/inside/simulation.md).
#![tactic(auto)]

ghost use Rattle.sim_runs.specs.Turned.{TurnsSame, RunsSame, ReportsSame, RunsGuard};
ghost use Rattle.sim_runs.specs.Beyond.{BeyondStays};

pub mod one_report;

/// One event of any instruction is the same in both machines. The invariants of the machine with recorded activations hold after it,
/// whether the run goes on or ends.
pub fn turns_same()
    ensures { TurnsSame }
{}

/// A run of an accepted image from its start, of any length and on any input of bytes, is the same in both machines.
pub fn runs_same()
    ensures { RunsSame }
{}

/// Such runs have the same output, the same events, the same end and the same rest of the input.
pub fn reports_same()
    ensures { ReportsSame }
{}

/// In every state of such a run, a store to a saved word of an activation is refused with the word's address, and stores nothing.
pub fn runs_guard()
    ensures { RunsGuard }
{}

/// No event changes the guarded words outside the running stack.
pub fn beyond_stays()
    ensures { BeyondStays }
{}
