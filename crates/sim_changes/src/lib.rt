//! Which parts of a state may change while it still stands for a recorded one, and which states are a start (docs/inside/simulation.md).
#![tactic(auto)]

ghost use Rattle.sim_changes.specs.Free.{FreeMemory, FreeRegisters, FreeAnywhere, FreeAfterGates, FreeStarts, StartsAreFresh, KeepThrows};
ghost use Rattle.sim_changes.specs.FactLaws.{FactsAreThere};
ghost use Rattle.sim_changes.specs.Barriers.{FreeBarriers};

/// Whether a state stands for a recorded one depends only on these parts of memory: the read-only segments, the saved words, the words of
/// exceptions in the pool, and which slots of the pool are out of use. All else may change.
pub fn free_memory()
    ensures { FreeMemory }
{}

/// A register other than sp may change if the fact at pc says nothing of it.
pub fn free_registers()
    ensures { FreeRegisters }
{}

/// Each function of an accepted image has valid facts, and each of them is a state of the flow: the premise of the law on registers.
pub fn facts_are_there()
    ensures { FactsAreThere }
{}

/// If no checked instruction stands at pc, all registers other than sp may change.
pub fn free_anywhere()
    ensures { FreeAnywhere }
{}

/// At a gate, pc may go to the next address with any values in r0 to r3 and r12.
pub fn free_after_gates()
    ensures { FreeAfterGates }
{}

/// A core at a function's start stands for one activation. Its sp is the end of its running stack, its return address is 0xFFFFFFFF, and it
/// has no exception.
pub fn free_starts()
    ensures { FreeStarts }
{}

/// The start of a run with recorded activations is such a state, at the image's entry and with the whole stack.
pub fn starts_are_fresh()
    ensures { StartsAreFresh }
{}

/// A new exception, and then a throw of that object, keep the invariants, with the lists changed as these calls say.
pub fn keep_throws()
    ensures { KeepThrows }
{}

/// The barrier words of an exception may be written, whatever they are, if it has no cleanup in progress. An exception that has landed has
/// none.
pub fn free_barriers()
    ensures { FreeBarriers }
{}
