//! What a frame's descriptors decide in phase 1, and what they enter in phase 2 (IHI 0038, "Phase 1 unwinding" and "Phase 2 unwinding";
//! docs/rules/phases-and-exceptions.md).
ghost use Rattle.eh_phase_laws.specs.Catches.{OutsideIsPassed, CleanupsAreEntered, EverythingStops, EverythingFails, TypesStop, FaultsEnd, BarriersStop};

/// A scope is the addresses from its start to below its end. A descriptor that isn't in scope has no effect in either phase. A cleanup
/// in scope has no verdict, and is entered by phase 2.
pub fn scopes_are_half_open()
    ensures outside { OutsideIsPassed }
    ensures cleanup { CleanupsAreEntered }
{}

/// A catch of everything stops every object, with the object itself. One that fails ends the throw with NoThrow. A catch of a type
/// stops the objects that match it, with this match, and passes all others.
pub fn catches_say()
    ensures all { EverythingStops }
    ensures fails { EverythingFails }
    ensures types { TypesStop }
{}

/// A descriptor that can't be read ends both phases.
pub fn faults_end()
    ensures { FaultsEnd }
{}

/// Phase 2 enters a catch or a specification in scope if it is the barrier: it has the barrier's address, and its frame the barrier's
/// sp. It passes every other one.
pub fn barriers_stop()
    ensures { BarriersStop }
{}
