//! What the descriptors of a frame do with a thrown object (IHI 0038, "Phase 1 unwinding"; docs/rules/phases-and-exceptions.md).
ghost use Rattle.eh_phase_laws.specs.Thrown.{CatchesAskTheMatch, SpecificationsAskTheMatch};

/// A catch of everything stops what is thrown, with the object itself. A catch of a type stops an object that is caught as that type. A
/// specification stops an object that isn't caught as any of its types; the first type that it is caught as lets it pass.
pub fn descriptors_ask_the_match()
    ensures catches { CatchesAskTheMatch }
    ensures specifications { SpecificationsAskTheMatch }
{}
