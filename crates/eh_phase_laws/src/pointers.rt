//! When a pointer is caught as another pointer, and what never matches (Itanium C++ ABI, "Exception handling"; docs/rules/types-and-matching.md).
ghost use Rattle.eh_phase_laws.specs.Pointers.{EqualPointeesMatch, VoidTakesObjects, VoidTakesNoFunctions, OtherPointeesFail, UnlikeTypesFail};

/// A pointer that keeps its qualifiers is caught as one to an equal type. It is also caught as one to void, unless it points to a
/// function. The handler is given the pointer itself. For other pointees only classes are caught.
pub fn pointers_match_by_pointee()
    ensures equal { EqualPointeesMatch }
    ensures void { VoidTakesObjects }
    ensures function { VoidTakesNoFunctions }
    ensures others { OtherPointeesFail }
{}

/// Unequal types match only as two classes or as two pointers.
pub fn unlike_types_fail()
    ensures { UnlikeTypesFail }
{}
