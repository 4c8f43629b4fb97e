//! Laws of every function and every image. docs/rules/acceptance.md.
ghost use Rattle.frame_check.specs.Laws.{WellIsUnrefused, WellFunctions, RefusalsAreRight, RootsAreNamed, SavesAreWords, LoweringsAreCopies};

/// A function is accepted if and only if no cause stands at any of its places.
pub fn a_function_is_well_where_no_cause_stands()
    ensures { WellIsUnrefused }
{}

/// What the unwind entry of an accepted function is like, and how many places it reaches at most.
pub fn well_functions_have_well_entries()
    ensures { WellFunctions }
{}

/// An image with something to refuse isn't accepted.
pub fn what_is_refused_is_not_accepted()
    ensures { RefusalsAreRight }
{}

/// The root types are those that the descriptors of the functions' entries name, and the type symbols.
pub fn roots_are_what_descriptors_name()
    ensures { RootsAreNamed }
{}

/// The words recorded for the PUSHes of a prologue are its saves, all of them and no others.
pub fn saves_are_words_of_pushes()
    ensures { SavesAreWords }
{}

/// An address is a lowering place of an image if and only if three things hold. It has a MOV of a register into sp; 2 bytes before it
/// is a SUB of two registers into that register; and both are reached in one of the functions.
pub fn lowering_places_are_copies()
    ensures { LoweringsAreCopies }
{}
