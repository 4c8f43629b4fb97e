//! What the words of a type tell, and which types are equal (Itanium C++ ABI, "Run-Time Type Information (RTTI)"; docs/rules/types-and-matching.md).
ghost use Rattle.eh_phase_laws.specs.Types.{TypesAreEqual, VtablesTellKinds, KindsAreRead, WordsAreThere, NoOthersAreAsked, WordsAreFourBytes, OtherWordsAreZero, SingleBases, ManyBases, OthersHaveNoBases};

/// Two types are equal if and only if they have the same address, or the same name, which isn't empty and doesn't begin with `*`.
pub fn types_are_equal()
    ensures { TypesAreEqual }
{}

/// The first word of a type is 8 above one of five vtables, which tells its kind. The word at byte 8 is the base of a class with a
/// single base, or a pointer's flags. The word at byte 12 is a pointer's pointee.
pub fn kinds_are_told()
    ensures told { VtablesTellKinds }
    ensures read { KindsAreRead }
{}

/// A type can be read if the words of its kind are there and none of them is writable. Every kind has two words. A class with a single
/// base has three, a pointer four, and a class with a list of bases four and two for each base. Exactly these words are read. A word is
/// the number in the four bytes from its address on, and 0 if they aren't all file bytes of one segment.
pub fn words_are_there()
    ensures there { WordsAreThere }
    ensures no_others { NoOthersAreAsked }
    ensures bytes { WordsAreFourBytes }
    ensures none { OtherWordsAreZero }
{}

/// A single base is public, not virtual and at offset 0. For a list of bases, their number is at byte 12 and they begin at byte 16.
/// Other types have no bases.
pub fn bases_are_told()
    ensures single { SingleBases }
    ensures many { ManyBases }
    ensures none { OthersHaveNoBases }
{}
