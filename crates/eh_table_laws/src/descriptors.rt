//! Descriptors, as bytes and numbers (IHI 0038, "Descriptors"; docs/rules/unwind-tables.md).
ghost use Rattle.eh_table_laws.specs.Tables.{IndexZeroIsNarrow, LongIndices, SpecificationTypes};
ghost use Rattle.eh_table_laws.specs.Descriptors.{ZeroEnds, CleanupsAreRead, EverythingIsCaught, EverythingFails, TypesAreCaught, NoTypeIsCaught, SpecificationsAreRead, PaddedSpecificationsAreRead};

/// The top byte of a table's first word tells where its descriptors begin, and how wide their lengths and offsets are: halfwords for 80
/// and 81, words for 82.
pub fn tables_tell_the_width()
    ensures zero { IndexZeroIsNarrow }
    ensures long { LongIndices }
{}

/// A descriptor begins with its scope's length and then its offset, each a halfword or a word. Without mark bits it is a cleanup, and a
/// landing pad follows. A word of 0 ends the list.
pub fn cleanups_are_read()
    ensures end { ZeroEnds }
    ensures cleanup { CleanupsAreRead }
{}

/// Bit 0 of the length marks a catch. Its type word is FFFFFFFF to catch everything, FFFFFFFE to catch everything and fail, and 0 for
/// no type. Otherwise it is the distance of the type from the type word's own address, in bytes.
pub fn catches_are_read()
    ensures all { EverythingIsCaught }
    ensures fails { EverythingFails }
    ensures types { TypesAreCaught }
    ensures none { NoTypeIsCaught }
{}

/// Bit 0 of the offset marks a specification: the number of its types, and their words. If bit 31 of the number is set, a landing pad
/// follows.
pub fn specifications_are_read()
    ensures plain { SpecificationsAreRead }
    ensures padded { PaddedSpecificationsAreRead }
{}

/// A type word of a specification is the distance of the type from that word's own address, in bytes.
pub fn types_are_counted_from_their_own_place()
    ensures { SpecificationTypes }
{}
