//! An image whose GNU unwind tables are rewritten is written, and read back as it was meant: laws of the parts of such images. No crate
//! of the program calls them. docs/rules/gnu-tables.md states the rules.
#![tactic(auto)]

ghost use Rattle.gnu_rewrite_laws.specs.Laws.{PartsAreGood, PartsAreWritten, FilesAreRead, FunctionsStay, SegmentsStay, CodeStays, IndexIsRead, NamedSymbolsStay, TypesStay, ProfileStays, SecondProfileStays};

/// The parts of an image that was read can be written, if the rewritten image is within the limits. They are written as they are laid
/// out, and the file is read back as their image.
pub fn translated_parts_are_good()
    ensures good { PartsAreGood }
    ensures written { PartsAreWritten }
    ensures read { FilesAreRead }
{}

/// The index of the rewritten image is never refused, and its entries are the new rows.
pub fn the_index_is_read()
    ensures { IndexIsRead }
{}

/// The entry point and the functions stay, and so do the segments; the new segment comes after them.
pub fn functions_stay()
    ensures functions { FunctionsStay }
    ensures segments { SegmentsStay }
{}

/// An address is code in the rewritten image if and only if it was before.
pub fn code_stays()
    ensures { CodeStays }
{}

/// The symbols that are looked up by name keep their addresses: the vtables of the kinds of types, and the profile.
pub fn named_symbols_stay()
    ensures { NamedSymbolsStay }
{}

/// An address has a type symbol if and only if it had one before.
pub fn types_stay()
    ensures { TypesStay }
{}

/// The rewritten image has the same instruction set profile, unless the profile's symbol lies above the image's memory, where the new
/// segment may have a word. An image of the second profile keeps it in any case.
pub fn the_profile_stays()
    ensures profile { ProfileStays }
    ensures second { SecondProfileStays }
{}
