//! The static linker: links objects into the parts of an image (docs/rules/linking.md).
#![tactic(auto)]

ghost use Rattle.eh_link.specs.FieldLaw.{OtherBytesStay, FieldsHold};
ghost use Rattle.eh_link.specs.EquationLaw.{AbsoluteFields, RelativeFields, Prel31Fields, Calls, Jumps, CondJumps, ImagesReach};
ghost use Rattle.eh_link.specs.LayoutLaw.{ImagesHaveTheseBytes, SizesAreOfBytes, CodeStands, IndexStands, DataStands};
ghost use Rattle.eh_link.specs.IndexLaw.{RowsAscend, RowsAreKept, SameStartsKeepTheirOrder, IndexReadsBack, ImagesHaveTheirRows};

pub mod fault;
mod field;
mod fill;
mod index;
mod linking;
mod names;
mod places;
mod segments;
mod symbols;

pub use fault::LinkFault;
pub use linking::link;

/// A field that overlaps no other holds what its relocation writes into the object's bytes. A byte in no field is the
/// object's.
pub fn fields_hold_what_their_relocations_write()
    ensures stay { OtherBytesStay }
    ensures hold { FieldsHold }
{}

/// A field that overlaps no other and lies in its section satisfies the equation of its relocation (IHI 0044), given
/// the address of its name, the addend and its own address. It is a word of that sum or difference, or a branch that
/// decodes to that offset. In objects that link, each branch reaches its target.
pub fn fields_satisfy_their_equations()
    ensures absolute { AbsoluteFields }
    ensures relative { RelativeFields }
    ensures prel31 { Prel31Fields }
    ensures call { Calls }
    ensures jump { Jumps }
    ensures cond_jump { CondJumps }
    ensures reach { ImagesReach }
{}

/// In a linked image each object's sections are at their addresses, and the index is last in the first segment. A
/// segment's size is the number of its bytes, plus the zeros after them in the second segment.
pub fn parts_stand_at_their_addresses()
    ensures images { ImagesHaveTheseBytes }
    ensures sizes { SizesAreOfBytes }
    ensures code { CodeStands }
    ensures index { IndexStands }
    ensures init { DataStands }
{}

/// The exception index (IHI 0038) has the rows of all objects, ascending by start; rows with the same start are in the
/// order of the objects. Each word, read relative to its address, gives the start, the table or the inline entry of its
/// row. The last row says that nothing unwinds from the end of the text on.
pub fn the_index_reads_back()
    ensures ascend { RowsAscend }
    ensures kept { RowsAreKept }
    ensures ties { SameStartsKeepTheirOrder }
    ensures read { IndexReadsBack }
    ensures images { ImagesHaveTheirRows }
{}
