//! The assembler: makes objects of statements (docs/rules/sources.md).
#![tactic(auto)]

ghost use Rattle.asm_object.specs.PlaceLaw.{
  SectionsEndAfterTheirBytes,
  PlacesCountTheBytesBefore,
  BytesStandAtTheirPlaces,
};
ghost use Rattle.asm_object.specs.LoadLaw.{LoadsReadTheirWords};
ghost use Rattle.asm_object.specs.ObjectLaw.{FieldsStandInOrder, RelocsGoBySection, RelocsHaveKinds, SymbolsStandAtTheirLabels};

pub mod assembly;
mod bytes;
mod code;
mod part;
mod parts;
mod refusal;
mod symbols;
mod value;

pub use asm_layout::fault::{AsmFault, AsmWhat};
pub use asm_relocatable::{
    IndexRow, IndexRows, Mark, Marks, ObjSymbol, ObjSymbols, Object, Octets, Reloc, Relocs,
    RowEntry, Section,
};
pub use assembly::assemble;

/// If nothing is refused and no section is too large, a statement's place counts the bytes of its section before it.
/// From there on the section has the bytes of the statement and of those after it, and it ends after the last one's.
pub fn places_count_bytes()
    ensures end { SectionsEndAfterTheirBytes }
    ensures before { PlacesCountTheBytesBefore }
    ensures there { BytesStandAtTheirPlaces }
{}

/// Relocations are ordered by section, and in a section their fields follow one another, whole in the section's bytes.
/// So no two fields of an object share a byte.
pub fn fields_stand_in_order()
    ensures fields { FieldsStandInOrder }
    ensures sections { RelocsGoBySection }
    ensures kinds { RelocsHaveKinds }
{}

/// In every object, the symbol of a label is where the statements before the label end: in that section, at that
/// offset.
pub fn symbols_stand_at_their_labels()
    ensures { SymbolsStandAtTheirLabels }
{}

/// In every object, a `ldr` of a value loads that value's word: its offset leads to a place of the text with the bytes
/// of the word.
pub fn loads_read_their_words()
    ensures { LoadsReadTheirWords }
{}
