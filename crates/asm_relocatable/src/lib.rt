//! Relocatable objects, as types: sections, symbols, index rows and relocations. The assembler makes them, the linker
//! takes them (docs/rules/sources.md).
#![tactic(auto)]

pub mod name;
pub mod object;
pub mod place;
pub mod relocation;

pub use object::{
    IndexRow, IndexRows, Mark, Marks, ObjSymbol, ObjSymbols, Object, Octets, Reloc, Relocs,
    RowEntry,
};
pub use place::Section;
