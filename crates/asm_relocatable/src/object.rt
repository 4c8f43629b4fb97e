//! The object of a source (docs/rules/sources.md).
use crate::place::Section;
use eh_word::{Name, Seq};

/// A label of the source, as a symbol.
#[derive(Drop)]
pub struct ObjSymbol {
    /// The label's name.
    pub name: Name,
    /// The section that it is in.
    pub section: Section,
    /// The offset in bytes from the start of its section.
    pub offset: u32,
    /// The size in bytes that `.size` gave it, else 0.
    pub size: u32,
    /// Whether `.type` says that it is a function.
    pub function: bool,
    /// Whether `.global` names it.
    pub global: bool,
}

/// A change between code and data in the text. The first bytes of a text always have a mark.
#[derive(Clone, Copy, Debug)]
pub struct Mark {
    /// The offset in bytes from the start of the text.
    pub offset: u32,
    /// Whether code begins here; else data does.
    pub code: bool,
}

/// The second word of a function's row in the index table (IHI 0038).
#[derive(Clone, Copy)]
pub enum RowEntry {
    /// EXIDX_CANTUNWIND: no unwinding through the function.
    CantUnwind,
    /// The entry itself, in the word.
    Inline(u32),
    /// A table; the number is its offset in bytes in the exception tables.
    Table(u32),
}

/// The index row of a function, which is the text between its `.fnstart` and its `.fnend`.
#[derive(Clone, Copy)]
pub struct IndexRow {
    /// The function's offset in bytes from the start of the text.
    pub offset: u32,
    /// Its unwind entry.
    pub entry: RowEntry,
}

/// A relocation: a field that the linker fills in (IHI 0044).
#[derive(Drop)]
pub struct Reloc {
    /// The section of the field.
    pub section: Section,
    /// The offset in bytes of the field from the start of its section.
    pub offset: u32,
    /// The relocation's number in the ELF standard for Arm.
    pub kind: u32,
    /// The name whose address the field takes.
    pub name: Name,
    /// The number that is added to the address.
    pub addend: i32,
}

/// The bytes of a section. Contracts see a list.
pub type Octets = Seq<u8>;

/// Symbols. Contracts see a list.
pub type ObjSymbols = Seq<ObjSymbol>;

/// Marks. Contracts see a list.
pub type Marks = Seq<Mark>;

/// Rows of the index. Contracts see a list.
pub type IndexRows = Seq<IndexRow>;

/// Relocations. Contracts see a list.
pub type Relocs = Seq<Reloc>;

/// The relocatable object of a source.
#[derive(Drop)]
pub struct Object {
    /// The bytes of the text.
    pub text: Octets,
    /// The bytes of the read-only data.
    pub rodata: Octets,
    /// The bytes of the exception tables.
    pub extab: Octets,
    /// The bytes of the initialized data.
    pub init: Octets,
    /// The size of bss in bytes.
    pub bss: u32,
    /// All labels, local ones too, in the order of the text.
    pub symbols: ObjSymbols,
    /// The changes between code and data, in the order of the text.
    pub marks: Marks,
    /// The functions' index rows, in the order of the text.
    pub rows: IndexRows,
    /// The relocations, by section in the order of `Section`, then by offset.
    pub relocs: Relocs,
}
