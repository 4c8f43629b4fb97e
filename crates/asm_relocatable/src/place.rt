//! Sections, and places in them (docs/rules/sources.md).
ghost use Rattle.std.specs.Prelude.{◌≡◌};
ghost use Rattle.asm_relocatable.specs.Sections.{same_section};

/// A section of an object.
#[derive(Clone, Copy, PartialEq, Eq, Debug)]
pub enum Section {
    /// The text: code, and data that is mixed in.
    Text,
    /// The read-only data.
    Rodata,
    /// The exception tables.
    Extab,
    /// The initialized data.
    Init,
    /// The data that begins as zeros (bss).
    Bss,
}

/// A place in a section.
#[derive(Clone, Copy)]
pub struct Place {
    /// The section.
    pub section: Section,
    /// The offset in bytes from the section's start.
    pub offset: u64,
}

/// Whether two sections are the same.
pub fn same_section(a: Section, b: Section) -> bool
    ensures { result ≡ same_section a b }
{
    a == b
}
