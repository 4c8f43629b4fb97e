//! A law on which parts of an image can be written and read back (docs/rules/elf.md). No crate of the program calls it.
#![tactic(auto)]

ghost use Rattle.elf_laws.specs.Good.{GoodPartsAreRead, GoodPartsMeanTheirImage};

/// Parts are written as they are laid out, and the file reads as their image, if four conditions hold. The segments fit
/// the memory map and don't overlap; the limits of an image are kept; a read-only segment contains the index; and the
/// entry is the start of a function.
pub fn good_parts_are_read()
    ensures written { GoodPartsAreRead }
    ensures read { GoodPartsMeanTheirImage }
{}
