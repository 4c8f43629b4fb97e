//! Relocations by their numbers, and the values of their fields (ELF for the Arm Architecture, IHI 0044, "Relocation
//! types").
ghost use Rattle.std.specs.Prelude.{◌≡◌};
ghost use Rattle.asm_relocatable.specs.Relocations.{kind_of, width};

/// A word: the address of a symbol, bit 0 set for a function.
pub const R_ARM_ABS32: u32 = 2;
/// A word: the address relative to the word.
pub const R_ARM_REL32: u32 = 3;
/// The offset of `bl`.
pub const R_ARM_THM_CALL: u32 = 10;
/// The same as `R_ARM_ABS32`. The assembler never makes it.
pub const R_ARM_TARGET1: u32 = 38;
/// A word that refers to a type, relative to the word.
pub const R_ARM_TARGET2: u32 = 41;
/// Bits 30 to 0 of a word: the address relative to the word.
pub const R_ARM_PREL31: u32 = 42;
/// The offset of `b`.
pub const R_ARM_THM_JUMP11: u32 = 102;
/// The offset of `b` with a condition.
pub const R_ARM_THM_JUMP8: u32 = 103;

/// The value that the field of a relocation takes.
#[derive(Clone, Copy)]
pub enum FieldKind {
    /// R_ARM_ABS32 and R_ARM_TARGET1.
    Absolute,
    /// R_ARM_REL32 and R_ARM_TARGET2.
    Relative,
    /// R_ARM_PREL31.
    Prel31,
    /// R_ARM_THM_CALL: the offset of a BL.
    Call,
    /// R_ARM_THM_JUMP11: the offset of a B.
    Jump,
    /// R_ARM_THM_JUMP8: the offset of a B with a condition.
    CondJump,
}

/// The field of a relocation by its number; None if the relocation changes nothing.
pub fn kind_of(number: u32) -> Option<FieldKind>
    ensures { result ≡ kind_of number }
{
    match number {
        R_ARM_ABS32 | R_ARM_TARGET1 => Some(FieldKind::Absolute),
        R_ARM_REL32 | R_ARM_TARGET2 => Some(FieldKind::Relative),
        R_ARM_PREL31 => Some(FieldKind::Prel31),
        R_ARM_THM_CALL => Some(FieldKind::Call),
        R_ARM_THM_JUMP11 => Some(FieldKind::Jump),
        R_ARM_THM_JUMP8 => Some(FieldKind::CondJump),
        _ => None,
    }
}

/// The width of a field, in bytes.
pub fn width(kind: FieldKind) -> usize
    ensures { result ≡ width kind }
{
    match kind {
        FieldKind::Jump | FieldKind::CondJump => 2,
        FieldKind::Absolute | FieldKind::Relative | FieldKind::Prel31 | FieldKind::Call => 4,
    }
}
