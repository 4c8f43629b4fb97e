//! The code of an instruction (docs/rules/instructions.md).

/// The code of an instruction: its halfwords, in the order of their addresses.
#[derive(Clone, Copy, PartialEq, Eq, Debug)]
pub enum Code {
    /// The halfword of a 16-bit instruction.
    Half(u16),
    /// The halfwords of a 32-bit instruction.
    Pair(u16, u16),
}
