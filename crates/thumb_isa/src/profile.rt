//! Profiles, which say by which rows of the instruction table a program is decoded
//! (docs/rules/instructions.md, "Profiles").
/// A set of instructions by which a program is decoded.
#[derive(Clone, Copy)]
pub enum Profile {
    /// Armv6-M (DDI 0419).
    One,
    /// Armv6-M and six rows of Armv8-M Baseline (DDI 0553): compare and branch, wide branch, 16-bit immediates,
    /// division.
    Two,
}
