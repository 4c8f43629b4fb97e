//! Lays out a source: where its functions, labels and pools are, and which of several refusals is reported
//! (docs/rules/sources.md).
#![tactic(auto)]

ghost use Rattle.asm_layout.specs.FaultLaw.{TheFirstIsAnswered, NoneOnlyOfNone};

pub mod fault;
pub mod frames;
pub mod given;
pub mod labels;
pub mod layout;
pub mod placed;
pub mod sort;
pub mod walk;
pub mod word;

pub use fault::{AsmFault, AsmWhat};

/// Of several refusals, the one at the lowest line is reported; at one line, the one of lowest rank; of equal ones, the
/// first that was found. None is reported only if nothing is refused.
pub fn the_first_refusal_is_answered()
    ensures first { TheFirstIsAnswered }
    ensures none { NoneOnlyOfNone }
{}
