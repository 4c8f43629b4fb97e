//! The code of an image as the frame checker sees it: the instruction at an address, where it leads, and the pair of instructions that
//! makes a frame of variable size. docs/rules/acceptance.md states the rules.
#![tactic(auto)]

pub mod branches;
pub mod lowering;
pub mod standing;

pub use standing::Standing;
