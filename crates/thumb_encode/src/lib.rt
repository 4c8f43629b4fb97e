//! Encodes instructions of Armv6-M (Armv6-M Architecture Reference Manual, DDI 0419), and of the six rows of Armv8-M
//! Baseline (DDI 0553) that the second profile adds.
#![tactic(auto)]

mod branch;
pub mod code;
pub mod encode;
mod lists;
mod memory;
mod operand;

pub use code::Code;
pub use thumb_isa::encode_fault::EncodeFault;
