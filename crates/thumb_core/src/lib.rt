//! Executes one instruction of an Armv6-M core over any memory. A second profile adds division, wide branches and
//! 16-bit immediates.
#![tactic(auto)]

pub mod access;
pub mod alu;
pub mod arith;
pub mod branch;
pub mod calls;
pub mod data;
pub mod division;
pub mod ends;
pub mod halfwords;
pub mod lists;
pub mod nature_laws;
pub mod regs;
pub mod shift;
pub mod step;
