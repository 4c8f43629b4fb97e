//! The instructions of Armv6-M (Armv6-M Architecture Reference Manual, DDI 0419) and their decoder. A second profile
//! adds six rows of Armv8-M Baseline (DDI 0553).
#![tactic(auto)]

pub mod decode;
pub mod encode_fault;
pub mod fields;
pub mod instr;
pub mod late;
pub mod nature;
pub mod profile;
pub mod profile_laws;
