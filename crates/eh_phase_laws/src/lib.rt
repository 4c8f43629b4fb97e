//! Types, their matches, and the two phases of a throw, in numbers (Itanium C++ ABI; IHI 0038): laws above the definitions.
//! docs/rules/types-and-matching.md, docs/rules/types-and-matching.md and docs/rules/phases-and-exceptions.md state the rules.
#![tactic(auto)]

pub mod catches;
pub mod frame_ends;
pub mod pointers;
pub mod thrown;
pub mod types;
