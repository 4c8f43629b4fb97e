//! The guarded words of the stack, used by all memories (docs/rules/memory.md).
#![tactic(auto)]

pub mod guards;
