//! What a program answers: the texts that it writes, its statuses, and why it stops early (docs/guide/command-line.md, docs/rules/memory.md). Every
//! program of this repository that answers by a status uses this crate.
#![tactic(auto)]

pub mod answer;
pub mod status;
mod stop;

pub use stop::Stop;
