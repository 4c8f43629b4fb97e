//! Runs raw code, without unwinding (docs/rules/memory.md). An event is one instruction. There is no checker, no word is
//! guarded, and the gates are 0 to 2.
#![tactic(auto)]

mod decode_cache;
mod event;
mod run;

pub use run::flat_run;
