//! The run of an accepted image whose unwind tables were rewritten from those of a GNU C++ compiler. It is the machine that unwinds; at
//! each landing pad it also gives what the pad's code expects (docs/rules/gnu-tables.md).
#![tactic(auto)]

pub mod handing;
pub mod laws;
pub mod run;

pub use run::gnu_run;
