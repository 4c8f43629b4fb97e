//! A generic entry of GNU's tables as a table of the compact model (IHI 0038): its unwind instructions, and descriptors for its
//! call-site records. docs/rules/gnu-tables.md states the rules.
#![tactic(auto)]

pub mod codes;
pub mod scopes;

pub use codes::codes_of;
pub use scopes::{GnuDescriptor, scopes_of};
