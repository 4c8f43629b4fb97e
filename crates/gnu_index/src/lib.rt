//! Rewrites the unwind tables of an image with GNU's C++ tables: each generic entry becomes a table of the compact model, and the rows
//! of the index table refer to these (IHI 0038). docs/rules/gnu-tables.md states the rules.
#![tactic(auto)]

pub mod filters;
pub mod refusal;
pub mod tables;

pub use filters::filter_of;
pub use refusal::{GnuFault, SITES_LIMIT, rows_refusal, sites_refusal};
pub use tables::{RefusedEntry, RewrittenTables, rewrite_rows, rewritten_within_limit};
