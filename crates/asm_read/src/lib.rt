//! Reads sources of the assembly language into statements (docs/rules/sources.md).
#![tactic(auto)]

mod build;
mod choice;
mod expression;
pub mod fault;
mod form;
mod line;
mod makes;
mod pattern;
mod plan;
pub mod read;
mod table;
mod token;

pub use asm_statements::{Expr, Exprs, PoolValue, Stmt, StmtKind};
pub use fault::{SourceFault, SourceWhat};
pub use read::read_source;
