//! The statements of a source, as types: the reader makes them, the assembler takes them (docs/rules/sources.md).
#![tactic(auto)]

pub mod computation;
pub mod exprs;
pub mod statement;

pub use computation::{OfRegisterNumber, OfThreeRegisters, OfTwoRegisters, OfTwoRegistersNumber};
pub use exprs::{Exprs, ExprsRef};
pub use statement::{Expr, PoolValue, Stmt, StmtKind};
