//! The facts of one function: what is known at each of its places, and the causes that stand there.
//! docs/rules/acceptance.md, "Valid facts", states the rules.
#![tactic(auto)]

pub mod causes;
mod facts;
pub mod framed;
pub mod laws;
pub mod work;

pub use framed::FramedFunction;
pub use work::{FrameFault, SolveRoom, solve, solve_in};
