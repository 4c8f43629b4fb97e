//! The frame checker of an image: it checks the index, each function, and the types. An accepted image stores what a run needs to know
//! of each address. docs/rules/acceptance.md states the rules.
#![tactic(auto)]

pub mod accepted;
pub mod checking;
pub mod fault;
mod judge;
pub mod laws;
mod marking;
pub mod pushes;
pub mod roles;
pub mod room;
pub mod roots;
mod walk;

pub use accepted::Accepted;
pub use checking::{check, check_unmarked, types_of};
pub use fault::{CheckFault, Rejected};
pub use roles::Role;
pub use room::Room;
