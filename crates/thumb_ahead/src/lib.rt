//! What is known of an instruction before it is executed: which bytes it may store to, so that they can be saved and
//! restored; whether it branches; how many words it pushes (docs/rules/machine.md, "An event").
#![tactic(auto)]

mod instruction;
mod span;
mod undo_record;

pub use instruction::{Ahead, look_ahead};
pub use undo_record::{UndoRecord, undo_record_of};
