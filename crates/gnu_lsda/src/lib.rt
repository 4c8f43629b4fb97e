//! Unwind entries of the generic model, and the language-specific data areas of the GNU C++ personality routine (IHI 0038; Linux
//! Standard Base, "Exception Frames"), read in place. docs/rules/gnu-tables.md states the rules.
#![tactic(auto)]

pub mod actions;
pub mod fault;
pub mod generic;
pub mod laws;
pub mod leb128;
pub mod lsda;
pub mod records;

pub use actions::{Action, ActionFault, Actions, CatchFilter};
pub use fault::EntryFault;
pub use generic::{Generic, personality_symbol, row_at, row_count};
pub use leb128::{SignedNumber, sleb128, uleb128_at};
pub use lsda::{HeadFault, Lsda};
pub use records::{Record, RecordFault, Records};
