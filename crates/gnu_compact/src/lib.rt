//! Writes a table of the compact model with its descriptors (IHI 0038, "The compact model", "Scope encoding"): the opposite of
//! `eh_desc`. docs/rules/gnu-tables.md states the format.
#![tactic(auto)]

ghost use Rattle.gnu_compact.specs.Laws.{TablesAreReadAsWritten};

pub mod codes;
pub mod descriptor;

pub use codes::{codes_end, push_codes};
pub use descriptor::{OwnDescriptor, OwnKind, push_descriptor, push_descriptors, push_table};

/// A table is read as it was written, whatever bytes follow it: its unwind instructions, and its descriptors at their addresses and in
/// their order.
pub fn tables_are_read_as_written()
    ensures { TablesAreReadAsWritten }
{}
