//! The trace of a run: its events, their numbers by kind, and the text of the stored ones: docs/rules/phases-and-exceptions.md.
#![tactic(auto)]

pub mod event;
pub mod events;
pub mod lines;
pub mod names;
pub mod text;

pub use event::{Event, EventKind, TraceMemory};
pub use events::{Events, NearRows};
pub use lines::trace_lines;
pub use names::TypeNames;
pub use text::push_named_place;
