//! What is known of a function's registers and stack at a place, as a fact: the effect of each instruction, meetings, vagueness, the
//! prologue's saves, and whether a fact agrees with an unwind recipe. docs/rules/acceptance.md states the rules.
#![tactic(auto)]

pub mod access;
pub mod branches;
pub mod cause;
pub mod data;
pub mod effects;
pub mod facts;
pub mod laws;
pub mod lists;
pub mod saves;
pub mod shifts;
pub mod sites;
pub mod straight;

pub use cause::FrameCause;
pub use effects::{after, write_fact_after};
pub use facts::{Fact, Source, clobber, entry_fact, is_meeting, is_same, join};
pub use saves::{Prologue, Save};
pub use sites::agrees;
pub use straight::Straight;
