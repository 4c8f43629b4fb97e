//! The unwind instructions of an entry (IHI 0038, "Frame unwinding instructions"), read in place: their bytes, what they do to
//! registers over a memory, and a recipe that tells the same without a memory. docs/rules/unwind-tables.md states the rules.
#![tactic(auto)]

ghost use Rattle.eh_bytecode.specs.RecipeLaw.{RecipesRun};

pub mod codes;
pub mod frame;
pub mod once;
pub mod recipe;

pub use codes::{Codes, CodesFault};
pub use frame::{UnwindEnd, Vrs, unwind};
pub use once::pops_once;
pub use recipe::{Recipe, RecipeFault, Src, summarise};

/// If instructions have a recipe, running it gives the same as unwinding by them, for any registers and memory. From the words that the
/// instructions load, in the same order, it gives the same registers, or the same first address that can't be read.
pub fn recipes_run()
    ensures { RecipesRun }
{}
