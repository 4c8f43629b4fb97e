//! The law that the table of natures fits the effects of instructions
//! (docs/rules/instructions.md, "Natures").
ghost use Rattle.thumb_core.specs.NatureLaws.{NaturesFit};

/// An instruction changes the registers as its nature says. One that works on a register changes only that register and
/// the flags, and goes on to the next instruction. One that neither loads nor stores leaves the memory unchanged.
#[tactic(auto, using(crate::proofs::Natures::natures_fit))]
pub fn natures_fit()
    ensures { NaturesFit }
{}
