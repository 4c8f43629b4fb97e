//! Laws of the texts that are written (docs/guide/command-line.md).
ghost use Rattle.cmd_input.specs.Laws.{RegistersReadBack};

/// The source language reads the name of a register in a line as that register.
#[tactic(auto, using(crate::proofs::Registers::read_back))]
pub fn registers_read_back()
    ensures { RegistersReadBack }
{}
