//! The unwind directives of a source and the unwinding of its frames, together: the unwind instructions that the assembler writes for a
//! prologue undo it. docs/rules/sources.md states the rule.
#![tactic(auto)]

ghost use Rattle.eh_unwind_laws.specs.PrologueLaw.{ProloguesAreUndone};
ghost use Rattle.eh_unwind_laws.specs.ReadLaw.{EntriesAreRead};

/// Unwinding undoes what a function's directives say of its prologue, if none of them is refused. The readers of tables accept the
/// function's entry, and find its unwind instructions. Run on the registers and memory after the prologue, these finish. Then the stack
/// pointer and each saved register have their values at the function's entry. The other registers are unchanged, and pc has lr's value.
/// Unwinding begins with the stack pointer after the prologue; with a frame pointer, the stack pointer may be anything.
pub fn prologues_are_undone()
    ensures read { EntriesAreRead }
    ensures taken_back { ProloguesAreUndone }
{}
