//! Calls, gates, returns, and branches to the address in a register.
ghost use Rattle.std.specs.Prelude.{◌≡◌, ◌≤◌, ◌<◌};
ghost use Rattle.std.specs.List.{list_all};
ghost use Rattle.thumb_core.specs.Words.{registers_of_list};
ghost use Rattle.frame_facts.specs.Facts.{forget_registers};
ghost use Rattle.frame_facts.specs.Branches.{call_changes, gate_changes, preserved_by_calls, is_indirect, return_to, holds_own, returns_well};

use crate::facts::{Fact, Source};
use crate::lists;
use crate::saves::Prologue;
use thumb_isa::instr::Instr;
use thumb_isa::plain;

/// The fact after a gate, which changes r0 to r3 and r12.
#[tactic(auto, using(crate::proofs::Changing::gate_leaves))]
pub(crate) fn gate(fact: &mut Fact)
    ensures { fact.new ≡ forget_registers gate_changes fact.old }
{
    fact.regs[0] = Source::Other;
    fact.regs[1] = Source::Other;
    fact.regs[2] = Source::Other;
    fact.regs[3] = Source::Other;
    fact.regs[12] = Source::Other;
}

/// The fact after a call returns: it changes what a gate changes, and lr.
#[tactic(auto, using(crate::proofs::Changing::call_leaves))]
pub(crate) fn call(fact: &mut Fact)
    ensures { fact.new ≡ forget_registers call_changes fact.old }
{
    gate(fact);
    fact.regs[13] = Source::Other;
}

/// Whether an instruction branches to the address in a register, and is neither a call nor a return.
pub(crate) fn is_indirect(fact: &Fact, i: &Instr) -> bool
    ensures { result ≡ is_indirect i.now fact.now }
{
    match *i {
        Instr::MovHigh { d, .. } | Instr::AddHigh { d, .. } => d == 15,
        Instr::Bx { m } => !fact.source(m).is_entry(14),
        plain!()
        | Instr::AddSp { .. }
        | Instr::SubSp { .. }
        | Instr::Push { .. }
        | Instr::Pop { .. }
        | Instr::Stm { .. }
        | Instr::Ldm { .. }
        | Instr::B { .. }
        | Instr::BWide { .. }
        | Instr::BCond { .. }
        | Instr::Cbz { .. }
        | Instr::Bl { .. }
        | Instr::Blx { .. }
        | Instr::Svc { .. } => false,
    }
}

/// The source of the address that a return goes to; None if the instruction isn't a return.
pub(crate) fn return_to(p: &Prologue, fact: &Fact, i: &Instr) -> Option<Source>
    ensures { result ≡ return_to p.now i.now fact.now }
{
    match *i {
        Instr::Bx { m } => Some(fact.source(m)),
        Instr::Pop { list } => lists::popped_pc(p, fact, list),
        plain!()
        | Instr::AddHigh { .. }
        | Instr::MovHigh { .. }
        | Instr::AddSp { .. }
        | Instr::SubSp { .. }
        | Instr::Push { .. }
        | Instr::Stm { .. }
        | Instr::Ldm { .. }
        | Instr::B { .. }
        | Instr::BWide { .. }
        | Instr::BCond { .. }
        | Instr::Cbz { .. }
        | Instr::Bl { .. }
        | Instr::Blx { .. }
        | Instr::Svc { .. } => None,
    }
}

/// Whether r4 to r11 have the values that they had at the entry.
fn all_own(fact: &Fact) -> bool
    ensures { result ≡ list_all (holds_own fact.now) preserved_by_calls }
{
    for reg in 4..12u8 {
        if !fact.source(reg).is_entry(reg) {
            return false;
        }
    }
    true
}

/// Whether a return to `pc`, with this fact after it, leaves registers and stack as the caller needs them.
pub(crate) fn returns_well(fact: &Fact, pc: Source) -> bool
    ensures { result ≡ returns_well fact.now pc }
{
    fact.depth == 0 && !fact.below && all_own(fact) && pc.is_entry(14)
}
