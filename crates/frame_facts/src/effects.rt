//! The effect of an instruction on a fact, and the causes that it can give. docs/rules/acceptance.md, "Effects".
ghost use Rattle.std.specs.Prelude.{◌≡◌};
ghost use Rattle.frame_facts.specs.Facts.{some_if};
ghost use Rattle.frame_facts.specs.After.{effect, after_of, fact_if_ok};

use crate::access::{mem_imm, mem_reg, mem_sp};
use crate::branches::{call, gate, is_indirect, return_to, returns_well};
use crate::cause::FrameCause;
use crate::data::{add_high, add_sub_imm3, alu, imm8, mov_high};
use crate::facts::Fact;
use crate::lists::{ldm, pop, push};
use crate::saves::Prologue;
use crate::shifts::shift_imm;
use thumb_isa::instr::Instr;
use thumb_isa::{idles, works};

/// Writes the fact after the instruction at address `at` to `next`. False if sp is changed in a way that isn't allowed; then `next`
/// isn't specified.
pub(crate) fn effect(
    fact: &Fact,
    next: &mut Fact,
    i: &Instr,
    at: u32,
    p: &Prologue,
    lowers: bool,
) -> bool
    ensures { some_if result next.new ≡ effect p.now lowers at i.now fact.now }
{
    *next = *fact;
    match *i {
        works!(d) => {
            next.forget_register(d);
            true
        }
        idles!() => true,
        Instr::ShiftImm { op, d, m, n } => {
            shift_imm(next, op, d, m, n);
            true
        }
        Instr::AddSubImm3 { sub, d, n, imm } => {
            add_sub_imm3(next, sub, d, n, imm);
            true
        }
        Instr::Imm8 { op, d, imm } => {
            imm8(next, op, d, imm);
            true
        }
        Instr::Alu { op, d, .. } => {
            alu(next, op, d);
            true
        }
        Instr::AddRdSp { d, off } => {
            next.set(d, fact.sp_plus(off));
            true
        }
        Instr::AddHigh { d, .. } => add_high(next, d),
        Instr::MovHigh { d, m } => mov_high(p, next, lowers, d, m),
        Instr::LdrLit { t, .. } => {
            next.forget_register(t);
            true
        }
        Instr::MemReg { op, t, .. } => {
            mem_reg(next, op, t);
            true
        }
        Instr::MemImm { op, t, .. } => {
            mem_imm(next, op, t);
            true
        }
        Instr::MemSp { load, t, off } => {
            mem_sp(p, next, load, t, off);
            true
        }
        Instr::Stm { n, .. } => {
            next.forget_register(n);
            true
        }
        Instr::Ldm { n, list } => {
            ldm(next, n, list);
            true
        }
        Instr::AddSp { off } => p.to_depth(next, i64::from(fact.depth) - i64::from(off)),
        Instr::SubSp { off } => p.to_depth(next, i64::from(fact.depth) + i64::from(off)),
        Instr::Push { list } => push(p, next, at, list),
        Instr::Pop { list } => pop(p, fact, next, list),
        Instr::B { .. }
        | Instr::BWide { .. }
        | Instr::BCond { .. }
        | Instr::Cbz { .. }
        | Instr::Bx { .. } => true,
        Instr::Bl { .. } | Instr::Blx { .. } => {
            call(next);
            true
        }
        Instr::Svc { .. } => {
            gate(next);
            true
        }
    }
}

/// Writes the fact after the instruction at address `at`, in a function with this prologue, to `next`. Err with the lowest cause that
/// it gives: `IndirectBranch`, `SpWrite` or `ReturnState`; then `next` isn't specified. After a return the fact is what the caller
/// finds.
///
/// `lowers` says that `at` is a place where sp is lowered by an amount that is only known at run time; it only matters for a MOV into
/// sp.
pub fn write_fact_after(
    fact: &Fact,
    next: &mut Fact,
    i: &Instr,
    at: u32,
    p: &Prologue,
    lowers: bool,
) -> Result<(), FrameCause>
    ensures { fact_if_ok result next.new ≡ after_of p.now lowers at i.now fact.now }
{
    // most sites are calls, which give no cause
    if let Instr::Bl { .. } = *i {
        *next = *fact;
        call(next);
        return Ok(());
    }
    if is_indirect(fact, i) {
        return Err(FrameCause::IndirectBranch);
    }
    if !effect(fact, next, i, at, p, lowers) {
        return Err(FrameCause::SpWrite);
    }
    match return_to(p, fact, i) {
        None => Ok(()),
        Some(pc) => {
            if returns_well(next, pc) {
                Ok(())
            } else {
                Err(FrameCause::ReturnState)
            }
        }
    }
}

/// As `follow`, but returns the fact.
pub fn after(
    fact: &Fact,
    i: &Instr,
    at: u32,
    p: &Prologue,
    lowers: bool,
) -> Result<Fact, FrameCause>
    ensures { result ≡ after_of p.now lowers at i.now fact.now }
{
    let mut next = *fact;
    match write_fact_after(fact, &mut next, i, at, p, lowers) {
        Ok(()) => Ok(next),
        Err(cause) => Err(cause),
    }
}
