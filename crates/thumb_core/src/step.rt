//! One step: fetches, decodes and executes the instruction at pc (docs/rules/instructions.md, "One step").
ghost use Rattle.std.specs.Prelude.{◌≡◌, IfOk, Some};
ghost use Rattle.thumb_isa.specs.Range.{InRange};
ghost use Rattle.thumb_core.specs.Laws.{AreSound, KeepsMap, Leaves, LeavesMemory, OnTrap, PcStands};
ghost use Rattle.thumb_core.specs.Step.{step_for, step_of, effect, instr_for, instr_at, fetched_instr, outcome_from};
ghost use Rattle.thumb_core.specs.Stores.{KeepsApart, stores_for, stores_of};
ghost use Rattle.thumb_isa.specs.declared.profile.Profile.TheVariants.{One};

use crate::access::{load_word, mem_imm, mem_reg, mem_sp};
use crate::alu::alu;
use crate::branch::{add_high, b, bl, blx, branch_if, bx, compare_branch, mov_high, svc};
use crate::data::{
    add_sub_imm, add_sub_reg, backward, cmp_high, extension_of, forward, imm8, reversal_of,
    shift_imm, top_of,
};
use crate::division::quotient;
use crate::lists::{ldm, pop, push, stm};
use crate::regs::{CoreTrap, Regs, SP, Stepped, are_words};
use eh_bus::bus::Bus;
use thumb_isa::decode::{decode_for, is_wide};
use thumb_isa::instr::{Decoded, Instr};
use thumb_isa::profile::Profile;

/// Executes the instruction at `regs.pc`, decoded by a profile (DDI 0419, DDI 0553).
///
/// If the first halfword begins a 32-bit encoding, the second is fetched, at pc + 2, before anything is decoded. So
/// traps come in this order: a fault of the first fetch; a fault of the second; an encoding that is no instruction; and
/// the instruction's own, which is a target with bit 0 clear or the first fault of its loads and stores.
#[inline(always)]
pub fn step_for<B: Bus>(profile: Profile, regs: &mut Regs, bus: &mut B) -> Stepped
    ensures effect { (result, regs.new, B.memory bus.new) ≡ step_for profile regs.old (B.memory bus.old) }

    // What follows from it for every instruction.
    ensures trap { OnTrap result ((regs.new ≡ regs.old) × (B.memory bus.new ≡ B.memory bus.old)) }
    ensures stands { PcStands result regs.new }
    ensures sound { AreSound regs.old.r regs.old.pc → AreSound regs.new.r regs.new.pc }
    ensures memory { KeepsMap (B.memory bus.old) (B.memory bus.new) }
    ensures apart { KeepsApart (stores_for profile (B.memory bus.old) regs.old) (B.memory bus.old) (B.memory bus.new) }
    ensures leaves { Leaves (instr_for profile (B.memory bus.old) regs.old.pc) result regs.old (B.memory bus.old) regs.new }
    ensures leaves_memory { LeavesMemory result (B.memory bus.old) (B.memory bus.new) }
{
    are_words(&regs.r);
    fetch_and_execute(profile, regs, bus)
}

/// Executes the instruction at `regs.pc`, decoded by the first profile.
#[inline(always)]
pub fn step<B: Bus>(regs: &mut Regs, bus: &mut B) -> Stepped
    ensures effect { (result, regs.new, B.memory bus.new) ≡ step_of regs.old (B.memory bus.old) }
    ensures trap { OnTrap result ((regs.new ≡ regs.old) × (B.memory bus.new ≡ B.memory bus.old)) }
    ensures stands { PcStands result regs.new }
    ensures sound { AreSound regs.old.r regs.old.pc → AreSound regs.new.r regs.new.pc }
    ensures memory { KeepsMap (B.memory bus.old) (B.memory bus.new) }
    ensures apart { KeepsApart (stores_for One (B.memory bus.old) regs.old) (B.memory bus.old) (B.memory bus.new) }
    ensures leaves { Leaves (instr_at (B.memory bus.old) regs.old.pc) result regs.old (B.memory bus.old) regs.new }
    ensures leaves_memory { LeavesMemory result (B.memory bus.old) (B.memory bus.new) }
{
    step_for(Profile::One, regs, bus)
}

/// Fetches, decodes and executes.
#[inline(always)]
fn fetch_and_execute<B: Bus>(profile: Profile, regs: &mut Regs, bus: &mut B) -> Stepped
    ensures { (result, regs.new, B.memory bus.new) ≡ step_for profile regs.old (B.memory bus.old) }
{
    match fetch_for(profile, regs, bus) {
        Ok((i, size)) => execute(i, size, regs, bus),
        Err(trap) => Stepped::Trap(trap),
    }
}

/// Fetches and decodes the instruction at `regs.pc` by a profile, and gives it with its size in bytes. Err with the
/// step's trap if there is no instruction. A step is `fetch_for` followed by `execute`.
#[inline(always)]
pub fn fetch_for<B: Bus>(profile: Profile, regs: &Regs, bus: &B) -> Result<(Instr, u32), CoreTrap>
    ensures there { instr_for profile (B.memory bus.now) regs.now.pc ≡ fetched_instr result }
    ensures range { IfOk result (λ at. InRange at.0) }
    ensures does { step_for profile regs.now (B.memory bus.now) ≡ outcome_from result regs.now (B.memory bus.now) }
{
    let first = match bus.fetch16(regs.pc) {
        Ok(half) => half,
        Err(fault) => return Err(CoreTrap::Memory(fault)),
    };
    let second = if is_wide(first) {
        match bus.fetch16(regs.pc.wrapping_add(2)) {
            Ok(half) => half,
            Err(fault) => return Err(CoreTrap::Memory(fault)),
        }
    } else {
        0
    };
    match decode_for(profile, first, second) {
        Decoded::Is(i, size) => Ok((i, size)),
        Decoded::Undefined => Err(CoreTrap::Undefined(u32::from(first))),
        Decoded::Unpredictable => Err(CoreTrap::Unpredictable(u32::from(first))),
        Decoded::NotInProfile => Err(CoreTrap::NotInProfile(u32::from(first))),
    }
}

/// Fetches and decodes by the first profile.
#[inline(always)]
pub fn fetch<B: Bus>(regs: &Regs, bus: &B) -> Result<(Instr, u32), CoreTrap>
    ensures there { instr_at (B.memory bus.now) regs.now.pc ≡ fetched_instr result }
    ensures range { IfOk result (λ at. InRange at.0) }
    ensures does { step_of regs.now (B.memory bus.now) ≡ outcome_from result regs.now (B.memory bus.now) }
{
    fetch_for(Profile::One, regs, bus)
}

/// Executes an instruction of `size` bytes at `regs.pc`.
#[inline(always)]
pub fn execute<B: Bus>(i: Instr, size: u32, regs: &mut Regs, bus: &mut B) -> Stepped
    requires { InRange i }
    ensures effect { (result, regs.new, B.memory bus.new) ≡ effect i size regs.old (B.memory bus.old) }
    ensures trap { OnTrap result ((regs.new ≡ regs.old) × (B.memory bus.new ≡ B.memory bus.old)) }
    ensures stands { PcStands result regs.new }
    ensures sound { AreSound regs.old.r regs.old.pc → AreSound regs.new.r regs.new.pc }
    ensures memory { KeepsMap (B.memory bus.old) (B.memory bus.new) }
    ensures apart { KeepsApart (stores_of i regs.old) (B.memory bus.old) (B.memory bus.new) }
    ensures leaves { Leaves (Some (i, size)) result regs.old (B.memory bus.old) regs.new }
    ensures leaves_memory { LeavesMemory result (B.memory bus.old) (B.memory bus.new) }
{
    are_words(&regs.r);
    execute_instr(i, size, regs, bus)
}

/// Dispatches on the instruction. After the arms of data instructions, pc advances.
#[inline(always)]
fn execute_instr<B: Bus>(i: Instr, size: u32, regs: &mut Regs, bus: &mut B) -> Stepped
    requires { InRange i }
    ensures { (result, regs.new, B.memory bus.new) ≡ effect i size regs.old (B.memory bus.old) }
{
    match i {
        Instr::ShiftImm { op, d, m, n } => shift_imm(op, d, m, n, regs),
        Instr::AddSubReg { sub, d, n, m } => add_sub_reg(sub, d, n, m, regs),
        Instr::AddSubImm3 { sub, d, n, imm } => add_sub_imm(sub, d, n, imm, regs),
        Instr::Imm8 { op, d, imm } => imm8(op, d, imm, regs),
        Instr::Alu { op, d, m } => alu(op, d, m, regs),
        Instr::CmpHigh { n, m } => cmp_high(n, m, regs),
        Instr::Adr { d, off } => regs.set_register(d, forward(regs.base(), off)),
        Instr::AddRdSp { d, off } => regs.set_register(d, regs.at(SP, off)),
        Instr::AddSp { off } => regs.set_register(SP, regs.at(SP, off)),
        Instr::SubSp { off } => regs.set_register(SP, backward(regs.reg(SP), off)),
        Instr::Extend { op, d, m } => regs.set_register(d, extension_of(op, regs.reg(m))),
        Instr::Rev { op, d, m } => regs.set_register(d, reversal_of(op, regs.reg(m))),
        Instr::Hint { .. } => {}
        Instr::Barrier { .. } => {}
        Instr::MovW { d, imm } => regs.set_register(d, imm),
        Instr::MovT { d, imm } => regs.set_register(d, top_of(imm, regs.reg(d))),
        Instr::Div { signed, d, n, m } => regs.set_register(
            d,
            quotient(signed, regs.reg(n), regs.reg(m)),
        ),
        Instr::AddHigh { d, m } => return add_high(d, m, size, regs),
        Instr::MovHigh { d, m } => return mov_high(d, m, size, regs),
        Instr::BCond { cond, off } => return branch_if(cond, off, size, regs),
        Instr::Cbz { nonzero, n, off } => return compare_branch(nonzero, n, off, size, regs),
        Instr::B { off } => return b(off, regs),
        Instr::BWide { off } => return b(off, regs),
        Instr::Bl { off } => return bl(off, size, regs),
        Instr::Blx { m } => return blx(m, size, regs),
        Instr::Bx { m } => return bx(m, regs),
        Instr::Svc { imm } => return svc(imm, size, regs),
        Instr::LdrLit { t, off } => {
            return load_word(t, forward(regs.base(), off), size, regs, bus);
        }
        Instr::MemReg { op, t, n, m } => return mem_reg(op, t, regs.sum(n, m), size, regs, bus),
        Instr::MemImm { op, t, n, off } => return mem_imm(op, t, regs.at(n, off), size, regs, bus),
        Instr::MemSp { load, t, off } => return mem_sp(load, t, regs.at(SP, off), size, regs, bus),
        Instr::Push { list } => return push(list, size, regs, bus),
        Instr::Pop { list } => return pop(list, size, regs, bus),
        Instr::Stm { n, list } => return stm(n, list, size, regs, bus),
        Instr::Ldm { n, list } => return ldm(n, list, size, regs, bus),
    }
    regs.advance(size);
    Stepped::Done
}
