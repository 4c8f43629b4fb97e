//! The bytes that an instruction may store to (docs/rules/instructions.md).
ghost use Rattle.std.specs.Prelude.{◌≡◌, ◌+◌, ◌≤◌, length};
ghost use Rattle.thumb_core.specs.Words.{registers_of_list};
ghost use Rattle.thumb_core.specs.Registers.{reg};
ghost use Rattle.thumb_core.specs.Stores.{reg_span, imm_span, stores_of};
ghost use Rattle.thumb_ahead.specs.UndoRecord.{span_of_range};

use thumb_core::access::{STR_IMM, STR_REG, STRB_IMM, STRB_REG, STRH_IMM, STRH_REG};
use thumb_core::regs::{Regs, SP};
use thumb_isa::instr::Instr;

/// The number of registers in a list.
#[tactic(auto, using(crate::proofs::Counted::listed_count))]
pub(crate) fn count_of(list: u16) -> u32
    ensures count { result ≡ length (registers_of_list list) }
    ensures within { result ≤ 16 }
{
    list.count_ones()
}

/// Reads one of r0 to r14.
pub(crate) fn reg(regs: &Regs, k: u8) -> u32
    ensures { result ≡ reg regs.now k }
{
    match regs.r.get(k as usize) {
        Some(word) => *word,
        None => 0,
    }
}

/// The bytes that a store with a register offset writes: address and count. None for a load.
fn reg_span(op: u8, at: u32) -> Option<(u32, u32)>
    ensures { span_of_range result ≡ reg_span op at }
{
    match op {
        STR_REG => Some((at, 4)),
        STRH_REG => Some((at, 2)),
        STRB_REG => Some((at, 1)),
        _ => None,
    }
}

/// The bytes that a store with an immediate offset writes: address and count. None for a load.
fn imm_span(op: u8, at: u32) -> Option<(u32, u32)>
    ensures { span_of_range result ≡ imm_span op at }
{
    match op {
        STR_IMM => Some((at, 4)),
        STRB_IMM => Some((at, 1)),
        STRH_IMM => Some((at, 2)),
        _ => None,
    }
}

/// The bytes that an instruction stores to unless it traps: the address of the first, and their number. None if it
/// stores nothing.
pub(crate) fn span_of(i: Instr, regs: &Regs) -> Option<(u32, u32)>
    ensures { span_of_range result ≡ stores_of i regs.now }
{
    match i {
        Instr::MemReg { op, n, m, .. } => reg_span(op, reg(regs, n).wrapping_add(reg(regs, m))),
        Instr::MemImm { op, n, off, .. } => imm_span(op, reg(regs, n).wrapping_add_signed(off)),
        Instr::MemSp { load, off, .. } => {
            if load {
                None
            } else {
                Some((reg(regs, SP).wrapping_add_signed(off), 4))
            }
        }
        Instr::Push { list } => {
            let bytes = 4 * count_of(list);
            Some((reg(regs, SP).wrapping_sub(bytes), bytes))
        }
        Instr::Stm { n, list } => Some((reg(regs, n), 4 * count_of(list))),
        _ => None,
    }
}
