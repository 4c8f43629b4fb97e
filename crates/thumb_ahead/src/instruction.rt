//! What an instruction does to pc and sp, known before it is executed (DDI 0419).
ghost use Rattle.std.specs.Prelude.{◌≡◌, ◌%◌, ◌^◌};
ghost use Rattle.thumb_core.specs.Branch.{target_of};
ghost use Rattle.thumb_core.specs.Registers.{even};
ghost use Rattle.thumb_ahead.specs.Ahead.{IsAhead};

use crate::span::{count_of, reg};
use thumb_core::branch::{passes_condition, takes_branch};
use thumb_core::regs::{PC, Regs, SP};
use thumb_isa::instr::Instr;
use thumb_isa::plain;

/// The effect of an instruction on pc and sp.
#[derive(Clone, Copy)]
pub enum Ahead {
    /// Unless it traps, it falls through and keeps sp.
    FallThrough,
    /// Unless it traps, it falls through and lowers sp by the words that it pushes.
    Pushes {
        /// The number of words that it pushes.
        count: u32,
    },
    /// A taken branch that changes only pc.
    Jumps {
        /// The new pc.
        to: u32,
    },
    /// Any other instruction. It stores and pushes nothing.
    Other {
        /// Whether it branches and is neither a call nor a return.
        branches: bool,
    },
}

/// The target address of a branch.
fn target_of(off: i32, regs: &Regs) -> u32
    ensures { result ≡ even (target_of off regs.now % 2 ^ 32) }
{
    let target = regs.pc.wrapping_add(4).wrapping_add_signed(off);
    target - target % 2
}

/// Looks at an instruction before it is executed. Allocates nothing and takes constant time.
#[inline(always)]
pub fn look_ahead(i: Instr, regs: &Regs) -> Ahead
    ensures { IsAhead i regs.now result }
{
    match i {
        Instr::Push { list } => Ahead::Pushes {
            count: count_of(list),
        },
        Instr::B { off } => Ahead::Jumps {
            to: target_of(off, regs),
        },
        Instr::BWide { off } => Ahead::Jumps {
            to: target_of(off, regs),
        },
        Instr::BCond { cond, off } => {
            if passes_condition(cond, regs) {
                Ahead::Jumps {
                    to: target_of(off, regs),
                }
            } else {
                Ahead::FallThrough
            }
        }
        Instr::Cbz { nonzero, n, off } => {
            if takes_branch(nonzero, reg(regs, n)) {
                Ahead::Jumps {
                    to: target_of(off, regs),
                }
            } else {
                Ahead::FallThrough
            }
        }
        Instr::AddHigh { d, .. } | Instr::MovHigh { d, .. } => {
            if d == SP || d == PC {
                Ahead::Other { branches: d == PC }
            } else {
                Ahead::FallThrough
            }
        }
        Instr::AddSp { .. }
        | Instr::SubSp { .. }
        | Instr::Pop { .. }
        | Instr::Ldm { .. }
        | Instr::Bx { .. }
        | Instr::Blx { .. }
        | Instr::Bl { .. }
        | Instr::Svc { .. } => Ahead::Other { branches: false },
        plain!() | Instr::Stm { .. } => Ahead::FallThrough,
    }
}
