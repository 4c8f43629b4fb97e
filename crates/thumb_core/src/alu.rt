//! The sixteen data processing operations on two low registers (docs/rules/instructions.md, "Data and flags").
ghost use Rattle.std.specs.Prelude.{◌≡◌, ◌<◌};
ghost use Rattle.thumb_core.specs.Alu.{logic, of_sum, of_shift, alu_of, alu, with_answer};

use crate::arith::{Sum, add, subtract};
use crate::regs::Regs;
use crate::shift::{self, rotation_of, shift_of};

// The operations of `Instr::Alu`; the numbers are the opcode field of their encoding (DDI 0419, data processing).
/// AND.
pub const AND: u8 = 0;

/// EOR.
pub const EOR: u8 = 1;

/// LSL.
pub const LSL: u8 = 2;

/// LSR.
pub const LSR: u8 = 3;

/// ASR.
pub const ASR: u8 = 4;

/// ADC.
pub const ADC: u8 = 5;

/// SBC.
pub const SBC: u8 = 6;

/// ROR.
pub const ROR: u8 = 7;

/// TST.
pub const TST: u8 = 8;

/// RSB.
pub const RSB: u8 = 9;

/// CMP.
pub const CMP: u8 = 10;

/// CMN.
pub const CMN: u8 = 11;

/// ORR.
pub const ORR: u8 = 12;

/// MUL.
pub const MUL: u8 = 13;

/// BIC.
pub const BIC: u8 = 14;

/// MVN.
pub const MVN: u8 = 15;

/// The result of an operation.
#[derive(Clone, Copy)]
pub struct Answer {
    /// The value; N and Z follow it.
    pub value: u32,
    /// Whether the value is written to the register.
    pub written: bool,
    /// The new C flag.
    pub carry: bool,
    /// The new V flag.
    pub overflow: bool,
}

/// Performs one of the sixteen operations on two low registers.
pub(crate) fn alu(op: u8, d: u8, m: u8, regs: &mut Regs)
    requires d_in { d < 8 }
    requires m_in { m < 8 }
    ensures { regs.new ≡ alu op d m regs.old }
{
    let answer = alu_of(op, regs.reg(d), regs.reg(m), regs);
    take_answer(answer, d, regs);
}

/// Writes the result of an operation to the register and the flags.
fn take_answer(answer: Answer, d: u8, regs: &mut Regs)
    requires d_in { d < 8 }
    ensures { regs.new ≡ with_answer answer d regs.old }
{
    if answer.written {
        regs.put_low(d, answer.value);
    }
    regs.set_nz(answer.value);
    regs.c = answer.carry;
    regs.v = answer.overflow;
}

/// The result of a logical operation, which keeps C and V.
fn logic(value: u32, written: bool, regs: &Regs) -> Answer
    ensures { result ≡ logic value written regs.now }
{
    Answer {
        value,
        written,
        carry: regs.c,
        overflow: regs.v,
    }
}

/// The result of a sum, which sets C and V.
fn of_sum(sum: Sum, written: bool) -> Answer
    ensures { result ≡ of_sum sum written }
{
    Answer {
        value: sum.value,
        written,
        carry: sum.carry,
        overflow: sum.overflow,
    }
}

/// The result of a shift, which sets C and keeps V.
fn of_shift(shift: (u32, bool), regs: &Regs) -> Answer
    ensures { result ≡ of_shift shift regs.now }
{
    let (value, carry) = shift;
    Answer {
        value,
        written: true,
        carry,
        overflow: regs.v,
    }
}

/// The result of an operation on two words. A shift amount is the lowest byte of the second.
fn alu_of(op: u8, x: u32, y: u32, regs: &Regs) -> Answer
    ensures { result ≡ alu_of op x y regs.now }
{
    match op {
        AND => logic(x & y, true, regs),
        EOR => logic(x ^ y, true, regs),
        LSL => of_shift(shift_of(shift::LSL, x, y % 256, regs.c), regs),
        LSR => of_shift(shift_of(shift::LSR, x, y % 256, regs.c), regs),
        ASR => of_shift(shift_of(shift::ASR, x, y % 256, regs.c), regs),
        ADC => of_sum(add(x, y, regs.c), true),
        SBC => of_sum(add(x, !y, regs.c), true),
        ROR => of_shift(rotation_of(x, y % 256, regs.c), regs),
        TST => logic(x & y, false, regs),
        RSB => of_sum(subtract(0, y), true),
        CMP => of_sum(subtract(x, y), false),
        CMN => of_sum(add(x, y, false), false),
        ORR => logic(x | y, true, regs),
        MUL => logic(x.wrapping_mul(y), true, regs),
        BIC => logic(x & !y, true, regs),
        _ => logic(!y, true, regs),
    }
}
