//! Instructions that change only low registers, sp and the flags, besides pc (docs/rules/instructions.md, "Data and flags").
ghost use Rattle.std.specs.Prelude.{◌≡◌, ◌+◌, ◌*◌, ◌%◌, ◌^◌, ◌<◌};
ghost use Rattle.thumb_core.specs.Arith.{sum_or_difference, sign_extension};
ghost use Rattle.thumb_core.specs.Data.{forward, backward, with_value, with_sum, shift_imm, add_sub_reg, add_sub_imm, imm8, cmp_high, extension_of, half_reversal, reversal_of};

use crate::arith::{Sum, add, subtract};
use crate::regs::Regs;
use crate::shift::shift_of;

// The operations of `Instr::Imm8`.
/// MOV (immediate).
pub const MOV: u8 = 0;

/// CMP (immediate).
pub const CMP: u8 = 1;

/// ADD (immediate).
pub const ADD: u8 = 2;

/// SUB (immediate).
pub const SUB: u8 = 3;

// The operations of `Instr::Extend`.
/// SXTH.
pub const SXTH: u8 = 0;

/// SXTB.
pub const SXTB: u8 = 1;

/// UXTH.
pub const UXTH: u8 = 2;

/// UXTB.
pub const UXTB: u8 = 3;

// The operations of `Instr::Rev`.
/// REV.
pub const REV: u8 = 0;

/// REV16.
pub const REV16: u8 = 1;

/// REVSH.
pub const REVSH: u8 = 3;

/// The address `off` bytes after `a`, modulo 2^32.
pub(crate) fn forward(a: u32, off: i32) -> u32
    ensures { result ≡ forward a off }
{
    a.wrapping_add_signed(off)
}

/// The address `off` bytes before `a`, modulo 2^32.
pub(crate) fn backward(a: u32, off: i32) -> u32
    ensures { result ≡ backward a off }
{
    a.wrapping_sub(off.cast_unsigned())
}

/// Writes a value to a register, and N and Z.
fn set_value(d: u8, x: u32, regs: &mut Regs)
    requires { d < 8 }
    ensures { regs.new ≡ with_value d x regs.old }
{
    regs.put_low(d, x);
    regs.set_nz(x);
}

/// Writes a sum to a register, and all four flags.
fn set_sum(d: u8, sum: Sum, regs: &mut Regs)
    requires { d < 8 }
    ensures { regs.new ≡ with_sum d sum regs.old }
{
    regs.put_low(d, sum.value);
    regs.set_flags(sum);
}

/// The difference if `sub`, else the sum.
fn sum_or_difference(sub: bool, x: u32, y: u32) -> Sum
    ensures { result ≡ sum_or_difference sub x y }
{
    if sub {
        subtract(x, y)
    } else {
        add(x, y, false)
    }
}

/// LSL, LSR or ASR by an immediate amount.
pub(crate) fn shift_imm(op: u8, d: u8, m: u8, n: u32, regs: &mut Regs)
    requires d_in { d < 8 }
    requires m_in { m < 8 }
    ensures { regs.new ≡ shift_imm op d m n regs.old }
{
    let (value, carry) = shift_of(op, regs.reg(m), n, regs.c);
    set_value(d, value, regs);
    regs.c = carry;
}

/// ADD or SUB of two registers.
pub(crate) fn add_sub_reg(sub: bool, d: u8, n: u8, m: u8, regs: &mut Regs)
    requires d_in { d < 8 }
    requires n_in { n < 8 }
    requires m_in { m < 8 }
    ensures { regs.new ≡ add_sub_reg sub d n m regs.old }
{
    let sum = sum_or_difference(sub, regs.reg(n), regs.reg(m));
    set_sum(d, sum, regs);
}

/// ADD or SUB of a small immediate.
pub(crate) fn add_sub_imm(sub: bool, d: u8, n: u8, imm: u32, regs: &mut Regs)
    requires d_in { d < 8 }
    requires n_in { n < 8 }
    ensures { regs.new ≡ add_sub_imm sub d n imm regs.old }
{
    let sum = sum_or_difference(sub, regs.reg(n), imm);
    set_sum(d, sum, regs);
}

/// MOV, CMP, ADD or SUB of an 8-bit immediate.
pub(crate) fn imm8(op: u8, d: u8, imm: u32, regs: &mut Regs)
    requires { d < 8 }
    ensures { regs.new ≡ imm8 op d imm regs.old }
{
    let x = regs.reg(d);
    match op {
        MOV => set_value(d, imm, regs),
        CMP => regs.set_flags(sum_or_difference(true, x, imm)),
        ADD => set_sum(d, sum_or_difference(false, x, imm), regs),
        _ => set_sum(d, sum_or_difference(true, x, imm), regs),
    }
}

/// CMP of two registers, at least one of them high.
pub(crate) fn cmp_high(n: u8, m: u8, regs: &mut Regs)
    requires n_in { n < 16 }
    requires m_in { m < 16 }
    ensures { regs.new ≡ cmp_high n m regs.old }
{
    let difference = sum_or_difference(true, regs.operand(n), regs.operand(m));
    regs.set_flags(difference);
}

/// The lowest byte, extended by its sign.
pub(crate) fn signed_byte(x: u32) -> u32
    ensures { result ≡ sign_extension 8 x }
{
    let low = x % 0x100;
    if low < 0x80 { low } else { low + 0xffff_ff00 }
}

/// The lowest halfword, extended by its sign.
pub(crate) fn signed_half(x: u32) -> u32
    ensures { result ≡ sign_extension 16 x }
{
    let low = x % 0x1_0000;
    if low < 0x8000 { low } else { low + 0xffff_0000 }
}

/// The result of SXTH, SXTB, UXTH or UXTB.
pub(crate) fn extension_of(op: u8, x: u32) -> u32
    ensures { result ≡ extension_of op x }
{
    match op {
        SXTH => signed_half(x),
        SXTB => signed_byte(x),
        UXTH => x % 0x1_0000,
        _ => x % 0x100,
    }
}

/// The two lowest bytes, swapped.
fn half_reversal(x: u32) -> u32
    ensures value { result ≡ half_reversal x }
    ensures low { result < 0x10000 }
{
    x / 0x100 % 0x100 + x % 0x100 * 0x100
}

/// The result of REV, REV16 or REVSH.
pub(crate) fn reversal_of(op: u8, x: u32) -> u32
    ensures { result ≡ reversal_of op x }
{
    match op {
        REV => half_reversal(x / 0x1_0000) + half_reversal(x) * 0x1_0000,
        REV16 => half_reversal(x) + half_reversal(x / 0x1_0000) * 0x1_0000,
        _ => signed_half(half_reversal(x)),
    }
}

/// The word with upper half `imm` and the lower half of `x`.
pub(crate) fn top_of(imm: u32, x: u32) -> u32
    requires { imm < 2 ^ 16 }
    ensures { result ≡ imm * 2 ^ 16 + x % 2 ^ 16 }
{
    imm * 0x1_0000 + x % 0x1_0000
}
