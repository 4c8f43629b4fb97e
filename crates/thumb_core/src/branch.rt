//! Branches, calls, returns, and instructions that may write pc (docs/rules/instructions.md, "Branches and calls").
ghost use Rattle.std.specs.Prelude.{◌≡◌, ◌<◌};
ghost use Rattle.thumb_core.specs.Outcome.{done_with};
ghost use Rattle.thumb_core.specs.Branch.{passes_condition, takes_branch, target_of, branch, branch_if, compare_branch, write_high, add_high, mov_high, call_to, bl, blx, bx, svc};

use crate::data::forward;
use crate::regs::{CoreTrap, LR, PC, Regs, Stepped, even};

// The conditions of `Instr::BCond` (DDI 0419, the table of condition codes).
/// Equal: Z is set.
pub const EQ: u8 = 0;

/// Not equal: Z is clear.
pub const NE: u8 = 1;

/// Carry set, unsigned higher or same.
pub const CS: u8 = 2;

/// Carry clear, unsigned lower.
pub const CC: u8 = 3;

/// Minus: N is set.
pub const MI: u8 = 4;

/// Plus: N is clear.
pub const PL: u8 = 5;

/// Overflow: V is set.
pub const VS: u8 = 6;

/// No overflow: V is clear.
pub const VC: u8 = 7;

/// Unsigned higher.
pub const HI: u8 = 8;

/// Unsigned lower or same.
pub const LS: u8 = 9;

/// Signed greater or equal.
pub const GE: u8 = 10;

/// Signed less.
pub const LT: u8 = 11;

/// Signed greater.
pub const GT: u8 = 12;

/// Signed less or equal.
pub const LE: u8 = 13;

/// Whether a condition holds.
pub fn passes_condition(cond: u8, regs: &Regs) -> bool
    ensures { result ≡ passes_condition cond regs.now }
{
    match cond {
        EQ => regs.z,
        NE => !regs.z,
        CS => regs.c,
        CC => !regs.c,
        MI => regs.n,
        PL => !regs.n,
        VS => regs.v,
        VC => !regs.v,
        HI => regs.c && !regs.z,
        LS => !regs.c || regs.z,
        GE => regs.n == regs.v,
        LT => regs.n != regs.v,
        GT => !regs.z && regs.n == regs.v,
        _ => regs.z || regs.n != regs.v,
    }
}

/// The target address of a branch.
fn target_of(off: i32, regs: &Regs) -> u32
    ensures { result ≡ target_of off regs.now }
{
    forward(regs.pc_operand(), off)
}

/// Takes a branch.
fn branch(off: i32, regs: &mut Regs)
    ensures { regs.new ≡ branch off regs.old }
{
    let target = target_of(off, regs);
    regs.go_to(target);
}

/// B, of either width.
pub(crate) fn b(off: i32, regs: &mut Regs) -> Stepped
    ensures { (result, regs.new) ≡ done_with (branch off regs.old) }
{
    branch(off, regs);
    Stepped::Done
}

/// A conditional branch.
pub(crate) fn branch_if(cond: u8, off: i32, size: u32, regs: &mut Regs) -> Stepped
    ensures { (result, regs.new) ≡ done_with (branch_if cond off size regs.old) }
{
    if passes_condition(cond, regs) {
        branch(off, regs);
    } else {
        regs.advance(size);
    }
    Stepped::Done
}

/// Whether CBNZ (if `nonzero`) or CBZ (if not) takes its branch on this register value.
pub fn takes_branch(nonzero: bool, value: u32) -> bool
    ensures { result ≡ takes_branch nonzero value }
{
    if nonzero { value != 0 } else { value == 0 }
}

/// CBZ or CBNZ.
pub(crate) fn compare_branch(nonzero: bool, n: u8, off: i32, size: u32, regs: &mut Regs) -> Stepped
    requires { n < 15 }
    ensures { (result, regs.new) ≡ done_with (compare_branch nonzero n off size regs.old) }
{
    if takes_branch(nonzero, regs.reg(n)) {
        branch(off, regs);
    } else {
        regs.advance(size);
    }
    Stepped::Done
}

/// Writes a register, low or high; writing pc branches.
fn write_high(d: u8, x: u32, size: u32, regs: &mut Regs) -> Stepped
    requires { d < 16 }
    ensures { (result, regs.new) ≡ done_with (write_high d x size regs.old) }
{
    if d == PC {
        regs.go_to(x);
    } else {
        regs.set_register(d, x);
        regs.advance(size);
    }
    Stepped::Done
}

/// ADD of two registers, low or high.
pub(crate) fn add_high(d: u8, m: u8, size: u32, regs: &mut Regs) -> Stepped
    requires d_in { d < 16 }
    requires m_in { m < 16 }
    ensures { (result, regs.new) ≡ done_with (add_high d m size regs.old) }
{
    let sum = regs.operand(d).wrapping_add(regs.operand(m));
    write_high(d, sum, size, regs)
}

/// MOV of two registers, low or high.
pub(crate) fn mov_high(d: u8, m: u8, size: u32, regs: &mut Regs) -> Stepped
    requires d_in { d < 16 }
    requires m_in { m < 16 }
    ensures { (result, regs.new) ≡ done_with (mov_high d m size regs.old) }
{
    let value = regs.operand(m);
    write_high(d, value, size, regs)
}

/// A call: sets lr to the next instruction's address with bit 0 set.
fn call_to(target: u32, size: u32, regs: &mut Regs) -> Stepped
    ensures { (result, regs.new) ≡ call_to target size regs.old }
{
    let ret = even(regs.pc.wrapping_add(size)) + 1;
    regs.set_register(LR, ret);
    regs.go_to(target);
    Stepped::Call {
        target: even(target),
        ret,
    }
}

/// BL.
pub(crate) fn bl(off: i32, size: u32, regs: &mut Regs) -> Stepped
    ensures { (result, regs.new) ≡ bl off size regs.old }
{
    let target = target_of(off, regs);
    call_to(target, size, regs)
}

/// BLX.
pub(crate) fn blx(m: u8, size: u32, regs: &mut Regs) -> Stepped
    requires { m < 16 }
    ensures { (result, regs.new) ≡ blx m size regs.old }
{
    let target = regs.operand(m);
    if target % 2 == 0 {
        return Stepped::Trap(CoreTrap::EvenTarget(target));
    }
    call_to(target, size, regs)
}

/// BX.
pub(crate) fn bx(m: u8, regs: &mut Regs) -> Stepped
    requires { m < 16 }
    ensures { (result, regs.new) ≡ bx m regs.old }
{
    let target = regs.operand(m);
    if target % 2 == 0 {
        return Stepped::Trap(CoreTrap::EvenTarget(target));
    }
    regs.go_to(target);
    Stepped::Return { to: target }
}

/// SVC.
pub(crate) fn svc(number: u32, size: u32, regs: &mut Regs) -> Stepped
    requires { number < 256 }
    ensures { (result, regs.new) ≡ svc number size regs.old }
{
    regs.advance(size);
    Stepped::Gate(number as u8)
}
