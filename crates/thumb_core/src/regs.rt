//! The registers and flags, and the result of a step (docs/rules/instructions.md, "Registers" and "Answers").
ghost use Rattle.std.specs.Prelude.{◌≡◌, ℕ, ◌+◌, ◌%◌, ◌^◌, ◌<◌, slice_index};
ghost use Rattle.thumb_core.specs.Data.{forward};
ghost use Rattle.thumb_core.specs.Registers.{word_in, even, with_reg, with_pc, with_nz, with_flags, with_next, reg, pc_operand, operand, base};

use crate::arith::Sum;
use crate::data::forward;
use eh_bus::fault::BusFault;

/// The register number of sp.
pub const SP: u8 = 13;
/// The register number of lr.
pub const LR: u8 = 14;
/// The register number of pc.
pub const PC: u8 = 15;

/// The registers and flags. This crate only ever writes `pc` with bit 0 clear, and sp (`r[13]`) with bits 1 and 0
/// clear.
#[derive(Clone, Copy, PartialEq, Eq)]
pub struct Regs {
    /// r0 to r12, sp and lr.
    pub r: [u32; 15],
    /// The address of the next instruction, in bytes.
    pub pc: u32,
    /// The N flag (negative).
    pub n: bool,
    /// The Z flag (zero).
    pub z: bool,
    /// The C flag (carry).
    pub c: bool,
    /// The V flag (overflow).
    pub v: bool,
}

/// Every register value fits 32 bits. This call is for proofs and costs nothing.
pub fn are_words(r: &[u32])
    ensures { (k : ℕ) → slice_index r.now k < 2 ^ 32 }
{}

/// Why an instruction could not be executed.
#[derive(Clone, Copy)]
pub enum CoreTrap {
    /// The encoding is undefined; carries the first halfword.
    Undefined(u32),
    /// The manual calls the encoding unpredictable; carries the first halfword.
    Unpredictable(u32),
    /// A system instruction that this core doesn't have; carries the first halfword.
    NotInProfile(u32),
    /// A branch target with bit 0 clear, which would leave the Thumb state; carries the target.
    EvenTarget(u32),
    /// A fetch, load or store was refused.
    Memory(BusFault),
}

/// The result of a step.
#[derive(Clone, Copy)]
pub enum Stepped {
    /// The instruction was executed; it is none of the following.
    Done,
    /// A call: `target` is the new pc, with bit 0 clear; `ret` is the new lr, with bit 0 set.
    Call { target: u32, ret: u32 },
    /// A return: `to` has bit 0 set; the new pc is `to` with that bit clear.
    Return { to: u32 },
    /// An SVC with its number; the new pc is the next instruction.
    Gate(u8),
    /// Nothing was done: registers and memory are unchanged.
    Trap(CoreTrap),
}

/// The word that register `d` keeps: sp clears bits 1 and 0.
pub(crate) fn word_in(d: u8, x: u32) -> u32
    ensures { result ≡ word_in d x }
{
    if d == SP { x - x % 4 } else { x }
}

/// `x` with bit 0 clear.
pub(crate) fn even(x: u32) -> u32
    ensures { result ≡ even x }
{
    x - x % 2
}

impl Regs {
    /// Writes one of r0 to r14.
    pub(crate) fn set_register(&mut self, d: u8, x: u32)
        requires { d < 15 }
        ensures { self.new ≡ with_reg self.old d x }
    {
        self.r[d as usize] = word_in(d, x);
    }

    /// Writes a low register.
    pub(crate) fn put_low(&mut self, d: u8, x: u32)
        requires { d < 8 }
        ensures { self.new ≡ with_reg self.old d x }
    {
        self.r[d as usize] = x;
    }

    /// Sets pc.
    pub(crate) fn go_to(&mut self, x: u32)
        ensures { self.new ≡ with_pc self.old x }
    {
        self.pc = even(x);
    }

    /// Advances pc past an instruction of `size` bytes.
    pub(crate) fn advance(&mut self, size: u32)
        ensures { self.new ≡ with_next size self.old }
    {
        self.go_to(self.pc.wrapping_add(size));
    }

    /// Sets N and Z by a word.
    pub(crate) fn set_nz(&mut self, x: u32)
        ensures { self.new ≡ with_nz self.old x }
    {
        self.n = x >> 31 == 1;
        self.z = x == 0;
    }

    /// Sets all four flags by a sum.
    pub(crate) fn set_flags(&mut self, sum: Sum)
        ensures { self.new ≡ with_flags self.old sum }
    {
        self.set_nz(sum.value);
        self.c = sum.carry;
        self.v = sum.overflow;
    }

    /// Reads one of r0 to r14.
    pub(crate) fn reg(&self, k: u8) -> u32
        requires { k < 15 }
        ensures { result ≡ reg self.now k }
    {
        self.r[k as usize]
    }

    /// The address `off` bytes after the one in a register.
    pub(crate) fn at(&self, k: u8, off: i32) -> u32
        requires { k < 15 }
        ensures { result ≡ forward (reg self.now k) off }
    {
        forward(self.reg(k), off)
    }

    /// The sum of two registers, as an address.
    pub(crate) fn sum(&self, n: u8, m: u8) -> u32
        requires n_in { n < 15 }
        requires m_in { m < 15 }
        ensures { result ≡ (reg self.now n + reg self.now m) % 2 ^ 32 }
    {
        self.reg(n).wrapping_add(self.reg(m))
    }

    /// pc as an operand: the address of the instruction plus 4.
    pub(crate) fn pc_operand(&self) -> u32
        ensures { result ≡ pc_operand self.now }
    {
        self.pc.wrapping_add(4)
    }

    /// A register as an operand; pc is allowed.
    pub(crate) fn operand(&self, k: u8) -> u32
        requires { k < 16 }
        ensures { result ≡ operand self.now k }
    {
        if k == PC {
            self.pc_operand()
        } else {
            self.reg(k)
        }
    }

    /// pc as an operand, rounded down to a multiple of 4.
    pub(crate) fn base(&self) -> u32
        ensures { result ≡ base self.now }
    {
        let at = self.pc_operand();
        at - at % 4
    }
}
