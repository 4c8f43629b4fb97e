//! The computations of instructions, by the operands in their text: an enum and a table for each kind of operands
//! (docs/rules/sources.md; Armv6-M Architecture Reference Manual, DDI 0419, and Armv8-M, DDI 0553).
ghost use Rattle.std.specs.Prelude.{◌≡◌};
ghost use Rattle.asm_statements.specs.Computations.{unsigned_field, offset, half, wide, compare, add_eight, add_three, of_two_registers, of_three_registers, of_register_number, of_two_registers_number};

use thumb_isa::instr::Instr;

/// Computations of `rd, rm`.
#[derive(Clone, Copy)]
pub enum OfTwoRegisters {
    /// `movs`
    MovsReg,
    /// `mov`
    Mov,
    /// `cmp` of low or high registers; the first is rn
    CmpReg,
    /// `add`
    AddReg,
    /// `ands` (0), `eors` (1), `lsls` (2), `lsrs` (3), `asrs` (4), `adcs` (5), `sbcs` (6), `rors` (7), `tst` (8), `cmn` (11),
    /// `orrs` (12), `muls` (13), `bics` (14) and `mvns` (15)
    Alu(u8),
    /// `sxth` (0), `sxtb` (1), `uxth` (2), `uxtb` (3)
    Extend(u8),
    /// `rev` (0), `rev16` (1), `revsh` (3)
    Rev(u8),
}

/// Computations of `rd, rn, rm`.
#[derive(Clone, Copy)]
pub enum OfThreeRegisters {
    /// `adds`, or `subs` if true
    AddSubReg(bool),
    /// `sdiv` if true, else `udiv`
    Div(bool),
}

/// Computations of `rd, #imm`.
#[derive(Clone, Copy)]
pub enum OfRegisterNumber {
    /// `movs`
    MovsImm,
    /// `cmp`; the register is rn
    CmpImm,
    /// `adds`, or `subs` if true
    AddSubTwo(bool),
    /// `movw`
    MovW,
    /// `movt`
    MovT,
}

/// Computations of `rd, rn, #imm`.
#[derive(Clone, Copy)]
pub enum OfTwoRegistersNumber {
    /// `adds`, or `subs` if true
    AddSubThree(bool),
    /// `lsls` (0), `lsrs` (1), `asrs` (2); the second register is rm, the number is the shift
    ShiftImm(u8),
}

/// An instruction with its size.
#[derive(Clone, Copy)]
pub struct SizedInstr {
    /// The size of its code in bytes, 2 or 4.
    pub bytes: u64,
    /// The instruction.
    pub instr: Instr,
}

/// A 16-bit instruction.
fn half(instr: Instr) -> SizedInstr
    ensures { result ≡ half instr }
{
    SizedInstr { bytes: 2, instr }
}

/// A 32-bit instruction.
fn wide(instr: Instr) -> SizedInstr
    ensures { result ≡ wide instr }
{
    SizedInstr { bytes: 4, instr }
}

/// A number as an unsigned field. A number that doesn't fit 32 bits becomes one too large for every field.
pub fn unsigned_field(n: i64) -> u32
    ensures { result ≡ unsigned_field n }
{
    u32::try_from(n).unwrap_or(u32::MAX)
}

/// A number as an offset field. A number that doesn't fit 32 bits becomes one too large for every field.
pub fn offset(n: i64) -> i32
    ensures { result ≡ offset n }
{
    i32::try_from(n).unwrap_or(i32::MAX)
}

/// The `cmp` of two registers: the form for low registers if both are low.
fn compare(n: u8, m: u8) -> Instr
    ensures { result ≡ compare n m }
{
    if n < 8 && m < 8 {
        Instr::Alu { op: 10, d: n, m }
    } else {
        Instr::CmpHigh { n, m }
    }
}

/// `adds` or `subs` with an 8-bit immediate.
fn add_eight(sub: bool, d: u8, imm: i64) -> Instr
    ensures { result ≡ add_eight sub d imm }
{
    Instr::Imm8 {
        op: if sub { 3 } else { 2 },
        d,
        imm: unsigned_field(imm),
    }
}

/// `adds` or `subs` of three operands: with a 3-bit immediate up to 7; above, with 8 bits if both registers are the
/// same.
fn add_three(sub: bool, d: u8, n: u8, imm: i64) -> Instr
    ensures { result ≡ add_three sub d n imm }
{
    if imm > 7 && d == n {
        add_eight(sub, d, imm)
    } else {
        Instr::AddSubImm3 {
            sub,
            d,
            n,
            imm: unsigned_field(imm),
        }
    }
}

/// The instruction of a computation of `rd, rm`.
pub fn of_two_registers(what: OfTwoRegisters, d: u8, m: u8) -> SizedInstr
    ensures { result ≡ of_two_registers what d m }
{
    match what {
        OfTwoRegisters::MovsReg => half(Instr::ShiftImm { op: 0, d, m, n: 0 }),
        OfTwoRegisters::Mov => half(Instr::MovHigh { d, m }),
        OfTwoRegisters::CmpReg => half(compare(d, m)),
        OfTwoRegisters::AddReg => half(Instr::AddHigh { d, m }),
        OfTwoRegisters::Alu(op) => half(Instr::Alu { op, d, m }),
        OfTwoRegisters::Extend(op) => half(Instr::Extend { op, d, m }),
        OfTwoRegisters::Rev(op) => half(Instr::Rev { op, d, m }),
    }
}

/// The instruction of a computation of `rd, rn, rm`.
pub fn of_three_registers(what: OfThreeRegisters, d: u8, n: u8, m: u8) -> SizedInstr
    ensures { result ≡ of_three_registers what d n m }
{
    match what {
        OfThreeRegisters::AddSubReg(sub) => half(Instr::AddSubReg { sub, d, n, m }),
        OfThreeRegisters::Div(signed) => wide(Instr::Div { signed, d, n, m }),
    }
}

/// The instruction of a computation of `rd, #imm`.
pub fn of_register_number(what: OfRegisterNumber, d: u8, n: i64) -> SizedInstr
    ensures { result ≡ of_register_number what d n }
{
    let imm = unsigned_field(n);
    match what {
        OfRegisterNumber::MovsImm => half(Instr::Imm8 { op: 0, d, imm }),
        OfRegisterNumber::CmpImm => half(Instr::Imm8 { op: 1, d, imm }),
        OfRegisterNumber::AddSubTwo(sub) => half(add_eight(sub, d, n)),
        OfRegisterNumber::MovW => wide(Instr::MovW { d, imm }),
        OfRegisterNumber::MovT => wide(Instr::MovT { d, imm }),
    }
}

/// The instruction of a computation of `rd, rn, #imm`.
pub fn of_two_registers_number(what: OfTwoRegistersNumber, d: u8, n: u8, imm: i64) -> SizedInstr
    ensures { result ≡ of_two_registers_number what d n imm }
{
    match what {
        OfTwoRegistersNumber::AddSubThree(sub) => half(add_three(sub, d, n, imm)),
        OfTwoRegistersNumber::ShiftImm(op) => half(Instr::ShiftImm {
            op,
            d,
            m: n,
            n: unsigned_field(imm),
        }),
    }
}
