//! Decodes halfwords into instructions, by the rows of specs/Rows.antt, split by the top five bits
//! (docs/rules/instructions.md).
ghost use Rattle.std.specs.Prelude.{◌≡◌, ◌+◌, ◌*◌, ◌%◌, ◌^◌, ◌<◌, ◌≤◌, nat_le, ℕ};
ghost use Rattle.thumb_isa.specs.Range.{IsInRange, IsBranch, IsOfSize, size_of};
ghost use Rattle.thumb_isa.specs.Rows.{decode_result, decode_result_for, bl_offset};

use crate::fields::{field, field_8, sign_extend};
use crate::instr::{Decoded, Instr};
use crate::late::decode_late;
use crate::profile::Profile;

/// Whether an instruction with this first halfword has a second one: the top five bits are 11101, 11110 or 11111.
pub fn is_wide(first: u16) -> bool
    ensures { result ≡ nat_le 0xe800 first }
{
    first >> 11 >= 0b11101
}

/// Decodes a pair of halfwords by the first profile's table. The second halfword matters only if `is_wide` holds of the
/// first.
#[inline(always)]
#[tactic(auto, using(crate::proofs::Table::others, crate::proofs::Laws::alone, crate::proofs::Laws::sized))]
pub fn decode(first: u16, second: u16) -> Decoded
    ensures row { result ≡ decode_result first second }
    ensures range { IsInRange result }
    ensures size { IsOfSize (size_of first) result }
    ensures alone { first < 0xe800 → (other : ℕ) → result ≡ decode_result first other }
{
    match first >> 11 {
        0b00000..=0b00010 => shift_imm(first, second),
        0b00011 => add_subtract(first, second),
        0b00100..=0b00111 => Decoded::Is(
            Instr::Imm8 {
                op: field_8(first, 11, 2),
                d: field_8(first, 8, 3),
                imm: u32::from(field(first, 0, 8)),
            },
            2,
        ),
        0b01000 => registers(first, second),
        0b01001..=0b10011 => transfer(first, second),
        0b10100 => Decoded::Is(
            Instr::Adr {
                d: field_8(first, 8, 3),
                off: i32::from(field(first, 0, 8) * 4),
            },
            2,
        ),
        0b10101 => Decoded::Is(
            Instr::AddRdSp {
                d: field_8(first, 8, 3),
                off: i32::from(field(first, 0, 8) * 4),
            },
            2,
        ),
        0b10110 | 0b10111 => miscellaneous(first, second),
        0b11000 | 0b11001 => multiple(first, second),
        0b11010 | 0b11011 => conditional(first, second),
        0b11100 => Decoded::Is(
            Instr::B {
                off: sign_extend(u32::from(field(first, 0, 11)) * 2, 0x800),
            },
            2,
        ),
        0b11110 => long(first, second),
        _ => Decoded::Undefined,
    }
}

/// Decodes a pair of halfwords by a profile. The second profile's own rows are tried only if the first profile leaves
/// the pair undefined.
#[inline(always)]
#[tactic(auto, using(crate::proofs::BothProfiles::kept, crate::proofs::BothProfiles::added, crate::proofs::BothProfiles::alone_for, crate::proofs::BothProfiles::sized_for))]
pub fn decode_for(p: Profile, first: u16, second: u16) -> Decoded
    ensures row { result ≡ decode_result_for p first second }
    ensures range { IsInRange result }
    ensures size { IsOfSize (size_of first) result }
    ensures alone { first < 0xe800 → (other : ℕ) → result ≡ decode_result_for p first other }
{
    match decode(first, second) {
        Decoded::Undefined => match p {
            Profile::One => Decoded::Undefined,
            Profile::Two => decode_late(first, second),
        },
        decoded => decoded,
    }
}

/// LSL, LSR or ASR (immediate).
#[tactic(auto, using(crate::proofs::Table::shifts))]
fn shift_imm(first: u16, second: u16) -> Decoded
    requires { first < 0x1800 }
    ensures row { result ≡ decode_result first second }
    ensures range { IsInRange result }
{
    let op = field_8(first, 11, 2);
    let n = match field(first, 6, 5) {
        0 if op != 0 => 32,
        n => u32::from(n),
    };
    Decoded::Is(
        Instr::ShiftImm {
            op,
            d: field_8(first, 0, 3),
            m: field_8(first, 3, 3),
            n,
        },
        2,
    )
}

/// ADD or SUB (register), or with a 3-bit immediate.
#[tactic(auto, using(crate::proofs::Table::sums))]
fn add_subtract(first: u16, second: u16) -> Decoded
    requires low { 0x1800 ≤ first }
    requires high { first < 0x2000 }
    ensures row { result ≡ decode_result first second }
    ensures range { IsInRange result }
{
    let sub = field(first, 9, 1) == 1;
    let d = field_8(first, 0, 3);
    let n = field_8(first, 3, 3);
    let third = field_8(first, 6, 3);
    if first < 0x1c00 {
        Decoded::Is(
            Instr::AddSubReg {
                sub,
                d,
                n,
                m: third,
            },
            2,
        )
    } else {
        Decoded::Is(
            Instr::AddSubImm3 {
                sub,
                d,
                n,
                imm: u32::from(third),
            },
            2,
        )
    }
}

/// Data processing of registers, BX and BLX.
#[tactic(auto, using(crate::proofs::Table::of_registers))]
fn registers(first: u16, second: u16) -> Decoded
    requires low { 0x4000 ≤ first }
    requires high { first < 0x4800 }
    ensures row { result ≡ decode_result first second }
    ensures range { IsInRange result }
{
    let high = field_8(first, 7, 1) * 8 + field_8(first, 0, 3);
    let m = field_8(first, 3, 4);
    match first >> 8 {
        0x40..=0x43 => Decoded::Is(
            Instr::Alu {
                op: field_8(first, 6, 4),
                d: field_8(first, 0, 3),
                m: field_8(first, 3, 3),
            },
            2,
        ),
        0x44 if high == 15 && m == 15 => Decoded::Unpredictable,
        0x44 => Decoded::Is(Instr::AddHigh { d: high, m }, 2),
        0x45 if high < 8 && m < 8 || high == 15 || m == 15 => Decoded::Unpredictable,
        0x45 => Decoded::Is(Instr::CmpHigh { n: high, m }, 2),
        0x46 => Decoded::Is(Instr::MovHigh { d: high, m }, 2),
        _ => branch_exchange(first, second),
    }
}

/// BX or BLX (register).
#[tactic(auto, using(crate::proofs::Table::exchanges))]
fn branch_exchange(first: u16, second: u16) -> Decoded
    requires low { 0x4700 ≤ first }
    requires high { first < 0x4800 }
    ensures row { result ≡ decode_result first second }
    ensures range { IsInRange result }
{
    let m = field_8(first, 3, 4);
    if m == 15 || field(first, 0, 3) != 0 {
        Decoded::Unpredictable
    } else if first < 0x4780 {
        Decoded::Is(Instr::Bx { m }, 2)
    } else {
        Decoded::Is(Instr::Blx { m }, 2)
    }
}

/// Loads and stores of a single register.
#[tactic(auto, using(crate::proofs::Table::transfers))]
fn transfer(first: u16, second: u16) -> Decoded
    requires low { 0x4800 ≤ first }
    requires high { first < 0xa000 }
    ensures row { result ≡ decode_result first second }
    ensures range { IsInRange result }
{
    match first >> 12 {
        0x4 => Decoded::Is(
            Instr::LdrLit {
                t: field_8(first, 8, 3),
                off: i32::from(field(first, 0, 8) * 4),
            },
            2,
        ),
        0x5 => Decoded::Is(
            Instr::MemReg {
                op: field_8(first, 9, 3),
                t: field_8(first, 0, 3),
                n: field_8(first, 3, 3),
                m: field_8(first, 6, 3),
            },
            2,
        ),
        0x6..=0x8 => transfer_imm(first, second),
        _ => Decoded::Is(
            Instr::MemSp {
                load: field(first, 11, 1) == 1,
                t: field_8(first, 8, 3),
                off: i32::from(field(first, 0, 8) * 4),
            },
            2,
        ),
    }
}

/// Loads and stores with a 5-bit immediate offset, scaled by the access size.
#[tactic(auto, using(crate::proofs::Table::transfers_imm))]
fn transfer_imm(first: u16, second: u16) -> Decoded
    requires low { 0x6000 ≤ first }
    requires high { first < 0x9000 }
    ensures row { result ≡ decode_result first second }
    ensures range { IsInRange result }
{
    match first >> 12 {
        0x6 => Decoded::Is(
            Instr::MemImm {
                op: field_8(first, 11, 1),
                t: field_8(first, 0, 3),
                n: field_8(first, 3, 3),
                off: i32::from(field(first, 6, 5) * 4),
            },
            2,
        ),
        0x7 => Decoded::Is(
            Instr::MemImm {
                op: 2 + field_8(first, 11, 1),
                t: field_8(first, 0, 3),
                n: field_8(first, 3, 3),
                off: i32::from(field(first, 6, 5)),
            },
            2,
        ),
        _ => Decoded::Is(
            Instr::MemImm {
                op: 4 + field_8(first, 11, 1),
                t: field_8(first, 0, 3),
                n: field_8(first, 3, 3),
                off: i32::from(field(first, 6, 5) * 2),
            },
            2,
        ),
    }
}

/// Miscellaneous 16-bit instructions.
#[tactic(auto, using(crate::proofs::Table::miscellany))]
fn miscellaneous(first: u16, second: u16) -> Decoded
    requires low { 0xb000 ≤ first }
    requires high { first < 0xc000 }
    ensures row { result ≡ decode_result first second }
    ensures range { IsInRange result }
{
    match first >> 8 {
        0xb0 => adjust_sp(first, second),
        0xb2 => Decoded::Is(
            Instr::Extend {
                op: field_8(first, 6, 2),
                d: field_8(first, 0, 3),
                m: field_8(first, 3, 3),
            },
            2,
        ),
        0xb4 | 0xb5 => push(first, second),
        0xb6 if field(first, 5, 3) == 0b011 => Decoded::NotInProfile,
        0xba => reverse(first, second),
        0xbc | 0xbd => pop(first, second),
        0xbe => Decoded::NotInProfile,
        0xbf if field(first, 0, 4) == 0 => Decoded::Is(
            Instr::Hint {
                n: field_8(first, 4, 4),
            },
            2,
        ),
        _ => Decoded::Undefined,
    }
}

/// ADD or SUB of an immediate to sp.
#[tactic(auto, using(crate::proofs::Table::sp_sums))]
fn adjust_sp(first: u16, second: u16) -> Decoded
    requires low { 0xb000 ≤ first }
    requires high { first < 0xb100 }
    ensures row { result ≡ decode_result first second }
    ensures range { IsInRange result }
{
    let off = i32::from(field(first, 0, 7) * 4);
    if first < 0xb080 {
        Decoded::Is(Instr::AddSp { off }, 2)
    } else {
        Decoded::Is(Instr::SubSp { off }, 2)
    }
}

/// REV, REV16 or REVSH.
#[tactic(auto, using(crate::proofs::Table::reversals))]
fn reverse(first: u16, second: u16) -> Decoded
    requires low { 0xba00 ≤ first }
    requires high { first < 0xbb00 }
    ensures row { result ≡ decode_result first second }
    ensures range { IsInRange result }
{
    let d = field_8(first, 0, 3);
    let m = field_8(first, 3, 3);
    match field_8(first, 6, 2) {
        2 => Decoded::Undefined,
        op => Decoded::Is(Instr::Rev { op, d, m }, 2),
    }
}

/// PUSH.
#[tactic(auto, using(crate::proofs::Table::pushes))]
fn push(first: u16, second: u16) -> Decoded
    requires low { 0xb400 ≤ first }
    requires high { first < 0xb600 }
    ensures row { result ≡ decode_result first second }
    ensures range { IsInRange result }
{
    if first == 0xb400 {
        return Decoded::Unpredictable;
    }
    Decoded::Is(
        Instr::Push {
            list: field(first, 0, 8) + (field(first, 8, 1) << 14),
        },
        2,
    )
}

/// POP.
#[tactic(auto, using(crate::proofs::Table::pops))]
fn pop(first: u16, second: u16) -> Decoded
    requires low { 0xbc00 ≤ first }
    requires high { first < 0xbe00 }
    ensures row { result ≡ decode_result first second }
    ensures range { IsInRange result }
{
    if first == 0xbc00 {
        return Decoded::Unpredictable;
    }
    Decoded::Is(
        Instr::Pop {
            list: field(first, 0, 8) + (field(first, 8, 1) << 15),
        },
        2,
    )
}

/// STM or LDM.
#[tactic(auto, using(crate::proofs::Table::lists))]
fn multiple(first: u16, second: u16) -> Decoded
    requires low { 0xc000 ≤ first }
    requires high { first < 0xd000 }
    ensures row { result ≡ decode_result first second }
    ensures range { IsInRange result }
{
    let n = field_8(first, 8, 3);
    let list = field(first, 0, 8);
    if list == 0 {
        return Decoded::Unpredictable;
    }
    if first < 0xc800 {
        store_multiple(first, second)
    } else {
        Decoded::Is(Instr::Ldm { n, list }, 2)
    }
}

/// STM. The base may be in the list only as its lowest register.
#[tactic(auto, using(crate::proofs::Table::stores))]
fn store_multiple(first: u16, second: u16) -> Decoded
    requires low { 0xc000 ≤ first }
    requires high { first < 0xc800 }
    requires some { 0 < first % 2 ^ 8 }
    ensures row { result ≡ decode_result first second }
    ensures range { IsInRange result }
{
    let n = field_8(first, 8, 3);
    let base = u32::from(n);
    if field(first, base, 1) == 1 && field(first, 0, base) != 0 {
        Decoded::Unpredictable
    } else {
        Decoded::Is(
            Instr::Stm {
                n,
                list: field(first, 0, 8),
            },
            2,
        )
    }
}

/// B with a condition, UDF or SVC.
#[tactic(auto, using(crate::proofs::Table::conditions))]
fn conditional(first: u16, second: u16) -> Decoded
    requires low { 0xd000 ≤ first }
    requires high { first < 0xe000 }
    ensures row { result ≡ decode_result first second }
    ensures range { IsInRange result }
{
    match field_8(first, 8, 4) {
        14 => Decoded::Undefined,
        15 => Decoded::Is(
            Instr::Svc {
                imm: u32::from(field(first, 0, 8)),
            },
            2,
        ),
        cond => Decoded::Is(
            Instr::BCond {
                cond,
                off: sign_extend(u32::from(field(first, 0, 8)) * 2, 0x100),
            },
            2,
        ),
    }
}

/// Pairs whose first halfword begins with 11110.
#[tactic(auto, using(crate::proofs::Table::pairs))]
fn long(first: u16, second: u16) -> Decoded
    requires low { 0xf000 ≤ first }
    requires high { first < 0xf800 }
    ensures row { result ≡ decode_result first second }
    ensures range { IsInRange result }
{
    match (first, second) {
        (_, 0xd000..=0xdfff | 0xf000..=0xffff) => Decoded::Is(
            Instr::Bl {
                off: branch_offset(first, second),
            },
            4,
        ),
        (0xf380..=0xf38f, 0x8800..=0x88ff) | (0xf3ef, 0x8000..=0x8fff) => Decoded::NotInProfile,
        (0xf3bf, 0x8f40..=0x8f4f) => Decoded::Is(
            Instr::Barrier {
                op: 0,
                option: field_8(second, 0, 4),
            },
            4,
        ),
        (0xf3bf, 0x8f50..=0x8f5f) => Decoded::Is(
            Instr::Barrier {
                op: 1,
                option: field_8(second, 0, 4),
            },
            4,
        ),
        (0xf3bf, 0x8f60..=0x8f6f) => Decoded::Is(
            Instr::Barrier {
                op: 2,
                option: field_8(second, 0, 4),
            },
            4,
        ),
        _ => Decoded::Undefined,
    }
}

/// The offset in bytes of a BL or of a 32-bit B: S:I1:I2:imm10:imm11:0.
pub fn branch_offset(first: u16, second: u16) -> i32
    ensures value { result ≡ bl_offset first second }
    ensures even { IsBranch (2 ^ 24) result }
{
    let sign = field(first, 10, 1);
    let i1 = u32::from(field(second, 13, 1) == sign);
    let i2 = u32::from(field(second, 11, 1) == sign);
    let top = ((u32::from(sign) << 1 | i1) << 1) | i2;
    let value = (top << 10 | u32::from(field(first, 0, 10))) << 11
        | u32::from(field(second, 0, 11));
    sign_extend(value << 1, 0x100_0000)
}
