//! Encodes instructions, the inverse of the decoder (docs/rules/instructions.md). Data processing, moves, hints and
//! division are here; branches, loads and stores, and register lists have files of their own.
ghost use Rattle.std.specs.Prelude.{◌≡◌, ℕ, ◌*◌, ◌^◌, ◌<◌, ◌≤◌, Bool, ℤ, pos, IfOk, OnErr};
ghost use Rattle.thumb_isa.specs.Range.{IsGeneral};
ghost use Rattle.thumb_isa.specs.declared.profile.Profile.TheVariants.{One, Two};
ghost use Rattle.thumb_isa.specs.declared.instr.Decoded.TheVariants.{Is};
ghost use Rattle.thumb_isa.specs.declared.instr.Instr.TheVariants.{ShiftImm, AddSubReg, AddSubImm3, Imm8, Alu, AddHigh, CmpHigh, MovHigh, Extend, Rev, Hint, MovW, MovT, Div};
ghost use Rattle.thumb_encode.specs.Codes.{IsCodeIn, IsCodeOf, HasNoCode, GivesBack, encode_result, least_profile, sixteen_code, is_general};

use crate::code::Code;
use crate::operand::{high_fields, low_fields};
use crate::{branch, lists, memory};
use thumb_isa::encode_fault::EncodeFault;
use thumb_isa::instr::Instr;

/// Encodes an instruction. Ok exactly if some code decodes to it; else Err with the first fault in the order of
/// `EncodeFault`. No two codes decode to the same instruction. An instruction of the first profile decodes from its
/// code in both.
#[tactic(auto, using(crate::proofs::Inverse::refused_is_no_code, crate::proofs::Inverse::given_back, crate::proofs::LateForms::ok_in_second))]
pub fn encode(i: &Instr) -> Result<Code, EncodeFault>
    ensures exact { result ≡ encode_result i.now }
    ensures ok { IfOk result (λ code. IsCodeOf code i.now) }
    ensures least { IfOk result (λ code. IsCodeIn (least_profile i.now) code i.now) }
    ensures only { OnErr result (HasNoCode i.now) }
    ensures inverse { GivesBack i.now result }
{
    code_of(i)
}

/// Encodes an instruction by its form.
fn code_of(i: &Instr) -> Result<Code, EncodeFault>
    ensures ok { IfOk result (λ code. IsCodeIn (least_profile i.now) code i.now) }
    ensures exact { result ≡ encode_result i.now }
{
    match *i {
        Instr::ShiftImm { op, d, m, n } => shift(op, d, m, n),
        Instr::AddSubReg { sub, d, n, m } => add_sub_reg(sub, d, n, m),
        Instr::AddSubImm3 { sub, d, n, imm } => add_sub_imm(sub, d, n, imm),
        Instr::Imm8 { op, d, imm } => imm8(op, d, imm),
        Instr::Alu { op, d, m } => alu(op, d, m),
        Instr::AddHigh { d, m } => add_high(d, m),
        Instr::CmpHigh { n, m } => cmp_high(n, m),
        Instr::MovHigh { d, m } => mov_high(d, m),
        Instr::Bx { m } => branch::bx(m),
        Instr::Blx { m } => branch::blx(m),
        Instr::LdrLit { t, off } => memory::ldr_lit(t, off),
        Instr::MemReg { op, t, n, m } => memory::mem_reg(op, t, n, m),
        Instr::MemImm { op, t, n, off } => memory::mem_imm(op, t, n, off),
        Instr::MemSp { load, t, off } => memory::mem_sp(load, t, off),
        Instr::Adr { d, off } => memory::adr(d, off),
        Instr::AddRdSp { d, off } => memory::add_rd_sp(d, off),
        Instr::AddSp { off } => memory::add_sp(off),
        Instr::SubSp { off } => memory::sub_sp(off),
        Instr::Extend { op, d, m } => extend(op, d, m),
        Instr::Rev { op, d, m } => reverse(op, d, m),
        Instr::Push { list } => lists::push(list),
        Instr::Pop { list } => lists::pop(list),
        Instr::Hint { n } => hint(n),
        Instr::Stm { n, list } => lists::stm(n, list),
        Instr::Ldm { n, list } => lists::ldm(n, list),
        Instr::BCond { cond, off } => branch::b_cond(cond, off),
        Instr::Svc { imm } => branch::svc(imm),
        Instr::B { off } => branch::b(off),
        Instr::Bl { off } => branch::bl(off),
        Instr::Barrier { op, option } => branch::barrier(op, option),
        Instr::Cbz { nonzero, n, off } => branch::cbz(nonzero, n, off),
        Instr::BWide { off } => branch::b_wide(off),
        Instr::MovW { d, imm } => mov_w(d, imm),
        Instr::MovT { d, imm } => mov_t(d, imm),
        Instr::Div { signed, d, n, m } => div(signed, d, n, m),
    }
}

/// LSL, LSR or ASR (immediate).
#[tactic(auto, using(thumb_isa::proofs::Table::lsl, thumb_isa::proofs::Table::lsr, thumb_isa::proofs::Table::asr))]
fn shift(op: u8, d: u8, m: u8, n: u32) -> Result<Code, EncodeFault>
    ensures ok { IfOk result (λ code. IsCodeIn One code (ShiftImm op d m n)) }
    ensures exact { result ≡ encode_result (ShiftImm op d m n) }
{
    if op > 2 || d > 7 || m > 7 {
        return Err(EncodeFault::RegisterRange);
    }
    let registers = (u16::from(op) << 11) + low_fields(0, m, d);
    if op == 0 {
        if n > 31 {
            return Err(EncodeFault::ImmediateRange);
        }
        return Ok(Code::Half(registers + ((n as u16) << 6)));
    }
    if n == 0 || n > 32 {
        return Err(EncodeFault::ImmediateRange);
    }
    Ok(Code::Half(registers + ((n as u16 % 32) << 6)))
}

/// ADD or SUB (register).
#[tactic(auto, using(thumb_isa::proofs::Table::add_sub_reg))]
fn add_sub_reg(sub: bool, d: u8, n: u8, m: u8) -> Result<Code, EncodeFault>
    ensures ok { IfOk result (λ code. IsCodeIn One code (AddSubReg sub d n m)) }
    ensures exact { result ≡ encode_result (AddSubReg sub d n m) }
{
    if d > 7 || n > 7 || m > 7 {
        return Err(EncodeFault::RegisterRange);
    }
    Ok(Code::Half(0x1800 + (u16::from(sub) << 9) + low_fields(m, n, d)))
}

/// ADD or SUB (immediate) with three bits.
#[tactic(auto, using(thumb_isa::proofs::Table::add_sub_imm))]
fn add_sub_imm(sub: bool, d: u8, n: u8, imm: u32) -> Result<Code, EncodeFault>
    ensures ok { IfOk result (λ code. IsCodeIn One code (AddSubImm3 sub d n imm)) }
    ensures exact { result ≡ encode_result (AddSubImm3 sub d n imm) }
{
    if d > 7 || n > 7 {
        return Err(EncodeFault::RegisterRange);
    }
    if imm > 7 {
        return Err(EncodeFault::ImmediateRange);
    }
    Ok(Code::Half(0x1c00 + (u16::from(sub) << 9) + low_fields(imm as u8, n, d)))
}

/// MOV, CMP, ADD or SUB (immediate) with eight bits.
#[tactic(auto, using(thumb_isa::proofs::Table::imm8))]
fn imm8(op: u8, d: u8, imm: u32) -> Result<Code, EncodeFault>
    ensures ok { IfOk result (λ code. IsCodeIn One code (Imm8 op d imm)) }
    ensures exact { result ≡ encode_result (Imm8 op d imm) }
{
    if op > 3 || d > 7 {
        return Err(EncodeFault::RegisterRange);
    }
    if imm > 255 {
        return Err(EncodeFault::ImmediateRange);
    }
    Ok(Code::Half(0x2000 + (u16::from(op) << 11) + (u16::from(d) << 8) + imm as u16))
}

/// Data processing of two low registers.
#[tactic(auto, using(thumb_isa::proofs::Table::alu))]
fn alu(op: u8, d: u8, m: u8) -> Result<Code, EncodeFault>
    ensures ok { IfOk result (λ code. IsCodeIn One code (Alu op d m)) }
    ensures exact { result ≡ encode_result (Alu op d m) }
{
    if op > 15 || d > 7 || m > 7 {
        return Err(EncodeFault::RegisterRange);
    }
    Ok(Code::Half(0x4000 + (u16::from(op) << 6) + low_fields(0, m, d)))
}

/// ADD (register) of any two registers.
#[tactic(auto, using(thumb_isa::proofs::Table::add_high))]
fn add_high(d: u8, m: u8) -> Result<Code, EncodeFault>
    ensures ok { IfOk result (λ code. IsCodeIn One code (AddHigh d m)) }
    ensures exact { result ≡ encode_result (AddHigh d m) }
{
    if d > 15 || m > 15 || d == 15 && m == 15 {
        return Err(EncodeFault::RegisterRange);
    }
    Ok(Code::Half(0x4400 + high_fields(d, m)))
}

/// CMP (register) with a high register.
#[tactic(auto, using(thumb_isa::proofs::Table::cmp_high))]
fn cmp_high(n: u8, m: u8) -> Result<Code, EncodeFault>
    ensures ok { IfOk result (λ code. IsCodeIn One code (CmpHigh n m)) }
    ensures exact { result ≡ encode_result (CmpHigh n m) }
{
    if n > 14 || m > 14 || n < 8 && m < 8 {
        return Err(EncodeFault::RegisterRange);
    }
    Ok(Code::Half(0x4500 + high_fields(n, m)))
}

/// MOV (register) of any two registers.
#[tactic(auto, using(thumb_isa::proofs::Table::mov_high))]
fn mov_high(d: u8, m: u8) -> Result<Code, EncodeFault>
    ensures ok { IfOk result (λ code. IsCodeIn One code (MovHigh d m)) }
    ensures exact { result ≡ encode_result (MovHigh d m) }
{
    if d > 15 || m > 15 {
        return Err(EncodeFault::RegisterRange);
    }
    Ok(Code::Half(0x4600 + high_fields(d, m)))
}

/// SXTH, SXTB, UXTH or UXTB.
#[tactic(auto, using(thumb_isa::proofs::Table::extend))]
fn extend(op: u8, d: u8, m: u8) -> Result<Code, EncodeFault>
    ensures ok { IfOk result (λ code. IsCodeIn One code (Extend op d m)) }
    ensures exact { result ≡ encode_result (Extend op d m) }
{
    if op > 3 || d > 7 || m > 7 {
        return Err(EncodeFault::RegisterRange);
    }
    Ok(Code::Half(0xb200 + low_fields(op, m, d)))
}

/// REV, REV16 or REVSH.
#[tactic(auto, using(thumb_isa::proofs::Table::rev, thumb_isa::proofs::Table::revsh))]
fn reverse(op: u8, d: u8, m: u8) -> Result<Code, EncodeFault>
    ensures ok { IfOk result (λ code. IsCodeIn One code (Rev op d m)) }
    ensures exact { result ≡ encode_result (Rev op d m) }
{
    if op > 3 || op == 2 || d > 7 || m > 7 {
        return Err(EncodeFault::RegisterRange);
    }
    Ok(Code::Half(0xba00 + low_fields(op, m, d)))
}

/// NOP, YIELD, WFE, WFI, SEV or another hint.
#[tactic(auto, using(thumb_isa::proofs::Table::hint))]
fn hint(n: u8) -> Result<Code, EncodeFault>
    ensures ok { IfOk result (λ code. IsCodeIn One code (Hint n)) }
    ensures exact { result ≡ encode_result (Hint n) }
{
    if n > 15 {
        return Err(EncodeFault::ImmediateRange);
    }
    Ok(Code::Half(0xbf00 + (u16::from(n) << 4)))
}

/// Whether a number is a register other than sp and pc.
fn is_general(register: u8) -> bool
    ensures { result ≡ is_general register }
{
    register < 15 && register != 13
}

/// MOVW.
#[tactic(auto, using(crate::proofs::LateForms::mov_w_code, crate::proofs::LateForms::general))]
fn mov_w(d: u8, imm: u32) -> Result<Code, EncodeFault>
    ensures ok { IfOk result (λ code. IsCodeIn Two code (MovW d imm)) }
    ensures exact { result ≡ encode_result (MovW d imm) }
{
    if !is_general(d) {
        return Err(EncodeFault::RegisterRange);
    }
    if imm > 0xffff {
        return Err(EncodeFault::ImmediateRange);
    }
    Ok(sixteen(0xf240, d, imm))
}

/// MOVT.
#[tactic(auto, using(crate::proofs::LateForms::mov_t_code, crate::proofs::LateForms::general))]
fn mov_t(d: u8, imm: u32) -> Result<Code, EncodeFault>
    ensures ok { IfOk result (λ code. IsCodeIn Two code (MovT d imm)) }
    ensures exact { result ≡ encode_result (MovT d imm) }
{
    if !is_general(d) {
        return Err(EncodeFault::RegisterRange);
    }
    if imm > 0xffff {
        return Err(EncodeFault::ImmediateRange);
    }
    Ok(sixteen(0xf2c0, d, imm))
}

/// The halfwords of a MOVW or MOVT: the immediate's bits imm4:i:imm3:imm8, and the register.
fn sixteen(base: u16, d: u8, imm: u32) -> Code
    requires base_in { base ≤ 0xf2c0 }
    requires d_in { d < 16 }
    requires imm_in { imm < 2 ^ 16 }
    ensures { result ≡ sixteen_code base d imm }
{
    Code::Pair(
        base + (((imm >> 11) % 2) << 10) as u16 + (imm >> 12) as u16,
        (((imm >> 8) % 8) << 12) as u16 + (u16::from(d) << 8) + (imm % 0x100) as u16,
    )
}

/// SDIV or UDIV.
#[tactic(auto, using(crate::proofs::LateForms::div_code, crate::proofs::LateForms::general))]
fn div(signed: bool, d: u8, n: u8, m: u8) -> Result<Code, EncodeFault>
    ensures ok { IfOk result (λ code. IsCodeIn Two code (Div signed d n m)) }
    ensures exact { result ≡ encode_result (Div signed d n m) }
{
    if !is_general(d) || !is_general(n) || !is_general(m) {
        return Err(EncodeFault::RegisterRange);
    }
    Ok(Code::Pair(
        0xfb90 + (u16::from(!signed) << 5) + u16::from(n),
        0xf0f0 + (u16::from(d) << 8) + u16::from(m),
    ))
}
