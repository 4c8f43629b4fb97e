//! Encodes loads, stores and address computations.
ghost use Rattle.std.specs.Prelude.{◌≡◌, ℕ, ◌*◌, ◌^◌, ◌<◌, ◌≤◌, ℤ, pos, IfOk};
ghost use Rattle.thumb_isa.specs.declared.profile.Profile.TheVariants.{One};
ghost use Rattle.thumb_isa.specs.declared.instr.Decoded.TheVariants.{Is};
ghost use Rattle.thumb_isa.specs.declared.instr.Instr.TheVariants.{LdrLit, MemReg, MemImm, MemSp, Adr, AddRdSp, AddSp, SubSp};
ghost use Rattle.thumb_encode.specs.Codes.{IsCodeIn, encode_result};

use crate::code::Code;
use crate::operand::{byte_field, half_field, low_fields, word_field};
use thumb_isa::encode_fault::EncodeFault;

/// LDR (literal).
#[tactic(auto, using(thumb_isa::proofs::Table::ldr_lit))]
pub fn ldr_lit(t: u8, off: i32) -> Result<Code, EncodeFault>
    ensures ok { IfOk result (λ code. IsCodeIn One code (LdrLit t off)) }
    ensures exact { result ≡ encode_result (LdrLit t off) }
{
    if t > 7 {
        return Err(EncodeFault::RegisterRange);
    }
    let words = word_field(off, 1020)?;
    Ok(Code::Half(0x4800 + (u16::from(t) << 8) + words))
}

/// Loads and stores with a register offset.
#[tactic(auto, using(thumb_isa::proofs::Table::mem_reg))]
pub fn mem_reg(op: u8, t: u8, n: u8, m: u8) -> Result<Code, EncodeFault>
    ensures ok { IfOk result (λ code. IsCodeIn One code (MemReg op t n m)) }
    ensures exact { result ≡ encode_result (MemReg op t n m) }
{
    if op > 7 || t > 7 || n > 7 || m > 7 {
        return Err(EncodeFault::RegisterRange);
    }
    Ok(Code::Half(0x5000 + (u16::from(op) << 9) + low_fields(m, n, t)))
}

/// Loads and stores with an immediate offset.
#[tactic(auto, using(thumb_isa::proofs::Table::mem_word, thumb_isa::proofs::Table::mem_byte, thumb_isa::proofs::Table::mem_half))]
pub fn mem_imm(op: u8, t: u8, n: u8, off: i32) -> Result<Code, EncodeFault>
    ensures ok { IfOk result (λ code. IsCodeIn One code (MemImm op t n off)) }
    ensures exact { result ≡ encode_result (MemImm op t n off) }
{
    if op > 5 || t > 7 || n > 7 {
        return Err(EncodeFault::RegisterRange);
    }
    match op {
        0 | 1 => mem_word(op, t, n, off),
        2 | 3 => mem_byte(op, t, n, off),
        _ => mem_half(op, t, n, off),
    }
}

/// STR or LDR (immediate).
#[tactic(auto, using(thumb_isa::proofs::Table::mem_word))]
fn mem_word(op: u8, t: u8, n: u8, off: i32) -> Result<Code, EncodeFault>
    requires op_in { op < 2 }
    requires t_in { t < 8 }
    requires n_in { n < 8 }
    ensures ok { IfOk result (λ code. IsCodeIn One code (MemImm op t n off)) }
    ensures exact { result ≡ encode_result (MemImm op t n off) }
{
    let words = word_field(off, 124)?;
    Ok(Code::Half(0x6000 + (u16::from(op) << 11) + (words << 6) + low_fields(0, n, t)))
}

/// STRB or LDRB (immediate).
#[tactic(auto, using(thumb_isa::proofs::Table::mem_byte))]
fn mem_byte(op: u8, t: u8, n: u8, off: i32) -> Result<Code, EncodeFault>
    requires op_low { 2 ≤ op }
    requires op_high { op < 4 }
    requires t_in { t < 8 }
    requires n_in { n < 8 }
    ensures ok { IfOk result (λ code. IsCodeIn One code (MemImm op t n off)) }
    ensures exact { result ≡ encode_result (MemImm op t n off) }
{
    let bytes = byte_field(off, 31)?;
    Ok(Code::Half(0x7000 + (u16::from(op - 2) << 11) + (bytes << 6) + low_fields(0, n, t)))
}

/// STRH or LDRH (immediate).
#[tactic(auto, using(thumb_isa::proofs::Table::mem_half))]
fn mem_half(op: u8, t: u8, n: u8, off: i32) -> Result<Code, EncodeFault>
    requires op_low { 4 ≤ op }
    requires op_high { op < 6 }
    requires t_in { t < 8 }
    requires n_in { n < 8 }
    ensures ok { IfOk result (λ code. IsCodeIn One code (MemImm op t n off)) }
    ensures exact { result ≡ encode_result (MemImm op t n off) }
{
    let halves = half_field(off, 62)?;
    Ok(Code::Half(0x8000 + (u16::from(op - 4) << 11) + (halves << 6) + low_fields(0, n, t)))
}

/// STR or LDR (immediate) with base sp.
pub fn mem_sp(load: bool, t: u8, off: i32) -> Result<Code, EncodeFault>
    ensures ok { IfOk result (λ code. IsCodeIn One code (MemSp load t off)) }
    ensures exact { result ≡ encode_result (MemSp load t off) }
{
    if t > 7 {
        return Err(EncodeFault::RegisterRange);
    }
    let words = word_field(off, 1020)?;
    Ok(Code::Half(0x9000 + (u16::from(load) << 11) + (u16::from(t) << 8) + words))
}

/// ADR.
#[tactic(auto, using(thumb_isa::proofs::Table::adr))]
pub fn adr(d: u8, off: i32) -> Result<Code, EncodeFault>
    ensures ok { IfOk result (λ code. IsCodeIn One code (Adr d off)) }
    ensures exact { result ≡ encode_result (Adr d off) }
{
    if d > 7 {
        return Err(EncodeFault::RegisterRange);
    }
    let words = word_field(off, 1020)?;
    Ok(Code::Half(0xa000 + (u16::from(d) << 8) + words))
}

/// ADD (SP plus immediate) to a low register.
#[tactic(auto, using(thumb_isa::proofs::Table::add_rd_sp))]
pub fn add_rd_sp(d: u8, off: i32) -> Result<Code, EncodeFault>
    ensures ok { IfOk result (λ code. IsCodeIn One code (AddRdSp d off)) }
    ensures exact { result ≡ encode_result (AddRdSp d off) }
{
    if d > 7 {
        return Err(EncodeFault::RegisterRange);
    }
    let words = word_field(off, 1020)?;
    Ok(Code::Half(0xa800 + (u16::from(d) << 8) + words))
}

/// ADD (SP plus immediate) to sp.
#[tactic(auto, using(thumb_isa::proofs::Table::add_sp))]
pub fn add_sp(off: i32) -> Result<Code, EncodeFault>
    ensures ok { IfOk result (λ code. IsCodeIn One code (AddSp off)) }
    ensures exact { result ≡ encode_result (AddSp off) }
{
    let words = word_field(off, 508)?;
    Ok(Code::Half(0xb000 + words))
}

/// SUB (SP minus immediate).
#[tactic(auto, using(thumb_isa::proofs::Table::sub_sp))]
pub fn sub_sp(off: i32) -> Result<Code, EncodeFault>
    ensures ok { IfOk result (λ code. IsCodeIn One code (SubSp off)) }
    ensures exact { result ≡ encode_result (SubSp off) }
{
    let words = word_field(off, 508)?;
    Ok(Code::Half(0xb080 + words))
}
