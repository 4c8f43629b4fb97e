//! Encodes branches, calls, SVC and barriers (docs/rules/instructions.md has the ranges).
ghost use Rattle.std.specs.Prelude.{◌≡◌, ℕ, ◌*◌, ◌^◌, ◌<◌, ◌≤◌, ℤ, pos, IfOk};
ghost use Rattle.thumb_isa.specs.Fields.{signed_half};
ghost use Rattle.thumb_isa.specs.declared.profile.Profile.TheVariants.{One, Two};
ghost use Rattle.thumb_isa.specs.declared.instr.Decoded.TheVariants.{Is};
ghost use Rattle.thumb_isa.specs.declared.instr.Instr.TheVariants.{Bx, Blx, BCond, Svc, B, Bl, Barrier, Cbz, BWide};
ghost use Rattle.thumb_encode.specs.Codes.{IsCodeIn, encode_result, long_code};

use crate::code::Code;
use crate::operand::{cbz_field, target_field};
use thumb_isa::encode_fault::EncodeFault;

/// BX.
#[tactic(auto, using(thumb_isa::proofs::Table::bx))]
pub fn bx(m: u8) -> Result<Code, EncodeFault>
    ensures ok { IfOk result (λ code. IsCodeIn One code (Bx m)) }
    ensures exact { result ≡ encode_result (Bx m) }
{
    if m > 14 {
        return Err(EncodeFault::RegisterRange);
    }
    Ok(Code::Half(0x4700 + (u16::from(m) << 3)))
}

/// BLX (register).
#[tactic(auto, using(thumb_isa::proofs::Table::blx))]
pub fn blx(m: u8) -> Result<Code, EncodeFault>
    ensures ok { IfOk result (λ code. IsCodeIn One code (Blx m)) }
    ensures exact { result ≡ encode_result (Blx m) }
{
    if m > 14 {
        return Err(EncodeFault::RegisterRange);
    }
    Ok(Code::Half(0x4780 + (u16::from(m) << 3)))
}

/// B with a condition.
#[tactic(auto, using(thumb_isa::proofs::Table::b_cond_low, thumb_isa::proofs::Table::b_cond_mid, thumb_isa::proofs::Table::b_cond_high))]
pub fn b_cond(cond: u8, off: i32) -> Result<Code, EncodeFault>
    ensures ok { IfOk result (λ code. IsCodeIn One code (BCond cond off)) }
    ensures exact { result ≡ encode_result (BCond cond off) }
{
    if cond > 13 {
        return Err(EncodeFault::RegisterRange);
    }
    let target = target_field(off, 0x100)?;
    Ok(Code::Half(0xd000 + (u16::from(cond) << 8) + target as u16))
}

/// SVC.
#[tactic(auto, using(thumb_isa::proofs::Table::svc))]
pub fn svc(imm: u32) -> Result<Code, EncodeFault>
    ensures ok { IfOk result (λ code. IsCodeIn One code (Svc imm)) }
    ensures exact { result ≡ encode_result (Svc imm) }
{
    if imm > 255 {
        return Err(EncodeFault::ImmediateRange);
    }
    Ok(Code::Half(0xdf00 + imm as u16))
}

/// B without a condition, of 16 bits.
#[tactic(auto, using(thumb_isa::proofs::Table::b))]
pub fn b(off: i32) -> Result<Code, EncodeFault>
    ensures ok { IfOk result (λ code. IsCodeIn One code (B off)) }
    ensures exact { result ≡ encode_result (B off) }
{
    let target = target_field(off, 0x800)?;
    Ok(Code::Half(0xe000 + target as u16))
}

/// BL.
pub fn bl(off: i32) -> Result<Code, EncodeFault>
    ensures ok { IfOk result (λ code. IsCodeIn One code (Bl off)) }
    ensures exact { result ≡ encode_result (Bl off) }
{
    let target = target_field(off, 0x100_0000)?;
    Ok(pair_of(0xd000, target))
}

/// B without a condition, of 32 bits.
pub fn b_wide(off: i32) -> Result<Code, EncodeFault>
    ensures ok { IfOk result (λ code. IsCodeIn Two code (BWide off)) }
    ensures exact { result ≡ encode_result (BWide off) }
{
    let target = target_field(off, 0x100_0000)?;
    Ok(pair_of(0x9000, target))
}

/// The two halfwords of a BL or of a 32-bit B. `target` is half the offset, in 24 bits; `base` gives the fixed bits of
/// the second.
#[tactic(auto, using(crate::proofs::Long::bl_code, crate::proofs::Long::b_wide_code))]
fn pair_of(base: u32, target: u32) -> Code
    requires low { target < 2 ^ 24 }
    requires base_in { base ≤ 0xd000 }
    ensures exact { result ≡ long_code base target }
    ensures bl { base ≡ 0xd000 → (off : ℤ) → signed_half 0x1000000 (target * 2) ≡ off → IsCodeIn One result (Bl off) }
    ensures b_wide { base ≡ 0x9000 → (off : ℤ) → signed_half 0x1000000 (target * 2) ≡ off → IsCodeIn Two result (BWide off) }
{
    let sign = target >> 23;
    let j1 = u32::from((target >> 22) % 2 == sign);
    let j2 = u32::from((target >> 21) % 2 == sign);
    Code::Pair(
        (0xf000 + (sign << 10) + (target >> 11) % 0x400) as u16,
        (base + (j1 << 13) + (j2 << 11) + target % 0x800) as u16,
    )
}

/// CBZ or CBNZ.
#[tactic(auto, using(crate::proofs::LateForms::cbz_code))]
pub fn cbz(nonzero: bool, n: u8, off: i32) -> Result<Code, EncodeFault>
    ensures ok { IfOk result (λ code. IsCodeIn Two code (Cbz nonzero n off)) }
    ensures exact { result ≡ encode_result (Cbz nonzero n off) }
{
    if n > 7 {
        return Err(EncodeFault::RegisterRange);
    }
    let target = cbz_field(off)?;
    Ok(Code::Half(
        0xb100
            + (u16::from(nonzero) << 11)
            + (target >> 5 << 9)
            + (target % 32 << 3)
            + u16::from(n),
    ))
}

/// DSB, DMB or ISB.
pub fn barrier(op: u8, option: u8) -> Result<Code, EncodeFault>
    ensures ok { IfOk result (λ code. IsCodeIn One code (Barrier op option)) }
    ensures exact { result ≡ encode_result (Barrier op option) }
{
    if op > 2 {
        return Err(EncodeFault::RegisterRange);
    }
    if option > 15 {
        return Err(EncodeFault::ImmediateRange);
    }
    Ok(Code::Pair(0xf3bf, 0x8f40 + (u16::from(op) << 4) + u16::from(option)))
}
