//! Encodes PUSH, POP, STM and LDM.
ghost use Rattle.std.specs.Prelude.{◌≡◌, ℕ, ◌*◌, ◌^◌, ◌<◌, ◌≤◌, ℤ, pos, IfOk};
ghost use Rattle.thumb_isa.specs.declared.profile.Profile.TheVariants.{One};
ghost use Rattle.thumb_isa.specs.declared.instr.Decoded.TheVariants.{Is};
ghost use Rattle.thumb_isa.specs.declared.instr.Instr.TheVariants.{Push, Pop, Stm, Ldm};
ghost use Rattle.thumb_encode.specs.Codes.{IsCodeIn, encode_result};

use crate::code::Code;
use thumb_isa::encode_fault::EncodeFault;
use thumb_isa::fields::field;

/// PUSH.
#[tactic(auto, using(thumb_isa::proofs::Table::push))]
pub fn push(list: u16) -> Result<Code, EncodeFault>
    ensures ok { IfOk result (λ code. IsCodeIn One code (Push list)) }
    ensures exact { result ≡ encode_result (Push list) }
{
    let low = list % 0x100;
    let high = (list >> 14) % 2;
    if list != low + (high << 14) {
        return Err(EncodeFault::RegisterRange);
    }
    if list == 0 {
        return Err(EncodeFault::ListEmpty);
    }
    Ok(Code::Half(0xb400 + low + (high << 8)))
}

/// POP.
#[tactic(auto, using(thumb_isa::proofs::Table::pop))]
pub fn pop(list: u16) -> Result<Code, EncodeFault>
    ensures ok { IfOk result (λ code. IsCodeIn One code (Pop list)) }
    ensures exact { result ≡ encode_result (Pop list) }
{
    let low = list % 0x100;
    let high = (list >> 15) % 2;
    if list != low + (high << 15) {
        return Err(EncodeFault::RegisterRange);
    }
    if list == 0 {
        return Err(EncodeFault::ListEmpty);
    }
    Ok(Code::Half(0xbc00 + low + (high << 8)))
}

/// STM. The base may be in the list only as its lowest register.
#[tactic(auto, using(crate::proofs::Forms::stm_code))]
pub fn stm(n: u8, list: u16) -> Result<Code, EncodeFault>
    ensures ok { IfOk result (λ code. IsCodeIn One code (Stm n list)) }
    ensures exact { result ≡ encode_result (Stm n list) }
{
    if n > 7 || list > 0xff {
        return Err(EncodeFault::RegisterRange);
    }
    let base = u32::from(n);
    if field(list, base, 1) == 1 && field(list, 0, base) != 0 {
        return Err(EncodeFault::RegisterRange);
    }
    if list == 0 {
        return Err(EncodeFault::ListEmpty);
    }
    Ok(Code::Half(0xc000 + (u16::from(n) << 8) + list))
}

/// LDM.
#[tactic(auto, using(thumb_isa::proofs::Table::ldm))]
pub fn ldm(n: u8, list: u16) -> Result<Code, EncodeFault>
    ensures ok { IfOk result (λ code. IsCodeIn One code (Ldm n list)) }
    ensures exact { result ≡ encode_result (Ldm n list) }
{
    if n > 7 || list > 0xff {
        return Err(EncodeFault::RegisterRange);
    }
    if list == 0 {
        return Err(EncodeFault::ListEmpty);
    }
    Ok(Code::Half(0xc800 + (u16::from(n) << 8) + list))
}
