//! Encodes operands into fields, if they fit.
ghost use Rattle.std.specs.Prelude.{◌≡◌, ◌+◌, ◌*◌, ◌/◌, ◌%◌, ◌^◌, ◌<◌, ◌≤◌, pos, IfOk};
ghost use Rattle.thumb_isa.specs.Fields.{signed_half};
ghost use Rattle.thumb_encode.specs.Codes.{target_field, offset_field, cbz_field};

use thumb_isa::encode_fault::EncodeFault;

/// The fields of three low registers, highest bits first.
pub fn low_fields(high: u8, middle: u8, low: u8) -> u16
    requires high_in { high < 8 }
    requires middle_in { middle < 8 }
    requires low_in { low < 8 }
    ensures { result ≡ high * 64 + middle * 8 + low }
{
    (u16::from(high) << 6) + (u16::from(middle) << 3) + u16::from(low)
}

/// The fields of two registers 0 to 15.
pub fn high_fields(d: u8, m: u8) -> u16
    requires d_in { d < 16 }
    requires m_in { m < 16 }
    ensures { result ≡ d / 8 * 128 + m * 8 + d % 8 }
{
    (u16::from(d >> 3) << 7) + (u16::from(m) << 3) + u16::from(d & 7)
}

/// The field of a branch offset, which is half the offset; `half` is the weight of the offset's sign bit. TargetRange
/// if it doesn't fit.
pub fn target_field(off: i32, half: u32) -> Result<u32, EncodeFault>
    requires { half ≤ 2 ^ 24 }
    ensures ok { IfOk result (λ field. (field < half) × (signed_half half (field * 2) ≡ off)) }
    ensures exact { result ≡ target_field half off }
{
    let limit = half as i32;
    if off < -limit || off >= limit || off % 2 != 0 {
        return Err(EncodeFault::TargetRange);
    }
    let value = if off < 0 { off + 2 * limit } else { off };
    Ok(value as u32 / 2)
}

/// The field of a CBZ offset, which is half the offset. TargetRange if it doesn't fit.
pub fn cbz_field(off: i32) -> Result<u16, EncodeFault>
    ensures ok { IfOk result (λ field. (field < 64) × (pos (field * 2) ≡ off)) }
    ensures exact { result ≡ cbz_field off }
{
    if off < 0 || off > 126 || off % 2 != 0 {
        return Err(EncodeFault::TargetRange);
    }
    Ok(off as u16 / 2)
}

/// The field of an offset in bytes, at most `largest`.
pub fn byte_field(off: i32, largest: u16) -> Result<u16, EncodeFault>
    ensures ok { IfOk result (λ field. (field ≤ largest) × (pos field ≡ off)) }
    ensures exact { result ≡ offset_field 1 largest off }
{
    if off < 0 || off > i32::from(largest) {
        return Err(EncodeFault::ImmediateRange);
    }
    Ok(off as u16)
}

/// The field of an offset in words; `largest` is in bytes.
pub fn word_field(off: i32, largest: u16) -> Result<u16, EncodeFault>
    ensures ok { IfOk result (λ field. (field * 4 ≤ largest) × (pos (field * 4) ≡ off)) }
    ensures exact { result ≡ offset_field 4 largest off }
{
    let bytes = byte_field(off, largest)?;
    if bytes % 4 != 0 {
        return Err(EncodeFault::ImmediateAlign);
    }
    Ok(bytes / 4)
}

/// The field of an offset in halfwords; `largest` is in bytes.
pub fn half_field(off: i32, largest: u16) -> Result<u16, EncodeFault>
    ensures ok { IfOk result (λ field. (field * 2 ≤ largest) × (pos (field * 2) ≡ off)) }
    ensures exact { result ≡ offset_field 2 largest off }
{
    let bytes = byte_field(off, largest)?;
    if bytes % 2 != 0 {
        return Err(EncodeFault::ImmediateAlign);
    }
    Ok(bytes / 2)
}
