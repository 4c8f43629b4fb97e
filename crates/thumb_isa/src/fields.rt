//! Bit fields of halfwords, and sign extension, as DDI 0419 writes encodings.
ghost use Rattle.std.specs.Prelude.{◌≡◌, ◌*◌, ◌%◌, ◌^◌, ◌<◌, ◌≤◌};
ghost use Rattle.thumb_isa.specs.Fields.{field, signed_half};
ghost use Rattle.thumb_isa.specs.Range.{IsBranch};

/// The `width` bits of a halfword from bit `at` up.
pub fn field(half: u16, at: u32, width: u32) -> u16
    requires at_in { at < 16 }
    requires width_in { width < 16 }
    ensures { result ≡ field half at width }
{
    (half >> at) & ((1 << width) - 1)
}

/// The same for a field of at most eight bits, as a byte.
pub fn field_8(half: u16, at: u32, width: u32) -> u8
    requires at_in { at < 16 }
    requires width_in { width ≤ 8 }
    ensures { result ≡ field half at width }
{
    field(half, at, width) as u8
}

/// Sign extension of a number whose sign bit has the weight `half`.
pub fn sign_extend(value: u32, half: u32) -> i32
    requires half_in { half < 2 ^ 30 }
    requires fits { value < 2 * half }
    ensures value { result ≡ signed_half half value }
    ensures even { value % 2 ≡ 0 → half % 2 ≡ 0 → IsBranch half result }
{
    if value < half {
        value as i32
    } else {
        value as i32 - 2 * half as i32
    }
}
