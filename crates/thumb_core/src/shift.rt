//! Shifts, with the last bit that is shifted out (docs/rules/instructions.md, "Shifts").
ghost use Rattle.std.specs.Prelude.{◌≡◌, ◌<◌};
ghost use Rattle.thumb_core.specs.Shift.{shift_of, left_shift, right_shift, signed_shift, rotation_of};

// The shifts of `Instr::ShiftImm`.
/// LSL (immediate).
pub const LSL: u8 = 0;

/// LSR (immediate).
pub const LSR: u8 = 1;

/// ASR (immediate).
pub const ASR: u8 = 2;

/// LSL, LSR or ASR: the value, and the last bit shifted out. A shift by 0 keeps the carry.
pub(crate) fn shift_of(op: u8, x: u32, n: u32, carry: bool) -> (u32, bool)
    ensures { result ≡ shift_of op x n carry }
{
    if n == 0 {
        return (x, carry);
    }
    match op {
        LSL => left_shift(x, n),
        LSR => right_shift(x, n),
        _ => signed_shift(x, n),
    }
}

/// ROR: the value, and its top bit. A rotation by 0 keeps the carry.
pub(crate) fn rotation_of(x: u32, n: u32, carry: bool) -> (u32, bool)
    ensures { result ≡ rotation_of x n carry }
{
    if n == 0 {
        return (x, carry);
    }
    let value = x.rotate_right(n);
    (value, value >> 31 == 1)
}

/// LSL by n, at least 1: the value and the carry.
#[tactic(auto, using(crate::proofs::Shifts::shl_high, crate::proofs::Shifts::shl_even, crate::proofs::Shifts::shl_gone))]
fn left_shift(x: u32, n: u32) -> (u32, bool)
    requires { 0 < n }
    ensures { result ≡ left_shift x n }
{
    if n > 32 {
        return (0, false);
    }
    if n == 32 {
        return (0, x % 2 == 1);
    }
    (x << n, (x >> (32 - n)) % 2 == 1)
}

/// LSR by n, at least 1: the value and the carry.
#[tactic(auto, using(crate::proofs::Shifts::shr_gone))]
fn right_shift(x: u32, n: u32) -> (u32, bool)
    requires { 0 < n }
    ensures { result ≡ right_shift x n }
{
    if n > 32 {
        return (0, false);
    }
    let carry = (x >> (n - 1)) % 2 == 1;
    if n == 32 { (0, carry) } else { (x >> n, carry) }
}

/// ASR by n, at least 1: the value and the carry.
#[tactic(auto, using(crate::proofs::Shifts::sign_only))]
fn signed_shift(x: u32, n: u32) -> (u32, bool)
    requires { 0 < n }
    ensures { result ≡ signed_shift x n }
{
    let signed = x.cast_signed();
    if n >= 32 {
        let sign = (signed >> 31).cast_unsigned();
        return (sign, sign % 2 == 1);
    }
    let carry = (signed >> (n - 1)).cast_unsigned() % 2 == 1;
    ((signed >> n).cast_unsigned(), carry)
}
