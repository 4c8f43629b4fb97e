//! SDIV and UDIV (docs/rules/instructions.md, "Data and flags"). They divide absolute values, so nothing overflows.
ghost use Rattle.std.specs.Prelude.{◌≡◌, true, false};
ghost use Rattle.thumb_core.specs.Data.{is_minus, magnitude, unsigned_quotient, signed_quotient, quotient};
ghost use Rattle.thumb_core.specs.Division.{IsUnsignedQuotient, IsSignedQuotient};

/// Whether a word is negative as a signed number.
fn is_minus(x: u32) -> bool
    ensures { result ≡ is_minus x }
{
    x >= 0x8000_0000
}

/// The absolute value of a word as a signed number.
fn magnitude(x: u32) -> u32
    ensures { result ≡ magnitude x }
{
    if is_minus(x) { 0xffff_ffff - x + 1 } else { x }
}

/// The unsigned quotient of two words; 0 if the divisor is 0.
fn unsigned_quotient(x: u32, y: u32) -> u32
    ensures { result ≡ unsigned_quotient x y }
{
    if y == 0 { 0 } else { x / y }
}

/// The signed quotient of two words, as a word.
fn signed_quotient(x: u32, y: u32) -> u32
    ensures { result ≡ signed_quotient x y }
{
    let q = unsigned_quotient(magnitude(x), magnitude(y));
    if is_minus(x) == is_minus(y) {
        q
    } else {
        q.wrapping_neg()
    }
}

/// The result of SDIV (if `signed`) or UDIV: the quotient rounded towards 0, and 0 if the divisor is 0. For -2^31 by -1
/// it is -2^31.
pub fn quotient(signed: bool, x: u32, y: u32) -> u32
    ensures value { result ≡ quotient signed x y }

    // The same in terms of the numbers.
    ensures unsigned { signed ≡ false → IsUnsignedQuotient x y result }
    ensures signed { signed ≡ true → IsSignedQuotient x y result }
{
    if signed {
        signed_quotient(x, y)
    } else {
        unsigned_quotient(x, y)
    }
}
