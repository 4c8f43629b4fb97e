//! Numbers of variable length, with seven bits in each byte (DWARF, "Variable Length Data"). docs/rules/gnu-tables.md states the rules.
ghost use Rattle.std.specs.Prelude.{◌≡◌, ◌+◌, ◌*◌, ◌^◌, ◌<◌, ◌≤◌, length, take, position, IfSome};
ghost use Rattle.eh_word.specs.Words.{base_128};
ghost use Rattle.gnu_lsda.specs.Leb128.{uleb128_at, span, twos_complement, magnitude, is_last, sleb128_of};

use eh_word::uleb128;
use eh_word::words::ULEB128_MORE;

/// The most bytes of a SLEB128 number.
pub const SLEB128_BYTES: usize = 5;

/// A signed number, as its sign and magnitude.
#[derive(Clone, Copy)]
pub enum SignedNumber {
    /// The number itself.
    Plus(u64),
    /// Minus this number.
    Minus(u64),
}

/// The ULEB128 number at offset `at`, and the offset after it. None if and only if `at` is past the bytes or the number isn't accepted.
pub fn uleb128_at(bytes: &[u8], at: usize) -> Option<(u32, usize)>
    ensures number { result ≡ uleb128_at bytes.now at }
{
    if at > bytes.len() {
        return None;
    }
    uleb128(bytes, at).ok()
}

/// How many numbers can be written in so many bytes.
fn span(bytes: &[u8]) -> u64
    requires { span bytes.now ≤ 2 ^ 35 }
    ensures { result ≡ span bytes.now }
{
    match bytes {
        [] => 1,
        [_first, rest @ ..] => 128 * span(rest),
    }
}

/// The number with the low seven bits of the bytes as its digits in base 128, the lowest first.
fn digits(bytes: &[u8]) -> u64
    requires { base_128 bytes.now < 2 ^ 35 }
    ensures { result ≡ base_128 bytes.now }
{
    match bytes {
        [] => 0,
        [first, rest @ ..] => u64::from(*first % 128) + 128 * digits(rest),
    }
}

/// The number that the low seven bits of the bytes are in two's complement.
#[tactic(auto, using(crate::proofs::Digits::digits_below, crate::proofs::Digits::digits_fit, crate::proofs::Digits::span_fits))]
fn twos_complement(bytes: &[u8]) -> SignedNumber
    requires { length bytes.now ≤ SLEB128_BYTES }
    ensures number { result ≡ twos_complement bytes.now }
    ensures small { magnitude result ≤ 2 ^ 35 }
{
    let value = digits(bytes);
    let span = span(bytes);
    if 2 * value < span {
        SignedNumber::Plus(value)
    } else {
        SignedNumber::Minus(span - value)
    }
}

/// The index of the first byte with bit 7 clear, among the first five; None if there is none.
fn last_place(bytes: &[u8]) -> Option<usize>
    ensures place { result ≡ position is_last (take SLEB128_BYTES bytes.now) }
{
    let front = &bytes[..bytes.len().min(SLEB128_BYTES)];
    front.iter().position(|b| *b < ULEB128_MORE)
}

/// The SLEB128 number (DWARF) at offset `at`, and the offset after it. A small number may be written with more bytes than it needs. A
/// number of five bytes has all its 35 bits. None if and only if none of the five bytes from `at` on has bit 7 clear.
#[tactic(auto, using(crate::proofs::NumberEnds::last_inside), unfolding(crate::specs::Leb128::sleb128_of))]
pub fn sleb128(bytes: &[u8], at: usize) -> Option<(SignedNumber, usize)>
    ensures number { result ≡ sleb128_of bytes.now at }
    ensures small { IfSome result (λ found. magnitude found.0 ≤ 2 ^ 35) }
    ensures within { IfSome result (λ found. found.1 ≤ length bytes.now) }
{
    if at > bytes.len() {
        return None;
    }
    let rest = &bytes[at..];
    let last = last_place(rest)?;
    Some((twos_complement(&rest[..last + 1]), at + last + 1))
}
