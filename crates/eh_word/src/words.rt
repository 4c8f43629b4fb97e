//! Little-endian words, relative addresses (IHI 0044, R_ARM_PREL31) and ULEB128 numbers (DWARF).
ghost use Rattle.std.specs.Prelude.{◌≡◌, ◌+◌, ◌-◌, ◌*◌, ◌^◌, ◌<◌, ◌≤◌, length, take};
ghost use Rattle.std.specs.List.{prefix_len};
ghost use Rattle.eh_word.specs.Words.{signed_value, prel31_of, number_at, has_more, base_128, uleb128_of};

use crate::fault::WordFault;
use byteorder::{ByteOrder, LittleEndian};

/// A 31-bit number in two's complement.
fn signed_31(value: u32) -> i32
    requires { value < 2 ^ 31 }
    ensures { result ≡ signed_value 31 value }
{
    if value < 0x4000_0000 {
        value as i32
    } else {
        (value - 0x4000_0000) as i32 - 0x4000_0000
    }
}

/// The target of a 31-bit relative word (R_ARM_PREL31): the word's address `place` plus its bits 30 to 0 as a signed
/// number, modulo 2^32. Bit 31 is ignored.
#[tactic(auto, unfolding(crate::specs::Words::prel31_of))]
pub fn prel31(place: u32, word: u32) -> u32
    ensures { result ≡ prel31_of place word }
{
    place.wrapping_add_signed(signed_31(word % 0x8000_0000))
}

/// The word at offset `at`, lowest byte first. None exactly if fewer than four bytes are left there.
#[tactic(auto, unfolding(crate::specs::Words::number_at))]
pub fn get_word(bytes: &[u8], at: usize) -> Option<u32>
    ensures { result ≡ number_at 4 bytes.now at }
{
    if at <= bytes.len() && bytes.len() - at >= 4 {
        Some(LittleEndian::read_u32(&bytes[at..]))
    } else {
        None
    }
}

/// The halfword at offset `at`, lowest byte first. None exactly if fewer than two bytes are left there.
#[tactic(auto, unfolding(crate::specs::Words::number_at))]
pub fn get_half(bytes: &[u8], at: usize) -> Option<u16>
    ensures { result ≡ number_at 2 bytes.now at }
{
    if at <= bytes.len() && bytes.len() - at >= 2 {
        Some(LittleEndian::read_u16(&bytes[at..]))
    } else {
        None
    }
}

/// The most bytes of a 32-bit ULEB128 number.
pub const ULEB128_BYTES: usize = 5;

/// The greatest value of the fifth byte, which holds bits 28 to 31 of the number.
pub const ULEB128_LAST: u8 = 0x0f;

/// The bit of a byte that says that another byte follows.
pub const ULEB128_MORE: u8 = 0x80;

/// How many of the first four bytes have bit 7 set, up to the first one without.
fn continuation_count(bytes: &[u8]) -> usize
    ensures count { result ≡ prefix_len has_more (take (ULEB128_BYTES - 1) bytes.now) }
    ensures within { result ≤ ULEB128_BYTES - 1 }
{
    let front = &bytes[..bytes.len().min(ULEB128_BYTES - 1)];
    for (i, b) in front.iter().enumerate() {
        if *b < ULEB128_MORE {
            return i;
        }
    }
    front.len()
}

/// The number whose base-128 digits are the low seven bits of the bytes, lowest first.
fn base_128(bytes: &[u8]) -> u32
    requires { base_128 bytes.now < 2 ^ 32 }
    ensures { result ≡ base_128 bytes.now }
{
    match bytes {
        [] => 0,
        [first, rest @ ..] => u32::from(*first % 128) + 128 * base_128(rest),
    }
}

/// The ULEB128 number (DWARF) at offset `at`, and the offset after it. Encodings longer than needed are accepted. Ends
/// exactly if the bytes end before the number does; TooWide exactly if the fifth byte is above 0x0F.
#[tactic(auto, using(crate::proofs::Digits::digits_fit), unfolding(crate::specs::Words::uleb128_of))]
pub fn uleb128(bytes: &[u8], at: usize) -> Result<(u32, usize), WordFault>
    requires { at ≤ length bytes.now }
    ensures { result ≡ uleb128_of bytes.now at }
{
    let rest = &bytes[at..];
    let last = continuation_count(rest);
    if rest.len() <= last {
        return Err(WordFault::Ends);
    }
    if last == ULEB128_BYTES - 1 && rest[ULEB128_BYTES - 1] > ULEB128_LAST {
        return Err(WordFault::TooWide);
    }
    Ok((base_128(&rest[..last + 1]), at + last + 1))
}
