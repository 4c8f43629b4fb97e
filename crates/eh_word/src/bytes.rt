//! Zeros, multiples, and little-endian numbers of 2 and 4 bytes.
ghost use Rattle.std.specs.Prelude.{◌≡◌, ◌+◌, ◌^◌, ◌<◌, ◌≤◌, ◌++◌, OnOk, OnErr};
ghost use Rattle.byteorder.specs.Endian.{little_bytes};
ghost use Rattle.eh_word.specs.Bytes.{zeros, next_multiple, gap};

use std::alloc::AllocError;

/// The least multiple of `step` that is at least `n`.
pub fn next_multiple(n: u64, step: u64) -> u64
    requires some { 0 < step }
    requires fits { n + step ≤ 2 ^ 64 }
    ensures { result ≡ next_multiple n step }
{
    (n + (step - 1)) / step * step
}

/// The same for 32-bit numbers.
pub fn next_multiple_32(n: u32, step: u32) -> u32
    requires some { 0 < step }
    requires fits { n + step ≤ 2 ^ 32 }
    ensures { result ≡ next_multiple n step }
{
    (n + (step - 1)) / step * step
}

/// The distance from `n` to the next multiple of `step`.
pub fn gap(n: u64, step: u64) -> u64
    requires { 0 < step }
    ensures { result ≡ gap n step }
{
    (step - n % step) % step
}

/// Appends `count` zero bytes. If memory runs out, nothing is appended.
#[tactic(auto, unfolding(crate::specs::Bytes::zeros))]
pub fn push_zeros(out: &mut Vec<u8>, count: usize) -> Result<(), AllocError>
    ensures ok { OnOk result (out.new.items ≡ out.old.items ++ zeros count) }
    ensures err { OnErr result (out.new.items ≡ out.old.items) }
{
    match out.len().checked_add(count) {
        Some(len) => out.resize(len, 0),
        None => Err(AllocError),
    }
}

/// Appends a halfword, lowest byte first. If memory runs out, nothing is appended.
pub fn push_half(out: &mut Vec<u8>, half: u16) -> Result<(), AllocError>
    ensures ok { OnOk result (out.new.items ≡ out.old.items ++ little_bytes 2 half) }
    ensures err { OnErr result (out.new.items ≡ out.old.items) }
{
    out.extend_from_slice(&half.to_le_bytes())
}

/// Appends a word, lowest byte first. If memory runs out, nothing is appended.
pub fn push_word(out: &mut Vec<u8>, word: u32) -> Result<(), AllocError>
    ensures ok { OnOk result (out.new.items ≡ out.old.items ++ little_bytes 4 word) }
    ensures err { OnErr result (out.new.items ≡ out.old.items) }
{
    out.extend_from_slice(&word.to_le_bytes())
}
