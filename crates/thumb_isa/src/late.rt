//! Decodes by the second profile's own rows (specs/Rows.antt, `late_rows`).
ghost use Rattle.std.specs.Prelude.{◌≡◌, ◌<◌, ◌≤◌, ◌⊎◌, ◌/◌, ◌^◌, true, false, if◌then◌else◌};
ghost use Rattle.thumb_isa.specs.Fields.{field};
ghost use Rattle.thumb_isa.specs.Laws.{late_of};
ghost use Rattle.thumb_isa.specs.Rows.{wide_imm};
ghost use Rattle.thumb_isa.specs.Range.{IsInRange, IsGeneral};

use crate::decode::branch_offset;
use crate::fields::{field, field_8};
use crate::instr::{Decoded, Instr};

/// Decodes a pair of halfwords by the second profile's own rows alone.
#[tactic(auto, using(crate::proofs::LateTable::late_table))]
pub fn decode_late(first: u16, second: u16) -> Decoded
    ensures row { result ≡ late_of first second }
    ensures range { IsInRange result }
{
    match first >> 8 {
        0xb1 | 0xb3 | 0xb9 | 0xbb => Decoded::Is(
            Instr::Cbz {
                nonzero: field(first, 11, 1) == 1,
                n: field_8(first, 0, 3),
                off: i32::from(field(first, 9, 1) * 64 + field(first, 3, 5) * 2),
            },
            2,
        ),
        0xf0..=0xf7 => long(first, second),
        0xfb => division(first, second),
        _ => Decoded::Undefined,
    }
}

/// Pairs whose first halfword begins with 11110.
#[tactic(auto, using(crate::proofs::LateTable::late_pairs))]
fn long(first: u16, second: u16) -> Decoded
    requires low { 0xf000 ≤ first }
    requires high { first < 0xf800 }
    ensures row { result ≡ late_of first second }
    ensures range { IsInRange result }
{
    match (first, second) {
        (_, 0x9000..=0x9fff | 0xb000..=0xbfff) => Decoded::Is(
            Instr::BWide {
                off: branch_offset(first, second),
            },
            4,
        ),
        (0xf240..=0xf24f | 0xf640..=0xf64f, 0x0000..=0x7fff) => move_wide(first, second),
        (0xf2c0..=0xf2cf | 0xf6c0..=0xf6cf, 0x0000..=0x7fff) => move_top(first, second),
        _ => Decoded::Undefined,
    }
}

/// MOVW.
#[tactic(auto, using(crate::proofs::LateTable::mov_w, crate::proofs::LateTable::mov_w_none))]
fn move_wide(first: u16, second: u16) -> Decoded
    requires low { 0xf240 ≤ first }
    requires high { first < 0xf650 }
    requires form { field first 0 10 / 2 ^ 4 ≡ 0x24 }
    requires short { second < 0x8000 }
    ensures row { result ≡ late_of first second }
    ensures range { IsInRange result }
{
    let d = field_8(second, 8, 4);
    if is_general(d) {
        Decoded::Is(
            Instr::MovW {
                d,
                imm: sixteen_bits(first, second),
            },
            4,
        )
    } else {
        Decoded::Unpredictable
    }
}

/// MOVT.
#[tactic(auto, using(crate::proofs::LateTable::mov_t, crate::proofs::LateTable::mov_t_none))]
fn move_top(first: u16, second: u16) -> Decoded
    requires low { 0xf2c0 ≤ first }
    requires high { first < 0xf6d0 }
    requires form { field first 0 10 / 2 ^ 4 ≡ 0x2c }
    requires short { second < 0x8000 }
    ensures row { result ≡ late_of first second }
    ensures range { IsInRange result }
{
    let d = field_8(second, 8, 4);
    if is_general(d) {
        Decoded::Is(
            Instr::MovT {
                d,
                imm: sixteen_bits(first, second),
            },
            4,
        )
    } else {
        Decoded::Unpredictable
    }
}

/// The 16-bit immediate of MOVW and MOVT: imm4:i:imm3:imm8.
fn sixteen_bits(first: u16, second: u16) -> u32
    ensures value { result ≡ wide_imm first second }
    ensures fits { result < 2 ^ 16 }
{
    u32::from(field(first, 0, 4)) * 0x1000
        + u32::from(field(first, 10, 1)) * 0x800
        + u32::from(field(second, 12, 3)) * 0x100
        + u32::from(field(second, 0, 8))
}

/// Whether a register is neither sp nor pc.
fn is_general(register: u8) -> bool
    requires { register < 16 }
    ensures yes { result ≡ true → IsGeneral register }
    ensures no { result ≡ false → (register ≡ 13) ⊎ (register ≡ 15) }
{
    register != 13 && register != 15
}

/// SDIV or UDIV.
#[tactic(auto, using(crate::proofs::LateTable::late_divisions))]
fn division(first: u16, second: u16) -> Decoded
    requires low { 0xfb00 ≤ first }
    requires high { first < 0xfc00 }
    ensures row { result ≡ late_of first second }
    ensures range { IsInRange result }
{
    match (first, field(second, 12, 4), field(second, 4, 4)) {
        (0xfb90..=0xfb9f, 15, 15) => decode_division(true, first, second),
        (0xfbb0..=0xfbbf, 15, 15) => decode_division(false, first, second),
        _ => Decoded::Undefined,
    }
}

/// SDIV or UDIV, if the second halfword fits.
#[tactic(auto, using(crate::proofs::LateTable::late_divisions))]
fn decode_division(signed: bool, first: u16, second: u16) -> Decoded
    requires low { (if signed then 0xfb90 else 0xfbb0) ≤ first }
    requires below { first < (if signed then 0xfba0 else 0xfbc0) }
    requires high { 0xf000 ≤ second }
    requires ones { field second 4 4 ≡ 15 }
    ensures row { result ≡ late_of first second }
    ensures range { IsInRange result }
{
    let d = field_8(second, 8, 4);
    let n = field_8(first, 0, 4);
    let m = field_8(second, 0, 4);
    if is_general(n) && is_general(d) && is_general(m) {
        Decoded::Is(Instr::Div { signed, d, n, m }, 4)
    } else {
        Decoded::Unpredictable
    }
}
