//! The bytes of instructions, and of the filling of a text (docs/rules/sources.md; DDI 0419).
ghost use Rattle.std.specs.Prelude.{◌≡◌, ◌<◌, ◌++◌, OnOk, replicate};
ghost use Rattle.byteorder.specs.Endian.{little_bytes};
ghost use Rattle.eh_word.specs.Bytes.{gap};
ghost use Rattle.asm_layout.specs.Given.{bytes_of};
ghost use Rattle.asm_object.specs.Bytes.{byte_bytes, half_bytes, word_bytes, code_bytes, filling_bytes};

use asm_layout::given::Width;
use asm_relocatable::object::Octets;
use eh_word::bytes::gap;
use std::alloc::AllocError;
use thumb_encode::code::Code;

/// Appends a number modulo 256 as a byte.
fn push_byte(bytes: &mut Octets, n: u32) -> Result<(), AllocError>
    ensures { OnOk result (bytes.new ≡ bytes.old ++ byte_bytes n) }
{
    bytes.push((n % 256) as u8)
}

/// Appends the low two bytes of a number, lowest first.
#[tactic(auto, using(crate::proofs::ByteLemmas::low_half))]
pub fn push_half(bytes: &mut Octets, n: u32) -> Result<(), AllocError>
    ensures { OnOk result (bytes.new ≡ bytes.old ++ half_bytes n) }
{
    bytes.push_half((n % 0x1_0000) as u16)
}

/// Appends the low bytes of a number, as many as a field of this width has, lowest first.
pub fn push_field(bytes: &mut Octets, width: Width, n: u32) -> Result<(), AllocError>
    ensures { OnOk result (bytes.new ≡ bytes.old ++ little_bytes (bytes_of width) n) }
{
    match width {
        Width::Byte => push_byte(bytes, n),
        Width::Half => push_half(bytes, n),
        Width::Word => bytes.push_word(n),
    }
}

/// Appends the halfwords of an instruction.
pub fn push_code(bytes: &mut Octets, code: Code) -> Result<(), AllocError>
    ensures { OnOk result (bytes.new ≡ bytes.old ++ code_bytes code) }
{
    match code {
        Code::Half(half) => push_half(bytes, u32::from(half)),
        Code::Pair(first, second) => {
            push_half(bytes, u32::from(first))?;
            push_half(bytes, u32::from(second))
        }
    }
}

/// The instruction that fills a text: `mov r8, r8`.
pub const FILLER: u32 = 0x46c0;

/// Fills a text up to the next multiple: a zero byte if the place is odd, then filler instructions.
pub fn push_filling(bytes: &mut Octets, place: u64, multiple: u64) -> Result<(), AllocError>
    requires { 0 < multiple }
    ensures { OnOk result (bytes.new ≡ bytes.old ++ filling_bytes (gap place multiple)) }
{
    let count = gap(place, multiple);
    if count % 2 == 1 {
        bytes.push(0)?;
    }
    for _i in 0..count / 2 {
        push_half(bytes, FILLER)?;
    }
    Ok(())
}
