//! The values that relocations write into their fields (IHI 0044, "Relocation types"; docs/rules/linking.md).
ghost use Rattle.std.specs.Prelude.{◌≡◌, ◌+◌, ◌*◌, ◌^◌, ◌<◌, ◌≤◌, length, Option, Some, None};
ghost use Rattle.thumb_isa.specs.declared.instr.Instr.TheVariants.{BCond, B, Bl};
ghost use Rattle.thumb_encode.specs.Codes.{encode_result};
ghost use Rattle.asm_relocatable.specs.Relocations.{kind_of, width};
ghost use Rattle.eh_link.specs.Fields.{absolute, relative, distance, branch, filling, change_by, change_of};

use crate::names::Meaning;
use asm_relocatable::relocation::{FieldKind, kind_of, width};
use byteorder::{ByteOrder, LittleEndian};
use eh_codes::row::{PREL31_LIMIT, prel31_to};
use thumb_encode::code::Code;
use thumb_encode::encode::encode;
use thumb_isa::encode_fault::EncodeFault;
use thumb_isa::instr::Instr;

/// What a relocation writes to a section.
#[derive(Clone, Copy)]
pub enum Change {
    /// Nothing.
    Keep,
    /// A halfword, lowest byte first.
    Half(u16),
    /// A word, lowest byte first.
    Word(u32),
    /// Nothing, since the branch can't be encoded.
    Unreachable,
}

/// (S + A) | T, as the standard writes it.
fn absolute(meaning: Meaning, addend: i32) -> u32
    ensures { result ≡ absolute meaning addend }
{
    meaning.address.wrapping_add_signed(addend) | u32::from(meaning.function)
}

/// ((S + A) | T) - P.
fn relative(meaning: Meaning, addend: i32, place: u32) -> u32
    ensures { result ≡ relative meaning addend place }
{
    absolute(meaning, addend).wrapping_sub(place)
}

/// S + A - P, without wrapping.
fn distance(meaning: Meaning, addend: i32, place: u32) -> i64
    ensures { result ≡ distance meaning addend place }
{
    i64::from(meaning.address) + i64::from(addend) - i64::from(place)
}

/// The code of a branch, or `Unreachable`.
fn branch(code: Result<Code, EncodeFault>) -> Change
    ensures { result ≡ branch code }
{
    match code {
        Ok(Code::Half(first)) => Change::Half(first),
        Ok(Code::Pair(first, second)) => Change::Word(
            u32::from(first) + u32::from(second) * 0x1_0000,
        ),
        Err(_) => Change::Unreachable,
    }
}

/// A BL with this distance.
fn call(distance: i64) -> Change
    ensures { result ≡ branch (encode_result (Bl distance)) }
{
    match i32::try_from(distance) {
        Ok(off) => branch(encode(&Instr::Bl { off })),
        Err(_) => Change::Unreachable,
    }
}

/// A B with this distance.
fn jump(distance: i64) -> Change
    ensures { result ≡ branch (encode_result (B distance)) }
{
    match i32::try_from(distance) {
        Ok(off) => branch(encode(&Instr::B { off })),
        Err(_) => Change::Unreachable,
    }
}

/// A conditional B with this distance.
fn cond_jump(cond: u8, distance: i64) -> Change
    ensures { result ≡ branch (encode_result (BCond cond distance)) }
{
    match i32::try_from(distance) {
        Ok(off) => branch(encode(&Instr::BCond { cond, off })),
        Err(_) => Change::Unreachable,
    }
}

/// What a field at the address `place` is filled with; `there` are the bytes from the field on.
fn filling(kind: FieldKind, meaning: Meaning, addend: i32, place: u32, there: &[u8]) -> Change
    requires { width kind ≤ length there.now }
    ensures { result ≡ filling kind meaning addend place there.now }
{
    match kind {
        FieldKind::Absolute => Change::Word(absolute(meaning, addend)),
        FieldKind::Relative => Change::Word(relative(meaning, addend, place)),
        FieldKind::Prel31 => {
            let kept = LittleEndian::read_u32(there) / PREL31_LIMIT * PREL31_LIMIT;
            Change::Word(prel31_to(place, absolute(meaning, addend)) + kept)
        }
        FieldKind::Call => call(distance(meaning, addend, place)),
        FieldKind::Jump => jump(distance(meaning, addend, place)),
        FieldKind::CondJump => {
            let cond = LittleEndian::read_u16(there) / 0x100 % 0x10;
            cond_jump(cond as u8, distance(meaning, addend, place))
        }
    }
}

/// The same by the number of the relocation. Nothing if the bytes end within the field.
pub(crate) fn change_by(
    number: u32,
    meaning: Option<Meaning>,
    addend: i32,
    place: u32,
    there: &[u8],
) -> Change
    ensures { result ≡ change_by (kind_of number) meaning addend place there.now }
{
    let Some(kind) = kind_of(number) else {
        return Change::Keep;
    };
    let Some(meaning) = meaning else {
        return Change::Keep;
    };
    if width(kind) > there.len() {
        return Change::Keep;
    }
    filling(kind, meaning, addend, place, there)
}
