//! The bytecode of unwind directives (IHI 0038, "Frame unwinding instructions"; docs/rules/sources.md).
ghost use Rattle.std.specs.Prelude.{◌≡◌, ℕ, ◌+◌, ◌*◌, ◌/◌, ◌%◌, ◌^◌, ◌<◌, ◌≤◌, ◌==◌, ◌++◌, OnOk, IfSome, flat_map, IsTrue, not, position};
ghost use Rattle.eh_codes.specs.Bytes.{code_bytes, HasBytes};
ghost use Rattle.asm_unwind.specs.declared.directive.TheConstants.{MOST_PAD};
ghost use Rattle.asm_unwind.specs.Codes.{ranges, range_of, high_code, save_codes, pad_codes, lower_codes, directive_codes, IsWritable};

use crate::directive::UnwindDirective;
use eh_codes::code::LONG_LEAST;
use eh_codes::{UnwindCode, push_code};
use std::alloc::AllocError;

/// The most bytes by which a one-byte instruction moves the virtual stack pointer.
pub const MOST_STEP: u32 = 0x100;
/// The operand of that instruction: the words it moves by, less one.
pub const WORDS_OF_MOST_STEP: u8 = 0x3F;

/// The n such that a mask means r4 to r4+n; bit 0 is r4. None if there is no such n.
fn range_of(mask: u16) -> Option<u8>
    ensures value { result ≡ range_of mask }
    ensures small { IfSome result (λ last. last < 8) }
{
    match mask {
        0x01 => Some(0),
        0x03 => Some(1),
        0x07 => Some(2),
        0x0F => Some(3),
        0x1F => Some(4),
        0x3F => Some(5),
        0x7F => Some(6),
        0xFF => Some(7),
        _ => None,
    }
}

/// The instruction that pops a mask of r4 to lr.
#[tactic(auto, unfolding(crate::specs::Codes::high_code))]
fn high_code(mask: u16) -> UnwindCode
    requires { mask < 0x1000 }
    ensures code { result ≡ high_code mask }
    ensures fits { HasBytes result }
{
    if let Some(last) = range_of(mask) {
        UnwindCode::PopRange(last)
    } else if mask < 0x400 {
        UnwindCode::PopMask(mask)
    } else if let Some(last) = range_of(mask - 0x400) {
        UnwindCode::PopRangeAndLr(last)
    } else {
        UnwindCode::PopMask(mask)
    }
}

/// Appends the instructions that pop a register list: first those for r0 to r3, then those for r4 to lr.
fn push_save(bytes: &mut Vec<u8>, registers: u16) -> Result<(), AllocError>
    requires { registers < 2 ^ 15 }
    ensures { OnOk result (bytes.new.items ≡ bytes.old.items ++ flat_map code_bytes (save_codes registers)) }
{
    let low = registers % 16;
    if low != 0 {
        push_code(bytes, UnwindCode::PopLow(low as u8))?;
    }
    let high = registers / 16;
    if high != 0 {
        push_code(bytes, high_code(high))?;
    }
    Ok(())
}

/// Appends the instructions that add a number of bytes to the stack pointer.
fn push_pad(bytes: &mut Vec<u8>, size: u32) -> Result<(), AllocError>
    requires { size ≤ MOST_PAD }
    ensures { OnOk result (bytes.new.items ≡ bytes.old.items ++ flat_map code_bytes (pad_codes size)) }
{
    if size <= MOST_STEP {
        push_code(bytes, UnwindCode::Raise((size.saturating_sub(4) / 4) as u8))
    } else if size <= 2 * MOST_STEP {
        push_code(bytes, UnwindCode::Raise(WORDS_OF_MOST_STEP))?;
        push_code(
            bytes,
            UnwindCode::Raise((size.saturating_sub(MOST_STEP + 4) / 4) as u8),
        )
    } else {
        push_code(
            bytes,
            UnwindCode::RaiseLong(size.saturating_sub(LONG_LEAST) / 4),
        )
    }
}

/// Appends the instructions that subtract a number of bytes: as many of the greatest step as fit, then the rest.
fn push_lower(bytes: &mut Vec<u8>, size: u32) -> Result<(), AllocError>
    ensures { OnOk result (bytes.new.items ≡ bytes.old.items ++ flat_map code_bytes (lower_codes size)) }
{
    if size == 0 {
        return Ok(());
    }
    let past = size.saturating_sub(4);
    for _step in 0..past / MOST_STEP {
        push_code(bytes, UnwindCode::Lower(WORDS_OF_MOST_STEP))?;
    }
    push_code(bytes, UnwindCode::Lower((past % MOST_STEP / 4) as u8))
}

/// Appends the instructions that undo a directive.
pub fn push_directive(bytes: &mut Vec<u8>, directive: UnwindDirective) -> Result<(), AllocError>
    requires { IsWritable directive }
    ensures { OnOk result (bytes.new.items ≡ bytes.old.items ++ flat_map code_bytes (directive_codes directive)) }
{
    match directive {
        UnwindDirective::Save(registers) => push_save(bytes, registers),
        UnwindDirective::Pad(size) => push_pad(bytes, size),
        UnwindDirective::SetFp(register, offset) => {
            push_code(bytes, UnwindCode::Restore(register))?;
            push_lower(bytes, offset)
        }
        _ => Ok(()),
    }
}
