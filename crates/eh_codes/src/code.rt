//! The unwinding instructions of IHI 0038 ("Frame unwinding instructions") and their bytes (docs/rules/unwind-tables.md has
//! the table).
ghost use Rattle.std.specs.Prelude.{◌≡◌, ℕ, ◌+◌, ◌*◌, ◌/◌, ◌%◌, ◌^◌, ◌<◌, ◌≤◌, ◌++◌, OnOk};
ghost use Rattle.eh_codes.specs.Bytes.{code_bytes, shortest_uleb128, HasBytes};

use std::alloc::AllocError;

/// The first byte of `00xxxxxx`, without its operand bits.
pub const RAISE: u8 = 0x00;
/// The first byte of `01xxxxxx`, without its operand bits.
pub const LOWER: u8 = 0x40;
/// The first byte of `1000iiii iiiiiiii`, without its operand bits.
pub const POP_MASK: u8 = 0x80;
/// The first byte of `1001nnnn`, without its operand bits.
pub const RESTORE: u8 = 0x90;
/// The first byte of `10100nnn`, without its operand bits.
pub const POP_RANGE: u8 = 0xA0;
/// The first byte of `10101nnn`, without its operand bits.
pub const POP_RANGE_AND_LR: u8 = 0xA8;
/// "Finish", which also pads an entry after its instructions.
pub const FINISH: u8 = 0xB0;
/// The first byte of `10110001 0000iiii`.
pub const POP_LOW: u8 = 0xB1;
/// The first byte of `10110010`, which a ULEB128 number follows.
pub const RAISE_LONG: u8 = 0xB2;
/// How many bytes `10110010` adds to the virtual stack pointer if its number is 0.
pub const LONG_LEAST: u32 = 0x204;

/// An unwinding instruction. Stack adjustments are in words; `Raise` and `Lower` move by one more than their number.
#[derive(Clone, Copy)]
pub enum UnwindCode {
    /// `00xxxxxx`: adds 4x + 4 to the virtual stack pointer.
    Raise(u8),
    /// `01xxxxxx`: subtracts 4x + 4 from the virtual stack pointer.
    Lower(u8),
    /// `10000000 00000000`: refuse to unwind.
    Refuse,
    /// `1000iiii iiiiiiii`: pops r4 to r15 by a mask; bit 0 is r4.
    PopMask(u16),
    /// `1001nnnn`: sets the virtual stack pointer to register n.
    Restore(u8),
    /// `10100nnn`: pops r4 to r4+n.
    PopRange(u8),
    /// `10101nnn`: pops r4 to r4+n, and lr.
    PopRangeAndLr(u8),
    /// `10110000`: finish.
    Finish,
    /// `10110001 0000iiii`: pops r0 to r3 by a mask; bit 0 is r0.
    PopLow(u8),
    /// `10110010` and a ULEB128 number u: adds 0x204 + 4u to the virtual stack pointer.
    RaiseLong(u32),
}

/// Appends the shortest ULEB128 encoding of a number of at most 14 bits.
fn push_uleb128(bytes: &mut Vec<u8>, number: u32) -> Result<(), AllocError>
    requires { number < 2 ^ 14 }
    ensures { OnOk result (bytes.new.items ≡ bytes.old.items ++ shortest_uleb128 number) }
{
    if number < 128 {
        bytes.push(number as u8)?;
    } else {
        bytes.push((128 + number % 128) as u8)?;
        bytes.push((number / 128) as u8)?;
    }
    Ok(())
}

/// Appends the bytes of an instruction whose operands fit. The number of `RaiseLong` takes one or two bytes. Err if
/// memory runs out.
pub fn push_code(bytes: &mut Vec<u8>, code: UnwindCode) -> Result<(), AllocError>
    requires { HasBytes code }
    ensures { OnOk result (bytes.new.items ≡ bytes.old.items ++ code_bytes code) }
{
    match code {
        UnwindCode::Raise(words) => bytes.push(RAISE + words)?,
        UnwindCode::Lower(words) => bytes.push(LOWER + words)?,
        UnwindCode::Refuse => {
            bytes.push(POP_MASK)?;
            bytes.push(0)?;
        }
        UnwindCode::PopMask(mask) => {
            bytes.push(POP_MASK + (mask / 256) as u8)?;
            bytes.push((mask % 256) as u8)?;
        }
        UnwindCode::Restore(register) => bytes.push(RESTORE + register)?,
        UnwindCode::PopRange(last) => bytes.push(POP_RANGE + last)?,
        UnwindCode::PopRangeAndLr(last) => bytes.push(POP_RANGE_AND_LR + last)?,
        UnwindCode::Finish => bytes.push(FINISH)?,
        UnwindCode::PopLow(mask) => {
            bytes.push(POP_LOW)?;
            bytes.push(mask)?;
        }
        UnwindCode::RaiseLong(words) => {
            bytes.push(RAISE_LONG)?;
            push_uleb128(bytes, words)?;
        }
    }
    Ok(())
}
