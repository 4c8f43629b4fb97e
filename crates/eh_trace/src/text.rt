//! The parts of a trace's lines: addresses, offsets, names, bytes and code locations: docs/rules/phases-and-exceptions.md.
ghost use Rattle.std.specs.Prelude.{◌≡◌, ◌<◌, ◌≤◌, ◌++◌, [], map, OnOk, option_copied};
ghost use Rattle.eh_word.specs.Address.{address_text};
ghost use Rattle.eh_trace.specs.Text.{without_zeros, offset_text, printable_byte, type_text, bytes_text, named_place, holder, place_text};

use eh_word::address_text;
use elf_image::{Function, Image};
use std::alloc::{AllocError, Global};

/// The most bytes of a type's name that a line shows.
pub const MAX_TYPE_NAME: usize = 64;

/// Digits without leading zeros; the last digit stays.
#[tactic(auto, using(crate::proofs::Places::last_digit, crate::proofs::Places::zero_digit, crate::proofs::Places::other_digit))]
fn without_zeros(digits: &[u8]) -> &[u8]
    ensures { result.now ≡ without_zeros digits.now }
{
    let mut at = 0;
    while at + 1 < digits.len() && digits[at] == b'0' {
        at += 1;
    }
    &digits[at..]
}

/// Writes an address: eight upper-case hexadecimal digits.
pub(crate) fn push_address(out: &mut Vec<u8>, n: u32) -> Result<(), AllocError>
    ensures { OnOk result (out.new.items ≡ out.old.items ++ address_text n) }
{
    let digits = address_text(n);
    out.extend_from_slice(&digits)
}

/// Writes an offset: upper-case hexadecimal digits without leading zeros.
fn push_offset(out: &mut Vec<u8>, n: u32) -> Result<(), AllocError>
    ensures { OnOk result (out.new.items ≡ out.old.items ++ offset_text n) }
{
    let digits = address_text(n);
    out.extend_from_slice(without_zeros(&digits))
}

/// A byte as a line shows it.
fn printable_byte(b: u8) -> u8
    ensures { result ≡ printable_byte b }
{
    if (33..=126).contains(&b) { b } else { b'?' }
}

/// Writes a text, each byte as a line shows it.
fn push_printed(out: &mut Vec<u8>, text: &[u8]) -> Result<(), AllocError>
    ensures { OnOk result (out.new.items ≡ out.old.items ++ map printable_byte text.now) }
{
    for b in text {
        out.push(printable_byte(*b))?;
    }
    Ok(())
}

/// Writes the name of a type: at most 64 bytes, and a question mark for an empty one.
#[tactic(auto, using(crate::proofs::Places::type_shown), unfolding(crate::specs::Text::type_text))]
pub(crate) fn push_type_name(out: &mut Vec<u8>, name: &[u8]) -> Result<(), AllocError>
    ensures { OnOk result (out.new.items ≡ out.old.items ++ type_text name.now) }
{
    if name.is_empty() {
        return out.extend_from_slice(b"?");
    }
    let shown = name.len().min(MAX_TYPE_NAME);
    push_printed(out, &name[..shown])
}

/// Writes bytes as lower-case hexadecimal digits, and a dash for no bytes.
#[tactic(auto, unfolding(crate::specs::Text::bytes_text))]
pub(crate) fn push_bytes(alloc: Global, out: &mut Vec<u8>, bytes: &[u8]) -> Result<(), AllocError>
    ensures { OnOk result (out.new.items ≡ out.old.items ++ bytes_text bytes.now) }
{
    if bytes.is_empty() {
        return out.extend_from_slice(b"-");
    }
    let digits = hex::encode(alloc, bytes)?;
    out.extend_from_slice(digits.as_bytes())
}

/// The function that contains the address; None if there is none.
#[tactic(auto, using(crate::proofs::Places::found_at, crate::proofs::Places::found_none))]
fn function_holding<'b, 'a>(image: &'b Image<'a>, a: u32) -> Option<&'b Function<'a>>
    ensures { option_copied result ≡ holder image.now a }
{
    let number = image.function_of(a)?;
    let functions = image.functions();
    if number < functions.len() {
        Some(&functions[number])
    } else {
        None
    }
}

/// Writes a code location: the name of its function, and the offset in bytes from the function's start.
pub fn push_named_place(out: &mut Vec<u8>, name: &[u8], offset: u32) -> Result<(), AllocError>
    ensures { OnOk result (out.new.items ≡ out.old.items ++ named_place name.now offset) }
{
    push_printed(out, name)?;
    out.extend_from_slice(b"+")?;
    push_offset(out, offset)
}

/// Writes a code location: its function and the offset in bytes, or a question mark and the address.
#[tactic(auto, unfolding(crate::specs::Text::place_text))]
pub(crate) fn push_place(out: &mut Vec<u8>, image: &Image, a: u32) -> Result<(), AllocError>
    ensures { OnOk result (out.new.items ≡ out.old.items ++ place_text image.now a) }
{
    match function_holding(image, a) {
        Some(function) => { push_named_place(out, function.name, a.saturating_sub(function.start)) }
        None => push_named_place(out, b"?", a),
    }
}
