//! What a name in a file of cases stands for: a text, bytes in hexadecimal digits, an image made by hand, or one that is built.
use crate::calls::command_output;
use crate::hand_image::image_of;
use crate::programs::Programs;
use crate::texts::{Texts, text_of, times_of};
use std::alloc::{AllocError, Global};

/// The bytes of hexadecimal digits, which may have blanks between them; no bytes if they aren't digits.
fn decode_hex(alloc: Global, digits: &str) -> Result<Vec<u8>, AllocError> {
    let digits = digits.replace(alloc, " ", "")?;
    Ok(hex::decode(alloc, digits.as_str()).unwrap_or(Vec::new(alloc)))
}

/// Bytes from hexadecimal digits: items separated by `;`, each alone or as `N * DIGITS`.
fn bytes_of_digits(alloc: Global, items: &str) -> Result<Vec<u8>, AllocError> {
    let mut bytes = Vec::new(alloc);
    for item in items.split(';') {
        let (times, digits) = times_of(item);
        let one = decode_hex(alloc, digits)?;
        for _ in 0..times.unwrap_or(1) {
            bytes.extend_from_slice(one.as_slice())?;
        }
    }
    Ok(bytes)
}

/// Replaces the first occurrence of some bytes by others.
fn replace_bytes(bytes: &mut [u8], old: &[u8], new: &[u8]) {
    let place = bytes.windows(old.len().max(1)).position(|some| some == old);
    if let Some(place) = place {
        for (byte, other) in bytes.iter_mut().skip(place).zip(new) {
            *byte = *other;
        }
    }
}

/// Makes a change of bytes, `NEW for OLD`, if there is one.
fn make_change(alloc: Global, bytes: &mut [u8], change: &str) -> Result<(), AllocError> {
    if let Some((new, old)) = change.split_once(" for ") {
        let new = bytes_of_digits(alloc, new)?;
        let old = bytes_of_digits(alloc, old)?;
        replace_bytes(bytes, old.as_slice(), new.as_slice());
    }
    Ok(())
}

/// The image of sources, with a change of bytes if there is one: `FILE.. with NEW for OLD`.
fn build_sources<P: Programs>(
    programs: &P,
    alloc: Global,
    texts: &mut Texts,
    rest: &str,
) -> Result<Vec<u8>, AllocError> {
    let (names, change) = rest.split_once(" with ").unwrap_or((rest, ""));
    let command = format!(in alloc; "build {names}")?;
    let mut bytes = command_output(programs, alloc, texts, command.as_str())?;
    make_change(alloc, bytes.as_mut_slice(), change)?;
    Ok(bytes)
}

/// Defines a name. `''` is the empty name.
pub fn define<P: Programs>(
    programs: &P,
    alloc: Global,
    texts: &mut Texts,
    name: &str,
    value: &str,
) -> Result<(), AllocError> {
    let (what, rest) = value.split_once(' ').unwrap_or((value, ""));
    let bytes = match what {
        "hex" => bytes_of_digits(alloc, rest)?,
        "image" => image_of(alloc, texts, rest)?,
        "built" => build_sources(programs, alloc, texts, rest)?,
        _ => text_of(alloc, texts, value)?,
    };
    texts.put(alloc, name.strip_prefix("''").unwrap_or(name), bytes)
}
