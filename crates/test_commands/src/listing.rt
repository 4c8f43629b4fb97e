//! The contents of an image as text.
use crate::outcome::push_line;
use elf_image::{Image, Segment, read_image};
use std::alloc::{AllocError, Global};

/// The number of bytes in a line.
const IN_LINE: usize = 32;

/// Appends bytes as a line of hexadecimal digits.
fn push_digits(alloc: Global, text: &mut Vec<u8>, bytes: &[u8]) -> Result<(), AllocError> {
    let digits = hex::encode(alloc, bytes)?;
    push_line(text, digits.as_bytes())
}

/// Appends a segment: a line with its start, and its bytes.
fn push_segment(alloc: Global, text: &mut Vec<u8>, segment: &Segment) -> Result<(), AllocError> {
    let start = segment.start();
    let head = format!(in alloc; "segment {start:X}")?;
    push_line(text, head.as_bytes())?;
    for bytes in segment.bytes().chunks(IN_LINE) {
        push_digits(alloc, text, bytes)?;
    }
    Ok(())
}

/// The name of the function that holds the entry.
fn entry_name<'a>(image: &Image<'a>) -> Option<&'a [u8]> {
    let number = image.function_of(image.entry())?;
    let function = image.functions().get(number)?;
    Some(function.name)
}

/// The name of the function that holds the entry of an image; an empty line for a file that is none.
pub fn entry(alloc: Global, file: &[u8]) -> Result<Vec<u8>, AllocError> {
    let mut text = Vec::new(alloc);
    match read_image(alloc, file) {
        Ok(image) => push_line(&mut text, entry_name(&image).unwrap_or(b""))?,
        Err(_fault) => push_line(&mut text, b"")?,
    }
    Ok(text)
}

/// The segments of an image; nothing for a file that is none.
pub fn segments(alloc: Global, file: &[u8]) -> Result<Vec<u8>, AllocError> {
    let mut text = Vec::new(alloc);
    if let Ok(image) = read_image(alloc, file) {
        for segment in image.segments() {
            push_segment(alloc, &mut text, segment)?;
        }
    }
    Ok(text)
}
