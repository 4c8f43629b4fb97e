//! The handmade file: what is read of it and of changed copies, and from which parts it is written. Its text has lines of bytes, two digits
//! each, and comment lines with a `#`.
use crate::images::answers::{say_file, tell_of_image};
use crate::images::parts::{copy_of, say_written};
use elf_image::fault::ImageFault;
use elf_image::read::read_image;
use std::alloc::Global;
use test_rows::{Text, Unanswered, first_word};

/// Questions on the handmade file: `read`, `first FROM TO`, `changed AT BYTE..`, `second KIND ADDRESS SIZE` and `written ENTRY START`, and
/// those on its image.
pub fn tell(text: &mut Text, lines: &str, question: &str) {
    let (what, rest) = first_word(question);
    let mut file = bytes_of(text, lines);
    tell_of_file(text, &mut file, what, rest);
}

fn tell_of_file(text: &mut Text, file: &mut Vec<u8>, what: &str, rest: &str) {
    match what {
        "read" => say_file(text, file),
        "first" => say_first(text, file, rest),
        "changed" => say_changed(text, file, rest),
        "second" => say_second(text, file, rest),
        "written" => say_written(text, file, rest),
        _ => tell_of_image(text, file, what, rest),
    }
}

/// Appends bytes, if there is memory.
fn push(text: &mut Text, bytes: &mut Vec<u8>, more: &[u8]) {
    text.note(bytes.extend_from_slice(more));
}

/// Appends the bytes of a line.
fn push_line(text: &mut Text, bytes: &mut Vec<u8>, line: &str) {
    if !line.starts_with('#') {
        let more = text.bytes(line);
        push(text, bytes, &more);
    }
}

/// The bytes of a text.
fn bytes_of(text: &mut Text, lines: &str) -> Vec<u8> {
    let mut bytes = Vec::new(text.alloc());
    for line in lines.lines() {
        push_line(text, &mut bytes, line);
    }
    bytes
}

/// The first bytes of a file.
fn first_bytes(file: &[u8], count: u32) -> &[u8] {
    file.get(..count as usize).unwrap_or(file)
}

/// Why bytes are no image; None if they are one.
fn fault_of(alloc: Global, file: &[u8]) -> Option<ImageFault> {
    match read_image(alloc, file) {
        Ok(_image) => None,
        Err(why) => Some(why),
    }
}

/// Whether the prefixes of a file are refused for the same reason, for each length in a range.
fn is_same(alloc: Global, file: &[u8], from: u32, to: u32) -> bool {
    let fault = fault_of(alloc, first_bytes(file, from));
    for count in from..to {
        let other = fault_of(alloc, first_bytes(file, count.wrapping_add(1)));
        if other.is_none() || other != fault {
            return false;
        }
    }
    true
}

/// `FROM TO`: what the prefixes of the file are read as, which is the same for each length in this range.
fn say_first(text: &mut Text, file: &[u8], words: &str) {
    let (from, to) = text.first_hex(words);
    let to = text.hex(to);
    if is_same(text.alloc(), file, from, to) {
        say_file(text, first_bytes(file, from));
    } else {
        text.refuse(Unanswered::Because("not the same of each count"));
    }
}

/// Overwrites bytes from an offset on.
fn replace_bytes(file: &mut [u8], at: u32, bytes: &[u8]) {
    let mut place = at as usize;
    for byte in bytes {
        if let Some(old) = file.get_mut(place) {
            *old = *byte;
        }
        place = place.wrapping_add(1);
    }
}

/// `AT BYTE..`: what the file is read as with these bytes from an offset on.
fn say_changed(text: &mut Text, file: &mut [u8], words: &str) {
    let (at, bytes) = text.first_hex(words);
    let bytes = text.bytes(bytes);
    replace_bytes(file, at, &bytes);
    say_file(text, file);
}

/// Appends words.
fn push_words(text: &mut Text, bytes: &mut Vec<u8>, words: &[u32]) {
    for word in words {
        push(text, bytes, &word.to_le_bytes());
    }
}

/// `KIND ADDRESS SIZE`: what the file is read as with two program headers at its end. One is its own; the other makes four bytes of the
/// code a segment or an index, at an address and with a size in memory.
fn say_second(text: &mut Text, file: &mut Vec<u8>, words: &str) {
    let (kind, words) = text.first_hex(words);
    let (address, size) = text.first_hex(words);
    let size = text.hex(size);
    let own = copy_of(text, file.get(52..84).unwrap_or(&[]));
    replace_bytes(file, 0x1C, &[0x78, 1, 0, 0]);
    replace_bytes(file, 0x2C, &[2]);
    push(text, file, &own);
    push_words(text, file, &[kind, 84, address, address, 4, size, 4, 4]);
    say_file(text, file);
}
