//! Types that a text lists, one a line.
//!
//! A line has a name, a kind and the operands of the kind: `single BASE`, `many BASE FLAGS BASE FLAGS ..`, where FLAGS is a base's
//! offset_flags, and `pointer FLAGS POINTEE`; `fundamental`, `class` and `other` have none. `""` is the empty name. The types begin at
//! address 9000, 60 bytes apart, and their names 40 bytes into them. All these numbers are hexadecimal.
use test_rows::images::image_of_text;
use test_rows::{Text, Unanswered, first_word};

/// The part of an image before the types: a function, an empty index, the vtables, and a segment.
const FRONT: &str =
    "entry 8000 ; index 8000 0 ; function _start 8000 10 ; vtables ; segment 8000 8000";

const TYPES_AT: u32 = 0x9000;

const STRIDE: u32 = 0x60;
/// The offset in bytes of the name in a type's bytes.
const NAME_IN: u32 = 0x40;

/// What a text says of a name: the words after it on the first line that begins with it; no words if no line does.
pub fn words_after<'a>(lines: &'a str, name: &str) -> &'a str {
    for line in lines.lines() {
        let (other, rest) = first_word(line);
        if other == name {
            return rest;
        }
    }
    ""
}

/// The address of the first type with a name.
fn place_of(types: &str, name: &str) -> Option<u32> {
    let mut at = TYPES_AT;
    for line in types.lines() {
        if first_word(line).0 == name {
            return Some(at);
        }
        at = at.wrapping_add(STRIDE);
    }
    None
}

fn address_of_name(text: &mut Text, types: &str, name: &str) -> u32 {
    match place_of(types, name) {
        Some(at) => at,
        None => {
            text.refuse(Unanswered::Because("no such type"));
            0
        }
    }
}

/// The address of the first type of a name; for `@` and digits that address.
pub fn address(text: &mut Text, types: &str, name: &str) -> u32 {
    match name.strip_prefix('@') {
        Some(digits) => text.hex(digits),
        None => address_of_name(text, types, name),
    }
}

/// The addresses of all types.
pub fn addresses(text: &mut Text, types: &str) -> Vec<u32> {
    let mut addresses = Vec::new(text.alloc());
    let mut at = TYPES_AT;
    for _line in types.lines() {
        if addresses.push(at).is_err() {
            text.want_memory();
        }
        at = at.wrapping_add(STRIDE);
    }
    addresses
}

/// The file of an image with the types; None if it can't be made.
pub fn type_file(text: &mut Text, types: &str) -> Option<Vec<u8>> {
    let mut image = Text::new(text.alloc());
    image.say(FRONT);
    say_types(&mut image, types);
    image_of_text(text, image)
}

/// Appends the parts of the types, and a word of 0 after the last one.
fn say_types(image: &mut Text, types: &str) {
    let mut at = TYPES_AT;
    for line in types.lines() {
        say_type(image, types, at, line);
        at = at.wrapping_add(STRIDE);
    }
    write!(image, " ; words {at:X} 0");
}

/// Appends the parts of a type at an address: its words and its name.
fn say_type(image: &mut Text, types: &str, at: u32, line: &str) {
    let (name, kind) = first_word(line);
    let name_at = at.wrapping_add(NAME_IN);
    say_words(image, types, at, name_at, kind);
    if name != "\"\"" {
        write!(image, " ; text {name_at:X} {name}");
    }
}

/// Appends the words of a type at an address, with its name at another: `KIND` and what the kind has.
fn say_words(image: &mut Text, types: &str, at: u32, name_at: u32, kind: &str) {
    let (kind, rest) = first_word(kind);
    write!(image, " ; words {at:X} {kind} {name_at:X}");
    match kind {
        "single" => say_address(image, types, rest),
        "many" => say_bases(image, types, rest),
        "pointer" => say_pointer(image, types, rest),
        _ => {}
    }
}

fn say_address(image: &mut Text, types: &str, name: &str) {
    let at = address(image, types, name);
    write!(image, " {at:X}");
}

fn say_pointer(image: &mut Text, types: &str, rest: &str) {
    let (flags, pointee) = first_word(rest);
    write!(image, " {flags}");
    say_address(image, types, pointee);
}

/// The number of bases; each has two words.
fn count_of(bases: &str) -> u32 {
    let mut words = 0u32;
    for _word in bases.split(' ') {
        words = words.saturating_add(1);
    }
    words / 2
}

/// Appends the number of bases, and each base with its offset_flags.
fn say_bases(image: &mut Text, types: &str, bases: &str) {
    let count = count_of(bases);
    write!(image, " 0 {count:X}");
    let mut is_base = true;
    for word in bases.split(' ') {
        say_base_word(image, types, word, is_base);
        is_base = !is_base;
    }
}

/// Appends the address of a base, or its offset_flags.
fn say_base_word(image: &mut Text, types: &str, word: &str, is_base: bool) {
    if is_base {
        say_address(image, types, word);
    } else {
        write!(image, " {word}");
    }
}
