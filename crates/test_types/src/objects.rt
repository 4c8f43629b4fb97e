//! Objects of types on the stack. A line has a type's name and, separated by ` ; `, the offsets in bytes at which its objects name a
//! vtable. Each offset is followed by that vtable's words, from 12 bytes below its address point downwards.
use crate::listed::words_after;
use crate::stack::lay_word;
use mem_buses::flat::FlatBus;
use test_rows::{Text, first_word};

/// The address of the objects.
pub const OBJECT: u32 = 0x3FFF_E000;
/// The address point of the objects' first vtable; the others follow 64 bytes apart.
const VTABLES: u32 = 0x3FFF_E840;

/// Writes an object of a type at `OBJECT`, with its vtables, if one is listed.
pub fn lay_object(text: &mut Text, bus: &mut FlatBus, objects: &str, name: &str) {
    let vtables = words_after(objects, name);
    if !vtables.is_empty() {
        lay_vtables(text, bus, vtables);
    }
}

/// Writes vtables, one after the other, and the words of the object that name them.
fn lay_vtables(text: &mut Text, bus: &mut FlatBus, vtables: &str) {
    let mut point = VTABLES;
    for vtable in vtables.split(" ; ") {
        lay_vtable(text, bus, point, vtable);
        point = point.wrapping_add(0x40);
    }
}

/// Writes the word of the object that names a vtable's address point, and that vtable's words.
fn lay_vtable(text: &mut Text, bus: &mut FlatBus, point: u32, vtable: &str) {
    let (place, words) = first_word(vtable);
    let place = text.decimal(place);
    lay_word(text, bus, OBJECT.wrapping_add(place), point);
    lay_downwards(text, bus, point.wrapping_sub(12), words);
}

fn lay_downwards(text: &mut Text, bus: &mut FlatBus, from: u32, words: &str) {
    let mut at = from;
    for word in words.split(' ') {
        let word = text.decimal(word);
        lay_word(text, bus, at, word);
        at = at.wrapping_sub(4);
    }
}
