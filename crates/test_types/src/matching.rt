//! Matching of thrown objects and pointers against handler types (docs/rules/types-and-matching.md).
use crate::answers::say_number;
use crate::listed::{address, words_after};
use crate::objects::{OBJECT, lay_object};
use crate::stack::{lay_word, memory};
use eh_match::{Match, type_match};
use eh_types::TypeGraph;
use mem_buses::flat::FlatBus;
use test_rows::{Telling, Text, Unanswered, first_word};

/// The address of a thrown pointer, on the stack.
const POINTER: u32 = 0x3FFF_D000;

/// The types of a hierarchy and their objects, for questions on what is caught.
#[derive(Drop)]
pub struct Hierarchy<'a, 'b> {
    /// The lines that list the types.
    pub types: &'a str,
    /// The lines that list the objects.
    pub objects: &'a str,
    /// The graph of the types.
    pub graph: &'a TypeGraph<'b>,
}

impl<'a, 'b> Telling for Hierarchy<'a, 'b> {
    fn tell(&self, text: &mut Text, question: &str) {
        if let Some(mut bus) = memory(text) {
            self.tell_over(text, &mut bus, question);
        }
    }
}

impl<'a, 'b> Hierarchy<'a, 'b> {
    /// Appends what is caught over a memory of zeros.
    fn tell_over(&self, text: &mut Text, bus: &mut FlatBus, question: &str) {
        let (what, rest) = first_word(question);
        match what {
            "class" => self.class(text, bus, rest),
            "pointer" => self.pointer(text, bus, rest, OBJECT),
            "null" => self.pointer(text, bus, rest, 0),
            "match" => self.plain(text, bus, rest),
            _ => text.refuse(Unanswered::NotKnown),
        }
    }

    fn find_match(
        &self,
        text: &mut Text,
        bus: &FlatBus,
        thrown: &str,
        object: u32,
        wanted: &str,
    ) -> Match {
        let thrown = address(text, self.types, thrown);
        let wanted = address(text, self.types, wanted);
        type_match(self.graph, thrown, object, wanted, bus)
    }

    /// `class THROWN WANTED`: the offset in a thrown object of the one that is caught.
    fn class(&self, text: &mut Text, bus: &mut FlatBus, rest: &str) {
        let (thrown, wanted) = first_word(rest);
        lay_object(text, bus, self.objects, thrown);
        let found = self.find_match(text, bus, thrown, OBJECT, wanted);
        say_near(text, found, OBJECT);
    }

    /// The name of the type that a pointer type points to; an empty name for another kind.
    fn pointee(&self, name: &str) -> &'a str {
        let pointer = words_after(self.types, name).strip_prefix("pointer ");
        first_word(pointer.unwrap_or("")).1
    }

    /// `pointer THROWN WANTED`: what is caught of a pointer to an object. `null`: the same of a null pointer.
    fn pointer(&self, text: &mut Text, bus: &mut FlatBus, rest: &str, pointer: u32) {
        let (thrown, wanted) = first_word(rest);
        lay_word(text, bus, POINTER, pointer);
        lay_object(text, bus, self.objects, self.pointee(thrown));
        let found = self.find_match(text, bus, thrown, POINTER, wanted);
        say_near(text, found, pointer);
    }

    /// `match THROWN ADDRESS WANTED [ADDRESS WORD]..`: the same at an address, after these words are stored.
    fn plain(&self, text: &mut Text, bus: &mut FlatBus, rest: &str) {
        let (thrown, rest) = first_word(rest);
        let (object, rest) = text.first_hex(rest);
        let (wanted, rest) = first_word(rest);
        lay_pairs(text, bus, rest);
        let found = self.find_match(text, bus, thrown, object, wanted);
        say_far(text, found);
    }
}

/// Stores words, given as pairs of an address and a word.
fn lay_pairs(text: &mut Text, bus: &mut FlatBus, pairs: &str) {
    let numbers = text.numbers(pairs);
    for pair in numbers.chunks(2) {
        lay_pair(text, bus, pair);
    }
}

fn lay_pair(text: &mut Text, bus: &mut FlatBus, pair: &[u32]) {
    match pair {
        [a, word] => lay_word(text, bus, *a, *word),
        _ => text.refuse(Unanswered::NoWord),
    }
}

/// Appends a match by its distances from the object and from the pointer's target.
fn say_near(text: &mut Text, found: Match, pointer: u32) {
    match found {
        Match::Object(a) => say_object(text, a),
        Match::PointerToBase(a) => say_base(text, a, pointer),
        Match::Failed | Match::Unreadable(_) => say_far(text, found),
    }
}

fn say_object(text: &mut Text, a: u32) {
    if a == POINTER {
        text.say("the pointer");
    } else {
        say_distance(text, "object", a.wrapping_sub(OBJECT));
    }
}

fn say_base(text: &mut Text, a: u32, pointer: u32) {
    if a == 0 {
        text.say("null");
    } else {
        say_distance(text, "base", a.wrapping_sub(pointer));
    }
}

/// Appends a distance in bytes from what a text names.
fn say_distance(text: &mut Text, from: &str, bytes: u32) {
    text.say(from);
    text.say("+");
    text.say_decimal(bytes);
}

/// Appends a match by its addresses.
fn say_far(text: &mut Text, found: Match) {
    match found {
        Match::Failed => text.say("not caught"),
        Match::Object(a) => say_number(text, "object", a),
        Match::PointerToBase(a) => say_number(text, "base", a),
        Match::Unreadable(a) => say_number(text, "unreadable", a),
    }
}
