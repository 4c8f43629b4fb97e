//! Type information in images: each kind of type, and each refusal with the type that it names (Itanium C++ ABI, "Run-Time Type Information").
use crate::answers::{say_if, say_number, say_yes_or_no};
use crate::graphs::graph_in;
use crate::listed::words_after;
use crate::objects::OBJECT;
use crate::stack::memory;
use eh_match::{Match, type_match};
use eh_types::{Base, Bases, TypeGraph, TypeKind};
use elf_image::image::Image;
use mem_buses::flat::FlatBus;
use test_rows::images::{image_by, open_image_in};
use test_rows::{Telling, Text, Unanswered, first_word};

/// An image in which its own parts are to be filled in; the types begin at 8060, the names at 9000.
const FORM: &str =
    "entry 8000 ; index 8000 0 ; function _start 8000 10 ; vtables ; segment 8000 2000 ; {}";

/// Questions on the types of images. Some images have names, one a line: `NAME ROOTS from IMAGE`.
#[derive(Drop)]
pub struct TypeImages<'a> {
    /// The lines of the images that have names.
    pub named: &'a str,
}

impl<'a> Telling for TypeImages<'a> {
    /// `read ROOTS from IMAGE`, and `chain COUNT`, `wide COUNT` and `name COUNT` for an image made by a count: whether there is a graph.
    /// `ends COUNT`: what is caught in a chain. `NAME kind TYPE`, `bases`, `called`, `holds`, and `NAME same TYPE TYPE`.
    fn tell(&self, text: &mut Text, question: &str) {
        let (what, rest) = first_word(question);
        match what {
            "read" => tell_of(text, rest, question),
            "chain" | "wide" | "name" | "ends" => tell_of_made(text, what, rest, question),
            _ => tell_of(text, words_after(self.named, what), rest),
        }
    }
}

/// Answers a question on an image made by a count.
fn tell_of_made(text: &mut Text, what: &str, rest: &str, asked: &str) {
    let mut made = Text::new(text.alloc());
    make(&mut made, what, rest);
    if let Some(rooted) = text.taken(made.finish()) {
        tell_of(text, rooted.as_str(), asked);
    }
}

/// Appends `ROOTS from IMAGE` of an image made by a count.
fn make(made: &mut Text, what: &str, rest: &str) {
    match what {
        "chain" => make_chain(made, rest, "9000"),
        "ends" => make_chain(made, rest, "9001"),
        "wide" => make_wide(made, rest),
        _ => make_name(made, rest),
    }
}

/// `COUNT`: a chain of classes, each with the next as its base and all with the name at an address.
fn make_chain(made: &mut Text, count: &str, name: &str) {
    let count = made.decimal(count);
    made.say("8060 from words 8060");
    say_singles(made, count, name);
    write!(made, " class {name} ; names 9000 A");
}

/// Appends the classes of a chain except the last: each has the next as its base, and its name at an address.
fn say_singles(made: &mut Text, count: u32, name: &str) {
    let mut at = 0x8060u32;
    for _ in 1..count {
        at = at.wrapping_add(12);
        write!(made, " single {name} {at:X}");
    }
}

/// Appends a part several times.
fn say_times(made: &mut Text, count: u32, part: &str) {
    for _ in 0..count {
        made.say(part);
    }
}

/// `COUNT`: a class with so many bases of one type, which precedes it.
fn make_wide(made: &mut Text, count: &str) {
    let count = made.decimal(count);
    write!(
        made,
        "8068 from words 8060 class 9000 many 9000 0 {count:X}"
    );
    say_times(made, count, " 8060 2");
    made.say(" ; names 9000 A");
}

/// `COUNT`: a class whose name has so many bytes; `COUNT open` leaves out the zero byte after it.
fn make_name(made: &mut Text, rest: &str) {
    let (count, end) = first_word(rest);
    let count = made.decimal(count);
    let part = if end == "open" { "text" } else { "names" };
    write!(made, "8060 from words 8060 class 9000 ; {part} 9000 ");
    say_times(made, count, "a");
}

/// Answers a question on the graph of `ROOTS from IMAGE`.
fn tell_of(text: &mut Text, rooted: &str, asked: &str) {
    let (roots, parts) = text.around(rooted, " from ");
    if let Some(file) = image_by(text, FORM, &[parts]) {
        tell_of_file(text, &file, roots, asked);
    }
}

fn tell_of_file(text: &mut Text, file: &[u8], roots: &str, asked: &str) {
    if let Some(image) = open_image_in(text, file) {
        tell_of_image(text, &image, roots, asked);
    }
}

fn tell_of_image(text: &mut Text, image: &Image, roots: &str, asked: &str) {
    let roots = text.numbers(roots.strip_prefix("nothing").unwrap_or(roots));
    if let Some(graph) = graph_in(text, image, &roots) {
        say_asked(text, &graph, asked);
    }
}

/// Answers a question on a graph.
fn say_asked(text: &mut Text, graph: &TypeGraph, asked: &str) {
    let (what, rest) = first_word(asked);
    match what {
        "read" | "chain" | "wide" | "name" => text.say("a graph"),
        "ends" => say_ends(text, graph, rest),
        _ => say_of_type(text, graph, what, rest),
    }
}

/// Answers a question on a type of a graph.
fn say_of_type(text: &mut Text, graph: &TypeGraph, what: &str, rest: &str) {
    let (ty, rest) = text.first_hex(rest);
    match what {
        "kind" => say_kind(text, graph.kind(ty)),
        "bases" => say_bases(text, graph.bases(ty)),
        "called" => say_name(text, graph.name(ty)),
        "holds" => say_yes_or_no(text, graph.holds(ty)),
        "same" => say_same(text, graph, ty, rest),
        _ => text.refuse(Unanswered::NotKnown),
    }
}

fn say_same(text: &mut Text, graph: &TypeGraph, ty: u32, other: &str) {
    let other = text.hex(other);
    say_yes_or_no(text, graph.is_same(ty, other));
}

fn say_kind(text: &mut Text, kind: Option<TypeKind>) {
    match kind {
        Some(TypeKind::Si(base)) => say_number(text, "single", base),
        Some(TypeKind::Pointer { flags, pointee }) => write!(text, "pointer {flags} {pointee:X}"),
        Some(kind) => text.say(name_of(kind)),
        None => text.say("no type"),
    }
}

/// The name of a kind.
fn name_of(kind: TypeKind) -> &'static str {
    match kind {
        TypeKind::Other => "other",
        TypeKind::Fundamental => "fundamental",
        TypeKind::Class => "class",
        TypeKind::Si(_) => "single",
        TypeKind::Vmi => "many",
        TypeKind::Pointer { .. } => "pointer",
    }
}

fn say_bases(text: &mut Text, bases: Bases) {
    text.say("bases");
    for base in bases {
        say_base(text, &base);
    }
}

fn say_base(text: &mut Text, base: &Base) {
    let (ty, offset) = (base.ty, base.offset);
    write!(text, " {ty:X} at {offset}");
    say_if(text, base.is_public, " public");
    say_if(text, base.is_virtual, " virtual");
    text.say(";");
}

fn say_name(text: &mut Text, name: &[u8]) {
    text.say("\"");
    text.say_ascii(name);
    text.say("\"");
}

/// The address of the last class of a chain.
fn last_of(count: u32) -> u32 {
    count.wrapping_sub(1).wrapping_mul(12).wrapping_add(0x8060)
}

/// Whether a thrown object of the first class of a chain is caught as the last, and one of the last isn't caught as the first.
fn is_caught_down_alone(bus: &FlatBus, graph: &TypeGraph, last: u32) -> bool {
    type_match(graph, 0x8060, OBJECT, last, bus) == Match::Object(OBJECT)
        && type_match(graph, last, OBJECT, 0x8060, bus) == Match::Failed
}

/// Adds what is caught of a thrown first class as the last, and of a thrown last class as the first.
fn say_ends(text: &mut Text, graph: &TypeGraph, count: &str) {
    let last = last_of(text.decimal(count));
    if let Some(bus) = memory(text) {
        text.say(ends_of(is_caught_down_alone(&bus, graph, last)));
    }
}

fn ends_of(is_down_alone: bool) -> &'static str {
    if is_down_alone {
        "only the first is caught as the last"
    } else {
        "otherwise"
    }
}
