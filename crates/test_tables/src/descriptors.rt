//! Descriptors of a table, in an image with one read-only segment that holds its words at 9000.
use eh_codes::{Entry, EntryBody};
use eh_desc::{CatchType, Desc, DescFault, DescKind, Descs, spec_type};
use eh_index::Index;
use elf_image::image::Image;
use test_rows::images::{image_by, open_image_in};
use test_rows::{Text, Unanswered, first_word};
use test_types::answers::{say_if, say_yes_or_no};

/// The image, in which the table's words are to be filled in.
const FORM: &str =
    "entry 8000 ; index 8000 0 ; function _start 8000 10 ; segment 8000 2000 ; words 9000 {}";

/// What is asked of a table.
#[derive(Clone, Copy)]
enum Asked {
    /// Lists the descriptors of an entry for a function at 0x8000.
    Listed(EntryBody),
    /// The type at an index in what a descriptor names.
    Named(DescKind, u32),
}

/// `table ADDRESS WORD..` and `inline WORD WORD..`: the descriptors of an entry of a function at 8000, in an image with these words.
/// `covers START SIZE ADDRESS`: whether a scope covers an address. `specification TYPES COUNT PLACE WORD..`: the type with index PLACE in a
/// specification of COUNT types at TYPES; `cleanup PLACE WORD..`: the same in a cleanup.
pub fn tell(text: &mut Text, question: &str) {
    let (what, rest) = first_word(question);
    match what {
        "table" | "inline" => tell_listed(text, what, rest),
        "covers" => say_covers(text, rest),
        "specification" => tell_named(text, rest),
        "cleanup" => tell_of_cleanup(text, rest),
        _ => text.refuse(Unanswered::NotKnown),
    }
}

fn tell_listed(text: &mut Text, what: &str, rest: &str) {
    let (number, words) = text.first_hex(rest);
    let body = if what == "table" {
        EntryBody::Table(number)
    } else {
        EntryBody::Inline(number)
    };
    tell_of(text, words, Asked::Listed(body));
}

fn tell_named(text: &mut Text, rest: &str) {
    let (types, rest) = text.first_hex(rest);
    let (count, rest) = text.first_hex(rest);
    let (place, words) = text.first_hex(rest);
    let kind = DescKind::Spec {
        types,
        count,
        pad: None,
    };
    tell_of(text, words, Asked::Named(kind, place));
}

fn tell_of_cleanup(text: &mut Text, rest: &str) {
    let (place, words) = text.first_hex(rest);
    let kind = DescKind::Cleanup { pad: 0x8000 };
    tell_of(text, words, Asked::Named(kind, place));
}

/// A descriptor at address 0 with a scope.
fn desc_of(start: u32, size: u32, kind: DescKind) -> Desc {
    Desc {
        at: 0,
        next: 0,
        start,
        size,
        kind,
    }
}

fn say_covers(text: &mut Text, rest: &str) {
    let (start, rest) = text.first_hex(rest);
    let (size, a) = text.first_hex(rest);
    let a = text.hex(a);
    let desc = desc_of(start, size, DescKind::Cleanup { pad: 0 });
    say_yes_or_no(text, desc.covers(a));
}

/// Answers a question about the image with a table's words.
fn tell_of(text: &mut Text, words: &str, asked: Asked) {
    if let Some(file) = image_by(text, FORM, &[words]) {
        tell_of_file(text, &file, asked);
    }
}

fn tell_of_file(text: &mut Text, file: &[u8], asked: Asked) {
    if let Some(image) = open_image_in(text, file) {
        tell_of_image(text, &image, asked);
    }
}

fn tell_of_image(text: &mut Text, image: &Image, asked: Asked) {
    match Index::read(image) {
        Ok(index) => say_asked(text, &index, asked),
        Err(_fault) => text.refuse(Unanswered::Because("no index")),
    }
}

fn say_asked(text: &mut Text, index: &Index, asked: Asked) {
    match asked {
        Asked::Listed(body) => say_listed(text, index, body),
        Asked::Named(kind, place) => say_named(text, index, kind, place),
    }
}

fn say_named(text: &mut Text, index: &Index, kind: DescKind, place: u32) {
    match spec_type(index, &desc_of(0x8000, 8, kind), place) {
        Some(ty) => text.say_hex(ty),
        None => text.say("none"),
    }
}

fn say_listed(text: &mut Text, index: &Index, body: EntryBody) {
    text.say("descriptors");
    let entry = Entry {
        start: 0x8000,
        body,
    };
    for item in Descs::of(index, &entry) {
        say_item(text, item);
    }
}

fn say_item(text: &mut Text, item: Result<Desc, DescFault>) {
    match item {
        Ok(desc) => say_desc(text, &desc),
        Err(fault) => text.say(reason_of(fault)),
    }
    text.say(";");
}

/// Why the descriptors can't be read further.
fn reason_of(fault: DescFault) -> &'static str {
    match fault {
        DescFault::Short => " too short",
        DescFault::Kind => " both marks",
        DescFault::Count => " too many types",
    }
}

/// Appends a descriptor: its address, the next one's, its scope, and what it says.
fn say_desc(text: &mut Text, desc: &Desc) {
    let (at, next, start, size) = (desc.at, desc.next, desc.start, desc.size);
    write!(text, " {at:X}-{next:X} {start:X}+{size:X} ");
    say_kind(text, desc.kind);
}

fn say_kind(text: &mut Text, kind: DescKind) {
    match kind {
        DescKind::Cleanup { pad } => write!(text, "cleanup to {pad:X}"),
        DescKind::Catch { pad, reference, ty } => say_catch(text, pad, reference, ty),
        DescKind::Spec { types, count, pad } => say_spec(text, types, count, pad),
    }
}

fn say_catch(text: &mut Text, pad: u32, reference: bool, ty: CatchType) {
    text.say("catch ");
    say_type(text, ty);
    say_if(text, reference, " by reference");
    write!(text, " to {pad:X}");
}

fn say_type(text: &mut Text, ty: CatchType) {
    match ty {
        CatchType::All => text.say("all"),
        CatchType::AllFails => text.say("all fails"),
        CatchType::One(a) => text.say_hex(a),
    }
}

fn say_spec(text: &mut Text, types: u32, count: u32, pad: Option<u32>) {
    write!(text, "specification of {count} at {types:X}");
    if let Some(pad) = pad {
        write!(text, " to {pad:X}");
    }
}
