//! Answers about files and images. Numbers are hexadecimal, except those that a refusal names.
use eh_codes::row::{Entry, EntryBody};
use eh_index::index::Index;
use elf_image::image::Image;
use elf_image::read::read_image;
use test_rows::images::open_image_in;
use test_rows::{Text, Unanswered};

/// Appends what a file is read as: its entry, the numbers of its segments, functions and type symbols, and its index's address and bytes;
/// or why it is no image.
pub fn say_file(text: &mut Text, file: &[u8]) {
    match read_image(text.alloc(), file) {
        Ok(image) => say_image(text, &image),
        Err(why) => write!(text, "{why:?}"),
    }
}

fn say_image(text: &mut Text, image: &Image) {
    let entry = image.entry();
    let segments = image.segments().len();
    let functions = image.functions().len();
    let types = image.type_symbols().len();
    let index = image.index_start();
    write!(
        text,
        "entry {entry:X}, segments {segments}, functions {functions}, types {types}, index {index:X}:"
    );
    say_bytes(text, image.index_bytes());
}

/// Appends bytes, two digits each.
fn say_bytes(text: &mut Text, bytes: &[u8]) {
    for byte in bytes {
        write!(text, " {byte:02X}");
    }
}

/// Appends `yes` or `no`.
pub fn say_whether(text: &mut Text, is_so: bool) {
    text.say(if is_so { "yes" } else { "no" });
}

/// Appends a word, if there is one.
fn say_word(text: &mut Text, word: Option<u32>) {
    match word {
        Some(word) => text.say_hex(word),
        None => text.say("none"),
    }
}

/// Appends the number of a function, if there is one.
fn say_place(text: &mut Text, place: Option<usize>) {
    match place {
        Some(place) => write!(text, "{place:X}"),
        None => text.say("none"),
    }
}

/// Tells of the image of a file.
///
/// - `rows` and `read`: how many rows its index has, or why they can't be read
/// - `symbol NAME`: its address
/// - `function ADDRESS`, `code ADDRESS`, `word ADDRESS`: which function holds an address, whether it is code, and the word there
/// - `entry ADDRESS` and `find ADDRESS`: the entry that covers an address
/// - `table ADDRESS`: the first four bytes of that entry's table, and how many bytes follow its start
pub fn tell_of_image(text: &mut Text, file: &[u8], what: &str, rest: &str) {
    if let Some(image) = open_image_in(text, file) {
        say_in_image(text, &image, what, rest);
    }
}

fn say_in_image(text: &mut Text, image: &Image, what: &str, rest: &str) {
    match what {
        "rows" | "read" => say_rows(text, image),
        "symbol" => say_word(text, image.symbol(rest.as_bytes())),
        _ => {
            let a = text.hex(rest);
            say_at(text, image, what, a);
        }
    }
}

fn say_rows(text: &mut Text, image: &Image) {
    match Index::read(image) {
        Ok(index) => say_count(text, index.len()),
        Err(why) => write!(text, "{why:?}"),
    }
}

fn say_count(text: &mut Text, count: usize) {
    if count == 0 {
        text.say("empty");
    } else {
        write!(text, "{count:X}");
    }
}

/// Answers a question on an address in an image.
fn say_at(text: &mut Text, image: &Image, what: &str, a: u32) {
    match what {
        "function" => say_place(text, image.function_of(a)),
        "code" => say_whether(text, image.is_code(a)),
        "word" => say_word(text, image.read_word(a)),
        _ => say_in_index(text, image, what, a),
    }
}

/// Answers a question on the entry that covers an address.
fn say_in_index(text: &mut Text, image: &Image, what: &str, a: u32) {
    let Ok(index) = Index::read(image) else {
        return text.refuse(Unanswered::Because("no index"));
    };
    match index.find(a) {
        Some(entry) => say_found(text, &index, &entry, what),
        None => text.say("none"),
    }
}

fn say_found(text: &mut Text, index: &Index, entry: &Entry, what: &str) {
    match what {
        "entry" | "find" => say_entry(text, entry),
        "table" => say_table(text, index.table(entry)),
        _ => text.refuse(Unanswered::NotKnown),
    }
}

/// The kind of an entry, and its word or address.
fn kind_of(body: EntryBody) -> (&'static str, u32) {
    match body {
        EntryBody::CantUnwind => ("can't unwind", 0),
        EntryBody::Inline(word) => ("inline", word),
        EntryBody::Table(address) => ("table", address),
    }
}

/// Appends an entry: where its function begins, and what unwinds it.
fn say_entry(text: &mut Text, entry: &Entry) {
    let (kind, word) = kind_of(entry.body);
    let start = entry.start;
    write!(text, "{start:X} {kind} {word:X}");
}

fn say_table(text: &mut Text, table: Option<&[u8]>) {
    match table {
        Some(bytes) => {
            let count = bytes.len();
            write!(text, "{count:X}:");
            say_bytes(text, bytes.get(..4).unwrap_or(bytes));
        }
        None => text.say("none"),
    }
}
