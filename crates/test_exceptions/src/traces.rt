//! The text of traces, as in docs/rules/phases-and-exceptions.md: events, and their lines with `|` in place of line feeds. Numbers are hexadecimal.
ghost use Rattle.std.specs.Prelude.{◌==◌, if◌then◌else◌, []};

use eh_trace::{Event, EventKind, Events, TypeNames, trace_lines};
use eh_word::Name;
use elf_image::{Image, read_image};
use elf_write::parts::{
    ImageParts, OwnBytes, OwnSegment, OwnSegments, OwnSymbol, OwnSymbols, SymbolKind,
};
use elf_write::write_image;
use std::alloc::{AllocError, Global};
use test_rows::{Pieces, Telling, Text, Unanswered, decimal, first_word, numbers};

/// Two types with a name.
struct TwoNames<'a> {
    short: &'a [u8],
    long: &'a [u8],
}

impl<'a> TypeNames for TwoNames<'a> {
    ghost name_of = { λ names ty. if ty == 0x9000 then names.short.now else (if ty == 0x9004 then names.long.now else []) };

    fn name(&self, ty: u32) -> &[u8] {
        if ty == 0x9000 {
            self.short
        } else if ty == 0x9004 {
            self.long
        } else {
            b""
        }
    }
}

const NAMES: TwoNames<'static> = TwoNames {
    short: b"i",
    long: b"St9exception\x7f of a name that is longer than sixty-four bytes, which is the limit",
};

/// The functions main, f, g, and one with a blank in its name: their addresses and sizes in bytes.
static FUNCTIONS: [(&[u8], u32, u32); 4] = [
    (b"main", 0x8000, 0x1c),
    (b"f", 0x801c, 0x18),
    (b"g", 0x8034, 0x14),
    (b"a b", 0x8048, 0x10),
];

/// Their symbols.
fn symbols(alloc: Global) -> Result<Vec<OwnSymbol>, AllocError> {
    let mut symbols = Vec::new(alloc);
    for (name, value, size) in &FUNCTIONS {
        symbols.push(OwnSymbol {
            name: Name::of_vec(Vec::from_slice(alloc, name)?),
            value: *value,
            size: *size,
            kind: SymbolKind::Function,
        })?;
    }
    Ok(symbols)
}

/// The segment that holds them.
fn segment(alloc: Global) -> Result<OwnSegment, AllocError> {
    Ok(OwnSegment {
        start: 0x8000,
        bytes: OwnBytes::of_vec(Vec::from_slice(alloc, &[0u8; 4])?),
        size: 0x100,
        write: false,
        exec: true,
    })
}

/// The file of an image with these functions, if it can be written.
fn file(alloc: Global) -> Result<Option<Vec<u8>>, AllocError> {
    let segment = segment(alloc)?;
    let parts = ImageParts {
        entry: 0x8000,
        segments: OwnSegments::of_vec(vec![in alloc; segment]?),
        symbols: OwnSymbols::of_vec(symbols(alloc)?),
        index: (0, 0),
    };
    Ok(write_image(alloc, &parts).ok())
}

/// Four bytes of the number 7, the lowest first, and what follows them.
const SEVEN: [u8; 16] = [7, 0, 0, 0, 9, 9, 9, 9, 9, 9, 9, 9, 9, 9, 9, 9];

fn kind_of(word: &str) -> Result<EventKind, Unanswered> {
    match word {
        "throw" => Ok(EventKind::Throw),
        "rethrow" => Ok(EventKind::Rethrow),
        "cleanup" => Ok(EventKind::Cleanup),
        "catch" => Ok(EventKind::Catch),
        "unexpected" => Ok(EventKind::Unexpected),
        _ => Err(Unanswered::NotKnown),
    }
}

/// The event of a kind, with its three words and the number of the object's bytes that are kept.
fn event_with(text: &mut Text, kind: EventKind, given: &[u32]) -> Option<Event> {
    let [a, b, c, count] = given else {
        text.refuse(Unanswered::NoWord);
        return None;
    };
    Some(Event {
        kind,
        a: *a,
        b: *b,
        c: *c,
        bytes: SEVEN,
        count: *count,
    })
}

/// The event `KIND A B C COUNT`.
fn event_of(text: &mut Text, words: &str) -> Option<Event> {
    let (word, rest) = first_word(words);
    let kind = text.taken(kind_of(word))?;
    let given = text.taken(numbers(text.alloc(), rest))?;
    event_with(text, kind, given.as_slice())
}

/// Adds an event several times.
fn push_times(events: &mut Events, event: Event, times: u32) {
    if event.count <= 16 {
        for _ in 0..times {
            events.push(event);
        }
    }
}

/// Adds the events of an item, one or `N * EVENT`.
fn push(text: &mut Text, events: &mut Events, item: &str) {
    let (times, words) = item.split_once(" * ").unwrap_or(("1", item));
    if let Some(times) = text.taken(decimal(times)) {
        if let Some(event) = event_of(text, words) {
            push_times(events, event, times);
        }
    }
}

/// Events, to which those of items are added.
#[derive(Drop)]
struct Listed {
    events: Events,
}

impl Pieces for Listed {
    fn tell_piece(&mut self, text: &mut Text, piece: &str) {
        push(text, &mut self.events, piece);
    }
}

/// The lines of these events, with the names of an image's file.
fn lines_by(text: &mut Text, file: &[u8], events: &Events) -> Option<Vec<u8>> {
    match read_image(text.alloc(), file) {
        Ok(image) => lines_of(text, &image, events),
        Err(_fault) => {
            text.refuse(Unanswered::Because("no image"));
            None
        }
    }
}

/// The same with the names of an image.
fn lines_of(text: &mut Text, image: &Image, events: &Events) -> Option<Vec<u8>> {
    match trace_lines(text.alloc(), image, &NAMES, events) {
        Ok(lines) => Some(lines),
        Err(_) => {
            text.want_memory();
            None
        }
    }
}

/// The lines of these events.
fn lines(text: &mut Text, events: &Events) -> Option<Vec<u8>> {
    match file(text.alloc()) {
        Ok(Some(file)) => lines_by(text, file.as_slice(), events),
        Ok(None) => {
            text.refuse(Unanswered::Because("no image"));
            None
        }
        Err(_) => {
            text.want_memory();
            None
        }
    }
}

/// Appends lines with `|` in place of line feeds.
fn say_lines(text: &mut Text, lines: &[u8]) {
    for byte in lines {
        let character = if *byte == b'\n' {
            '|'
        } else {
            char::from(*byte)
        };
        write!(text, "{character}");
    }
}

/// `lines EVENTS`: the lines of events.
fn tell_lines(text: &mut Text, events: &Events) {
    if let Some(lines) = lines(text, events) {
        say_lines(text, lines.as_slice());
    }
}

/// Appends a blank and the number of events of a kind.
fn say_total(text: &mut Text, events: &Events, kind: EventKind) {
    let total = events.total(kind);
    write!(text, " {total}");
}

/// `count EVENTS`: how many events are kept; how many throws, rethrows, cleanups, catches and violated specifications there were; how many
/// bytes their lines have; and how many events the last line says were left out.
fn tell_count(text: &mut Text, events: &Events) {
    let Some(lines) = lines(text, events) else {
        return;
    };
    text.say_count(events.kept().len());
    text.say(" kept,");
    say_total(text, events, EventKind::Throw);
    say_total(text, events, EventKind::Rethrow);
    say_total(text, events, EventKind::Cleanup);
    say_total(text, events, EventKind::Catch);
    say_total(text, events, EventKind::Unexpected);
    text.say(", ");
    text.say_count(lines.len());
    text.say(" bytes");
    if lines.as_slice().ends_with(b"and 3 more events\n") {
        text.say(", 3 more");
    }
}

/// Events and their lines.
pub struct Traces;

/// Answers a question about events.
fn tell_events(text: &mut Text, what: &str, events: &Events) {
    match what {
        "lines" => tell_lines(text, events),
        "count" => tell_count(text, events),
        _ => text.refuse(Unanswered::NotKnown),
    }
}

/// Answers a question about the events that items describe.
fn tell_items(text: &mut Text, what: &str, items: &str) {
    match Events::reserve(text.alloc()) {
        Ok(events) => {
            let mut listed = Listed { events };
            text.tell_pieces(&mut listed, items, ", ");
            tell_events(text, what, &listed.events);
        }
        Err(_) => text.want_memory(),
    }
}

impl Telling for Traces {
    fn tell(&self, text: &mut Text, question: &str) {
        let (what, items) = first_word(question);
        tell_items(text, what, items);
    }
}
