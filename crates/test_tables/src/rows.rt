//! Rows of the exception index and bytes of unwinding codes: how they are read, and how they are written.
ghost use Rattle.std.specs.Prelude.{IfSome};
ghost use Rattle.eh_codes.specs.Bytes.{HasBytes};

use eh_codes::{
    Entry, EntryBody, UnwindCode, body_of, code_words_after, entry_of, personality_of_word,
    prel31_to, push_code, push_row, push_rows, second_word,
};
use test_rows::{Text, Unanswered, first_word};
use test_types::answers::{say_byte, say_number};

/// Answers a question about the words of the index or the codes.
pub fn tell(text: &mut Text, question: &str) {
    let (what, rest) = first_word(question);
    match what {
        "row" => say_row(text, rest),
        "rows" => say_rows(text, rest),
        "write" => say_written(text, rest),
        _ => say_by_number(text, what, rest),
    }
}

/// The questions with numbers.
fn say_by_number(text: &mut Text, what: &str, rest: &str) {
    let (number, rest) = text.first_hex(rest);
    match what {
        "second" => say_second(text, number, rest),
        "distance" => say_distance(text, number, rest),
        "entry" => say_entry(text, number, rest),
        "first" => say_first(text, number),
        _ => text.refuse(Unanswered::NotKnown),
    }
}

fn say_body(text: &mut Text, body: EntryBody) {
    match body {
        EntryBody::CantUnwind => text.say("can't unwind"),
        EntryBody::Inline(word) => say_number(text, "inline", word),
        EntryBody::Table(address) => say_number(text, "table", address),
    }
}

/// `second PLACE WORD`: what a second word at an address says, and the word that is written for that.
fn say_second(text: &mut Text, place: u32, word: &str) {
    let body = body_of(place, text.hex(word));
    say_body(text, body);
    say_number(text, ", written", second_word(place, body));
}

/// `distance PLACE TARGET`: the word at an address that leads to a target.
fn say_distance(text: &mut Text, place: u32, target: &str) {
    let target = text.hex(target);
    text.say_hex(prel31_to(place, target));
}

/// `entry PLACE WORD WORD`: the row of two words at an address.
fn say_entry(text: &mut Text, place: u32, words: &str) {
    let (first, second) = text.first_hex(words);
    let entry = entry_of(place, first, text.hex(second));
    text.say_hex(entry.start);
    text.say(" ");
    say_body(text, entry.body);
}

/// `first WORD`: the personality of an entry's first word, and how many words of codes follow it.
fn say_first(text: &mut Text, word: u32) {
    let personality = personality_of_word(word);
    let after = code_words_after(word);
    write!(text, "personality {personality}, {after} words behind");
}

/// The body of an entry: `can't unwind`, `inline WORD` or `table ADDRESS`.
fn body_named(text: &mut Text, words: &str) -> EntryBody {
    let (kind, word) = first_word(words);
    match kind {
        "can't" => EntryBody::CantUnwind,
        "inline" => EntryBody::Inline(text.hex(word)),
        "table" => EntryBody::Table(text.hex(word)),
        _ => {
            text.refuse(Unanswered::NotKnown);
            EntryBody::CantUnwind
        }
    }
}

/// An entry: `START BODY`.
fn row_named(text: &mut Text, words: &str) -> Entry {
    let (start, body) = text.first_hex(words);
    Entry {
        start,
        body: body_named(text, body),
    }
}

fn say_bytes(text: &mut Text, bytes: &[u8]) {
    for byte in bytes {
        say_byte(text, *byte);
    }
}

/// `row PLACE START BODY`: the bytes of a row at an address.
fn say_row(text: &mut Text, rest: &str) {
    let (place, row) = text.first_hex(rest);
    let row = row_named(text, row);
    let mut bytes = Vec::new(text.alloc());
    text.note(push_row(&mut bytes, place, row));
    say_bytes(text, &bytes);
}

/// Entries: `START BODY, START BODY, ..`.
fn rows_named(text: &mut Text, words: &str) -> Vec<Entry> {
    let mut rows = Vec::new(text.alloc());
    for row in words.split(", ") {
        let row = row_named(text, row);
        if rows.push(row).is_err() {
            text.want_memory();
        }
    }
    rows
}

/// `rows PLACE START BODY, START BODY, ..`: the byte EE and the bytes of the rows after it.
fn say_rows(text: &mut Text, rest: &str) {
    let (place, rest) = text.first_hex(rest);
    let rows = rows_named(text, rest);
    say_rows_at(text, place, &rows);
}

fn say_rows_at(text: &mut Text, place: u32, rows: &[Entry]) {
    let mut bytes = Vec::new(text.alloc());
    text.note(bytes.extend_from_slice(&[0xEE]));
    text.note(push_rows(&mut bytes, place, rows));
    say_bytes(text, &bytes);
}

/// A code without a number.
fn bare_code(name: &str) -> Option<UnwindCode>
    ensures { IfSome result HasBytes }
{
    match name {
        "refuse" => Some(UnwindCode::Refuse),
        "finish" => Some(UnwindCode::Finish),
        _ => None,
    }
}

/// A code that moves the stack pointer by a number, or sets it from a register.
fn moving_code(name: &str, field: u32) -> Option<UnwindCode>
    ensures { IfSome result HasBytes }
{
    match name {
        "raise" => Some(UnwindCode::Raise((field % 64) as u8)),
        "lower" => Some(UnwindCode::Lower((field % 64) as u8)),
        "restore" => Some(UnwindCode::Restore((field % 16) as u8)),
        "raise-long" => Some(UnwindCode::RaiseLong(field % 0x4000)),
        _ => None,
    }
}

/// A code with a number; only the bits that the code has count.
fn code_of(name: &str, field: u32) -> Option<UnwindCode>
    ensures { IfSome result HasBytes }
{
    match name {
        "pop-mask" => Some(UnwindCode::PopMask((field % 0x1000) as u16)),
        "pop-range" => Some(UnwindCode::PopRange((field % 8) as u8)),
        "pop-range-and-lr" => Some(UnwindCode::PopRangeAndLr((field % 8) as u8)),
        "pop-low" => Some(UnwindCode::PopLow((field % 16) as u8)),
        _ => moving_code(name, field),
    }
}

/// A code by its name and its number, if it has one.
fn code_named(text: &mut Text, words: &str) -> Option<UnwindCode>
    ensures { IfSome result HasBytes }
{
    let (name, field) = first_word(words);
    if field.is_empty() {
        bare_code(name)
    } else {
        code_of(name, text.hex(field))
    }
}

/// Appends the bytes of a code.
fn push_named(text: &mut Text, bytes: &mut Vec<u8>, words: &str) {
    match code_named(text, words) {
        Some(code) => text.note(push_code(bytes, code)),
        None => text.refuse(Unanswered::NotKnown),
    }
}

/// `write CODE FIELD, CODE, ..`: the bytes of unwind instructions.
fn say_written(text: &mut Text, rest: &str) {
    let mut bytes = Vec::new(text.alloc());
    for code in rest.split(", ") {
        push_named(text, &mut bytes, code);
    }
    say_bytes(text, &bytes);
}
