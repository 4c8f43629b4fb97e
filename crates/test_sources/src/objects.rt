//! Objects that the assembler makes of sources (docs/rules/sources.md).
use crate::texts::{read_question, say_bytes, say_text};
use asm_object::{AsmFault, assemble};
use asm_read::{Stmt, read_source};
use asm_relocatable::{IndexRow, ObjSymbol, Object, Reloc, RowEntry, Section};
use std::alloc::Global;
use std::fs;
use test_rows::{Telling, Text, Unanswered, first_word};

/// `TEXT`: the bytes of a source's text section, or the line at which it is refused, and why.
pub struct TextBytes;

/// `PART FILE`: one part of the object of a source file.
#[derive(Drop)]
pub struct Parts<'a> {
    /// The system that the tests run on.
    pub host: &'a HostRuntime,
}

/// The object of a source. None if it is refused or memory runs out.
pub fn object_of(alloc: Global, text: &[u8]) -> Option<Object> {
    let stmts = read_source(alloc, text).ok()?;
    assemble(alloc, stmts.as_slice()).ok()
}

/// Appends the bytes of the text section of statements.
fn say_assembled(text: &mut Text, stmts: &[Stmt]) {
    match assemble(text.alloc(), stmts) {
        Ok(object) => say_bytes(text, object.text.as_slice()),
        Err(AsmFault { line, what }) => {
            text.say_decimal(line);
            text.say(" ");
            text.show(&what);
        }
    }
}

impl Telling for TextBytes {
    fn tell(&self, text: &mut Text, question: &str) {
        if let Some(stmts) = read_question(text, question) {
            say_assembled(text, stmts.as_slice());
        }
    }
}

/// Appends a function's row of the index.
fn say_row(text: &mut Text, row: IndexRow) {
    text.say_decimal(row.offset);
    match row.entry {
        RowEntry::CantUnwind => text.say(" can't unwind"),
        RowEntry::Inline(word) => {
            text.say(" inline ");
            text.say_hex(word);
        }
        RowEntry::Table(at) => {
            text.say(" table at ");
            text.say_decimal(at);
        }
    }
    text.say(";");
}

fn say_rows(text: &mut Text, rows: &[IndexRow]) {
    for row in rows {
        say_row(text, *row);
    }
}

/// Appends a section and an offset in it.
fn say_place(text: &mut Text, section: Section, offset: u32) {
    text.show(&section);
    text.say(" ");
    text.say_decimal(offset);
}

/// Appends a field that the linker fills: its section, its offset there, its kind, its addend and its name.
fn say_field(text: &mut Text, field: &Reloc) {
    say_place(text, field.section, field.offset);
    text.say(" kind ");
    text.say_decimal(field.kind);
    text.say(" ");
    text.say_signed(field.addend);
    text.say(" ");
    say_text(text, field.name.bytes());
    text.say(";");
}

fn say_fields(text: &mut Text, fields: &[Reloc]) {
    for field in fields {
        say_field(text, field);
    }
}

/// Appends a symbol: its section, its offset there, its size, whether it is a function and global, and its name.
fn say_symbol(text: &mut Text, symbol: &ObjSymbol) {
    say_place(text, symbol.section, symbol.offset);
    text.say(" of ");
    text.say_decimal(symbol.size);
    text.say(" function ");
    text.say_whether(symbol.function);
    text.say(" global ");
    text.say_whether(symbol.global);
    text.say(" ");
    say_text(text, symbol.name.bytes());
    text.say(";");
}

fn say_symbols(text: &mut Text, symbols: &[ObjSymbol]) {
    for symbol in symbols {
        say_symbol(text, symbol);
    }
}

/// Appends a part of an object.
fn say_part(text: &mut Text, object: &Object, part: &str) {
    match part {
        "text" => say_bytes(text, object.text.as_slice()),
        "rodata" => say_bytes(text, object.rodata.as_slice()),
        "tables" => say_bytes(text, object.extab.as_slice()),
        "data" => say_bytes(text, object.init.as_slice()),
        "zeros" => text.say_decimal(object.bss),
        "marks" => text.show(&object.marks.as_slice()),
        "rows" => say_rows(text, object.rows.as_slice()),
        "fields" => say_fields(text, object.relocs.as_slice()),
        "symbols" => say_symbols(text, object.symbols.as_slice()),
        _ => text.refuse(Unanswered::NotKnown),
    }
}

/// Appends a part of the object of a source.
fn say_part_of(text: &mut Text, part: &str, source: &str) {
    match object_of(text.alloc(), source.as_bytes()) {
        Some(object) => say_part(text, &object, part),
        None => text.say("no object"),
    }
}

/// The path of a file in this layer's folder.
fn path_of(text: &mut Text, name: &str) -> Option<String> {
    let mut path = Text::new(text.alloc());
    path.say("sources/");
    path.say(name);
    text.taken(path.finish())
}

/// The text of a file in this layer's folder.
pub fn text_in(text: &mut Text, host: &HostRuntime, name: &str) -> Option<String> {
    let path = path_of(text, name)?;
    match fs::read_to_string(host, path.as_str()) {
        Ok(source) => Some(source),
        Err(why) => {
            text.refuse(Unanswered::Failed(why));
            None
        }
    }
}

impl Telling for Parts<'_> {
    fn tell(&self, text: &mut Text, question: &str) {
        let (part, file) = first_word(question);
        if let Some(source) = text_in(text, self.host, file) {
            say_part_of(text, part, source.as_str());
        }
    }
}
