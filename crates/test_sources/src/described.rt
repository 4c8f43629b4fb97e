//! Objects that no source has, described line by line: `object` begins one, `text`, `rodata`, `tables` and `data` give bytes. Further lines
//! are `zeros COUNT`, `label NAME SECTION OFFSET WHAT`, `field SECTION OFFSET KIND NAME ADDEND` and `row OFFSET ENTRY WORD`. A row with any
//! other line has no answer.
use asm_relocatable::{
    IndexRow, IndexRows, Marks, ObjSymbol, ObjSymbols, Object, Octets, Reloc, Relocs, RowEntry,
    Section,
};
use eh_word::Name;
use std::alloc::Global;
use test_rows::{Text, Unanswered, first_word};

/// The size of each label in bytes.
const LABEL_SIZE: u32 = 2;

/// An empty object.
fn empty(alloc: Global) -> Object {
    Object {
        text: Octets::new(alloc),
        rodata: Octets::new(alloc),
        extab: Octets::new(alloc),
        init: Octets::new(alloc),
        bss: 0,
        symbols: ObjSymbols::new(alloc),
        marks: Marks::new(alloc),
        rows: IndexRows::new(alloc),
        relocs: Relocs::new(alloc),
    }
}

/// Refuses a line that describes nothing.
fn refuse(text: &mut Text) {
    text.refuse(Unanswered::Because("a line is no description"));
}

fn section_of(text: &mut Text, word: &str) -> Section {
    match word {
        "text" => Section::Text,
        "rodata" => Section::Rodata,
        "tables" => Section::Extab,
        "data" => Section::Init,
        "zeros" => Section::Bss,
        _ => {
            refuse(text);
            Section::Bss
        }
    }
}

/// A number, with or without a sign.
fn signed_number(text: &mut Text, word: &str) -> i32 {
    match word.parse::<i32>() {
        Ok(number) => number,
        Err(_why) => {
            refuse(text);
            0
        }
    }
}

fn name_of(text: &mut Text, word: &str) -> Name {
    match Name::of(text.alloc(), word.as_bytes()) {
        Ok(name) => name,
        Err(_why) => {
            text.want_memory();
            Name::of_vec(Vec::new(text.alloc()))
        }
    }
}

/// A label: `NAME SECTION OFFSET WHAT`, where WHAT is `function global`, `global` or `local`.
fn label_of(text: &mut Text, words: &str) -> ObjSymbol {
    let (name, words) = first_word(words);
    let (section, words) = first_word(words);
    let (offset, what) = first_word(words);
    ObjSymbol {
        section: section_of(text, section),
        offset: text.decimal(offset),
        size: LABEL_SIZE,
        function: what.starts_with("function"),
        global: what.ends_with("global"),
        name: name_of(text, name),
    }
}

/// A relocation `SECTION OFFSET KIND NAME ADDEND`.
fn field_of(text: &mut Text, words: &str) -> Reloc {
    let (section, words) = first_word(words);
    let (offset, words) = first_word(words);
    let (kind, words) = first_word(words);
    let (name, addend) = first_word(words);
    Reloc {
        section: section_of(text, section),
        offset: text.decimal(offset),
        kind: text.decimal(kind),
        addend: signed_number(text, addend),
        name: name_of(text, name),
    }
}

/// An index entry: `none`, `inline WORD` or `table PLACE`.
fn entry_of(text: &mut Text, words: &str) -> RowEntry {
    let (entry, word) = first_word(words);
    match entry {
        "none" => RowEntry::CantUnwind,
        "inline" => RowEntry::Inline(text.hex(word)),
        "table" => RowEntry::Table(text.decimal(word)),
        _ => {
            refuse(text);
            RowEntry::CantUnwind
        }
    }
}

/// An index row `OFFSET ENTRY`.
fn row_of(text: &mut Text, words: &str) -> IndexRow {
    let (offset, words) = first_word(words);
    IndexRow {
        offset: text.decimal(offset),
        entry: entry_of(text, words),
    }
}

/// Appends the bytes that words of two digits give.
fn push_octets(text: &mut Text, octets: &mut Octets, words: &str) {
    for word in words.split(' ') {
        let byte = (text.hex(word) % 0x100) as u8;
        let added = octets.push(byte);
        text.note(added);
    }
}

/// Reads a line of an object that gives bytes.
fn take_bytes(text: &mut Text, object: &mut Object, section: Section, words: &str) {
    match section {
        Section::Text => push_octets(text, &mut object.text, words),
        Section::Rodata => push_octets(text, &mut object.rodata, words),
        Section::Extab => push_octets(text, &mut object.extab, words),
        Section::Init => push_octets(text, &mut object.init, words),
        Section::Bss => object.bss = text.decimal(words),
    }
}

/// Reads a line of an object.
fn take(text: &mut Text, object: &mut Object, line: &str) {
    let (what, words) = first_word(line);
    match what {
        "label" => {
            let added = object.symbols.push(label_of(text, words));
            text.note(added);
        }
        "field" => {
            let added = object.relocs.push(field_of(text, words));
            text.note(added);
        }
        "row" => {
            let added = object.rows.push(row_of(text, words));
            text.note(added);
        }
        _ => {
            let section = section_of(text, what);
            take_bytes(text, object, section, words);
        }
    }
}

/// Begins an object.
fn begin(text: &mut Text, objects: &mut Vec<Object>) {
    if objects.push(empty(text.alloc())).is_err() {
        text.want_memory();
    }
}

/// Reads a line of a text of objects. Lines that begin with `#` are skipped.
fn take_line(text: &mut Text, objects: &mut Vec<Object>, line: &str) {
    if line == "object" {
        begin(text, objects);
    } else if !line.starts_with('#') {
        match objects.last_mut() {
            Some(object) => take(text, object, line),
            None => refuse(text),
        }
    }
}

/// The objects that a text describes.
pub fn objects_of(text: &mut Text, described: &str) -> Vec<Object> {
    let mut objects = Vec::new(text.alloc());
    for line in described.lines() {
        take_line(text, &mut objects, line);
    }
    objects
}
