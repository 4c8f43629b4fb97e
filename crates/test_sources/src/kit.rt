//! Sources that no user writes: the stubs (docs/rules/linking.md) and generated programs (docs/guide/command-line.md).
use crate::objects::{object_of, text_in};
use crate::texts::source_of;
use eh_kit::{MAX_FUNCTIONS, generate, stubs};
use eh_link::link;
use elf_write::{ImageParts, SymbolKind};
use std::alloc::Global;
use std::str::from_utf8;
use test_rows::{Telling, Text, Unanswered, first_word};

/// `begins TEXT`, `ends TEXT`: whether the source of the stubs begins or ends so. `lines TEXT`: how many of its lines end so.
pub struct Stubs;

/// `NUMBER FUNCTIONS`: the parts of the image of a generated program and the stubs.
pub struct GeneratedImages;

/// `NUMBER FUNCTIONS FILE`: whether a generated program equals the text of a file.
#[derive(Drop)]
pub struct GeneratedTexts<'a> {
    /// The system that the tests run on.
    pub host: &'a HostRuntime,
}

/// The number of lines that end so.
fn lines_ending_in(text: &str, end: &str) -> u32 {
    let mut count = 0u32;
    for line in text.lines() {
        if line.ends_with(end) {
            count = count.saturating_add(1);
        }
    }
    count
}

/// Appends the answer to a question about the source of the stubs.
fn say_stubs(text: &mut Text, what: &str, part: &str) {
    let source = from_utf8(stubs()).unwrap_or("");
    match what {
        "begins" => text.say_whether(source.starts_with(part)),
        "ends" => text.say_whether(source.ends_with(part)),
        "lines" => text.say_decimal(lines_ending_in(source, part)),
        _ => text.refuse(Unanswered::NotKnown),
    }
}

impl Telling for Stubs {
    fn tell(&self, text: &mut Text, question: &str) {
        let (what, rest) = first_word(question);
        if let Some(part) = source_of(text, rest) {
            say_stubs(text, what, from_utf8(part.as_slice()).unwrap_or(""));
        }
    }
}

/// The generated program of a number with so many functions. None if there are none or more than a program may have.
fn program(alloc: Global, number: u32, functions: u32) -> Option<Vec<u8>> {
    if functions == 0 || functions > MAX_FUNCTIONS {
        return None;
    }
    generate(alloc, number, functions).ok()
}

/// The generated program that a question names.
fn program_of(text: &mut Text, question: &str) -> Option<Vec<u8>> {
    let (number, words) = first_word(question);
    let (functions, _file) = first_word(words);
    let number = text.decimal(number);
    let program = program(text.alloc(), number, text.decimal(functions));
    if program.is_none() {
        text.refuse(Unanswered::Because("no program"));
    }
    program
}

/// The number of functions of an image's parts.
fn functions_of(parts: &ImageParts) -> u32 {
    let mut count = 0u32;
    for symbol in parts.symbols.as_slice() {
        if symbol.kind == SymbolKind::Function {
            count = count.saturating_add(1);
        }
    }
    count
}

/// The parts of the image of a program and the stubs.
fn parts_of(alloc: Global, program: &[u8]) -> Option<ImageParts> {
    let program = object_of(alloc, program)?;
    let stubs = object_of(alloc, stubs())?;
    link(alloc, &[program, stubs], b"_start").ok()
}

/// Appends the number of functions of an image, and the size of its index.
fn say_parts(text: &mut Text, parts: &ImageParts) {
    text.say_decimal(functions_of(parts));
    text.say(" functions, index of ");
    text.say_decimal(parts.index.1);
    text.say(" bytes");
}

fn say_image(text: &mut Text, program: &[u8]) {
    match parts_of(text.alloc(), program) {
        Some(parts) => say_parts(text, &parts),
        None => text.say("no image"),
    }
}

impl Telling for GeneratedImages {
    fn tell(&self, text: &mut Text, question: &str) {
        if let Some(program) = program_of(text, question) {
            say_image(text, program.as_slice());
        }
    }
}

impl GeneratedTexts<'_> {
    /// Appends whether a program is the text of a file.
    fn say_whether_same(&self, text: &mut Text, program: &[u8], file: &str) {
        if let Some(source) = text_in(text, self.host, file) {
            text.say_whether(source.as_bytes() == program);
        }
    }
}

impl Telling for GeneratedTexts<'_> {
    fn tell(&self, text: &mut Text, question: &str) {
        let (_number, words) = first_word(question);
        let (_functions, file) = first_word(words);
        if let Some(program) = program_of(text, question) {
            self.say_whether_same(text, program.as_slice(), file);
        }
    }
}
