//! How a question writes a source, and how an answer writes bytes.
use asm_read::{SourceFault, Stmt, read_source};
use std::alloc::Global;
use test_rows::{Text, Unanswered};

/// The lowest and the highest byte that an answer writes as a character.
const LOWEST: u8 = 32;

const HIGHEST: u8 = 126;

/// The bytes of a source, and whether each part of the question was valid.
#[derive(Drop)]
struct Source {
    bytes: Vec<u8>,
    is_whole: bool,
}

impl Source {
    fn new(alloc: Global) -> Source {
        Source {
            bytes: Vec::new(alloc),
            is_whole: true,
        }
    }

    fn push(&mut self, byte: u8) {
        if self.bytes.push(byte).is_err() {
            self.is_whole = false;
        }
    }

    /// Appends a part of a text, in which `|` ends a line.
    fn push_plain(&mut self, part: &str) {
        for byte in part.bytes() {
            self.push(if byte == b'|' { b'\n' } else { byte });
        }
    }

    /// Appends a part several times.
    fn push_times(&mut self, count: &str, part: &str) {
        match count.parse::<u32>() {
            Ok(count) => {
                for _ in 0..count {
                    self.push_plain(part);
                }
            }
            Err(_why) => self.is_whole = false,
        }
    }

    /// Appends a byte given by two hexadecimal digits.
    fn push_digits(&mut self, digits: &str) {
        match u8::from_str_radix(digits, 16) {
            Ok(byte) => self.push(byte),
            Err(_why) => self.is_whole = false,
        }
    }

    /// Appends what a mark means: `80` is a byte in two hexadecimal digits, and `300 times ,0` a part several times.
    fn push_mark(&mut self, mark: &str) {
        match mark.split_once(" times ") {
            Some((count, part)) => self.push_times(count, part),
            None => self.push_digits(mark),
        }
    }

    /// Appends a mark that ends with `>`, if there is one, and what follows it.
    fn push_part(&mut self, part: &str) {
        match part.split_once('>') {
            Some((mark, plain)) => {
                self.push_mark(mark);
                self.push_plain(plain);
            }
            None => self.push_plain(part),
        }
    }
}

/// The text of a question: `|` ends a line, and marks stand between `<` and `>`.
pub fn source_of(text: &mut Text, question: &str) -> Option<Vec<u8>> {
    let mut source = Source::new(text.alloc());
    for part in question.split('<') {
        source.push_part(part);
    }
    let Source { bytes, is_whole } = source;
    if !is_whole {
        text.refuse(Unanswered::Because("no text"));
    }
    Some(bytes)
}

/// Appends where a source is refused, and why.
fn say_place(text: &mut Text, fault: SourceFault) {
    let SourceFault { line, column, what } = fault;
    text.say_decimal(line);
    text.say(":");
    text.say_decimal(column);
    text.say(" ");
    text.show(&what);
}

/// The statements of a source. If it is refused, where and why is appended.
pub fn read_stmts(text: &mut Text, source: &[u8]) -> Option<Vec<Stmt>> {
    match read_source(text.alloc(), source) {
        Ok(stmts) => Some(stmts),
        Err(fault) => {
            say_place(text, fault);
            None
        }
    }
}

/// The statements of the source that a question writes. If it is refused, adds where and why.
pub fn read_question(text: &mut Text, question: &str) -> Option<Vec<Stmt>> {
    let source = source_of(text, question)?;
    read_stmts(text, source.as_slice())
}

/// Appends a byte of a text: itself if it is a character, otherwise its two digits between `<` and `>`.
fn say_byte(text: &mut Text, byte: u8) {
    if LOWEST <= byte && byte <= HIGHEST {
        text.say_ascii(&[byte]);
    } else {
        text.say("<");
        text.say_digits(byte);
        text.say(">");
    }
}

/// Appends the bytes of a text.
pub fn say_text(text: &mut Text, bytes: &[u8]) {
    for byte in bytes {
        say_byte(text, *byte);
    }
}

/// Appends bytes in digits.
pub fn say_bytes(text: &mut Text, bytes: &[u8]) {
    text.say("bytes");
    for byte in bytes {
        text.say(" ");
        text.say_digits(*byte);
    }
}

/// Appends words in digits.
pub fn say_words(text: &mut Text, words: &[u32]) {
    for word in words {
        text.say(" ");
        text.say_hex(*word);
    }
}
