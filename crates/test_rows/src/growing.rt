//! A text that grows piece by piece, as an answer does. Adding a piece gives no result to check: the first fault is kept, and shows when
//! the text is taken. So code that tells an answer has no branch for each piece, and is proved in a fraction of the time.
use crate::rows::{Asked, run_file};
use crate::unanswered::{Unanswered, text_of};
use crate::words::{decimal, first_word, number};
use std::alloc::{AllocError, Global};
use std::fmt::{Debug, Display};
use std::io::{Error, ErrorKind};

/// A text that grows. At the first fault it becomes the reason why there is no text, and grows no more; what failed is kept.
#[derive(Drop)]
pub struct Text {
    alloc: Global,
    pieces: String,
    is_refused: bool,
    failed: Option<ErrorKind>,
}

impl Text {
    /// An empty text.
    pub fn new(alloc: Global) -> Text {
        Text {
            alloc,
            pieces: String::new(alloc),
            is_refused: false,
            failed: None,
        }
    }

    /// The allocator that it uses.
    pub fn alloc(&self) -> Global {
        self.alloc
    }

    /// Whether it is empty.
    pub fn is_empty(&self) -> bool {
        self.pieces.is_empty()
    }

    /// Refuses the text for this reason, if no reason was kept before.
    pub fn refuse(&mut self, why: Unanswered) {
        if !self.is_refused {
            self.is_refused = true;
            match text_of(self.alloc, Err(why)) {
                Ok(reason) => self.pieces = reason,
                Err(fault) => self.failed = Some(fault.kind()),
            }
        }
    }

    /// Refuses the text for lack of memory.
    pub fn want_memory(&mut self) {
        self.is_refused = true;
        self.failed = Some(ErrorKind::OutOfMemory);
    }

    /// The value of an answer. If there is none, the reason is kept.
    pub fn taken<T>(&mut self, answer: Result<T, Unanswered>) -> Option<T> {
        match answer {
            Ok(value) => Some(value),
            Err(why) => {
                self.refuse(why);
                None
            }
        }
    }

    /// Keeps that memory was lacking, if it was, for a piece or for something that is told.
    pub fn note(&mut self, added: Result<(), AllocError>) {
        if added.is_err() {
            self.want_memory();
        }
    }

    /// Appends a piece.
    pub fn say(&mut self, piece: &str) {
        if !self.is_refused {
            let added = self.pieces.push_str(piece);
            self.note(added);
        }
    }

    /// Appends a separator, if the text isn't empty.
    pub fn say_between(&mut self, piece: &str) {
        if !self.is_empty() {
            self.say(piece);
        }
    }

    /// Appends what `write!` formats.
    pub fn write_fmt<D: Display + Drop>(&mut self, piece: D) {
        if !self.is_refused {
            let added = self.pieces.write_fmt(piece);
            self.note(added);
        }
    }

    /// Appends a number in hexadecimal digits.
    pub fn say_hex(&mut self, number: u32) {
        write!(self, "{number:X}")
    }

    /// Appends a number in decimal digits.
    pub fn say_decimal(&mut self, number: u32) {
        write!(self, "{number}")
    }

    /// Appends a count in decimal digits.
    pub fn say_count(&mut self, count: usize) {
        write!(self, "{count}")
    }

    /// Appends a number in decimal digits, with its sign.
    pub fn say_signed(&mut self, number: i32) {
        write!(self, "{number}")
    }

    /// Appends bits as binary digits, without leading zeros.
    pub fn say_bits(&mut self, bits: u16) {
        write!(self, "{bits:b}")
    }

    /// Appends a byte as two hexadecimal digits.
    pub fn say_digits(&mut self, byte: u8) {
        write!(self, "{byte:02x}")
    }

    /// Appends a value as its `Debug` form.
    pub fn show<D: Debug>(&mut self, value: &D) {
        write!(self, "{value:?}")
    }

    /// Appends `true` or `false`.
    pub fn say_whether(&mut self, holds: bool) {
        self.say(if holds { "true" } else { "false" });
    }

    fn say_character(&mut self, character: u8) {
        if !self.is_refused {
            let added = self.pieces.push(character as char);
            self.note(added);
        }
    }

    /// Appends ASCII characters.
    pub fn say_ascii(&mut self, characters: &[u8]) {
        for character in characters {
            self.say_character(*character);
        }
    }

    /// Appends a form, with the pieces in place of its `{}`.
    pub fn fill(&mut self, form: &str, pieces: &[&str]) {
        let mut places = 0usize;
        for part in form.split("{}") {
            if let Some(place) = places.checked_sub(1) {
                self.say(piece_at(pieces, place));
            }
            self.say(part);
            places = places.saturating_add(1);
        }
    }

    /// The number of a word in hexadecimal digits. If the word is no number it is 0, and that is kept.
    pub fn hex(&mut self, word: &str) -> u32 {
        self.taken(number(word)).unwrap_or(0)
    }

    /// The number of a word in decimal digits. If the word is no number it is 0, and that is kept.
    pub fn decimal(&mut self, word: &str) -> u32 {
        self.taken(decimal(word)).unwrap_or(0)
    }

    /// The number of the first word, in hexadecimal digits, and the words after it.
    pub fn first_hex<'a>(&mut self, words: &'a str) -> (u32, &'a str) {
        let (word, rest) = first_word(words);
        (self.hex(word), rest)
    }

    /// The text, or the reason that replaces it; if something failed, the failure.
    fn into_answer(self) -> Result<String, Unanswered> {
        let Text {
            alloc: _,
            pieces,
            is_refused: _,
            failed,
        } = self;
        match failed {
            None => Ok(pieces),
            Some(kind) => Err(Unanswered::Failed(Error::from(kind))),
        }
    }

    /// The text, or why there is none.
    pub fn finish(self) -> Result<String, Unanswered> {
        if self.is_refused && self.failed.is_none() {
            return Err(Unanswered::Because("a text is refused"));
        }
        self.into_answer()
    }
}

/// The piece with an index; an empty one past the last.
fn piece_at<'a>(pieces: &[&'a str], place: usize) -> &'a str {
    match pieces.get(place) {
        Some(piece) => *piece,
        None => "",
    }
}

/// Something that appends answers to a growing text.
pub trait Telling {
    /// Appends the answer to a question.
    fn tell(&self, text: &mut Text, question: &str);
}

/// Something that answers the pieces of a question one after the other.
pub trait Pieces {
    /// Appends the answer to a piece.
    fn tell_piece(&mut self, text: &mut Text, piece: &str);
}

impl Text {
    /// Answers the pieces that a separator divides.
    pub fn tell_pieces<P: Pieces>(&mut self, of: &mut P, pieces: &str, between: &str) {
        for piece in pieces.split(between) {
            of.tell_piece(self, piece);
        }
    }

    /// Answers the lines.
    pub fn tell_lines<P: Pieces>(&mut self, of: &mut P, lines: &str) {
        for line in lines.lines() {
            of.tell_piece(self, line);
        }
    }
}

/// Adapts a `Telling` to `Asked`.
#[derive(Drop)]
struct Grown<'a, T> {
    telling: &'a T,
}

impl<T: Telling> Asked for Grown<'_, T> {
    fn answer(&self, alloc: Global, question: &str) -> Result<String, Unanswered> {
        let mut text = Text::new(alloc);
        self.telling.tell(&mut text, question);
        text.into_answer()
    }
}

/// Asks the rows of a file, as `run_file` does, with answers that are told.
pub fn run_telling<T: Telling>(host: &HostRuntime, name: &str, telling: &T) -> Result<(), Error> {
    run_file(host, name, &Grown { telling })
}
