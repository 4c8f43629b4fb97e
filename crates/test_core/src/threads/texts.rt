//! Texts of schedules and lines with tags. In a question `|` stands for a line feed.
use std::alloc::Global;
use test_rows::{Telling, Text, Unanswered, first_word};
use thread_schedule::{ScheduleFault, TagMemory, read_schedule, tag_lines};

/// The byte that stands for a line feed in questions and answers.
const BAR: u8 = b'|';

/// `text TEXT`, or `text` alone: the digits of a schedule, or the offset in bytes at which it is refused.
pub struct Schedules;

/// `TAGS TEXT`: the text with a tag before each line; `-` is for no tags.
pub struct Tagged;

/// A text with bars replaced by line feeds.
fn with_line_feeds(text: &mut Text, bars: &str) -> Option<String> {
    let mut lines = Text::new(text.alloc());
    let mut is_first = true;
    for line in bars.split('|') {
        lines.say(if is_first { "" } else { "\n" });
        lines.say(line);
        is_first = false;
    }
    text.taken(lines.finish())
}

/// Appends a text of ASCII characters, with bars in place of line feeds.
fn say_with_bars(text: &mut Text, bytes: &[u8]) {
    for byte in bytes {
        let character = if *byte == b'\n' { BAR } else { *byte };
        text.say_ascii(&[character]);
    }
}

fn say_schedule(text: &mut Text, schedule: &str) {
    match read_schedule(text.alloc(), schedule.as_bytes()) {
        Ok(digits) => say_with_bars(text, digits.as_slice()),
        Err(ScheduleFault::BadSchedule(offset)) => {
            text.say("BadSchedule ");
            text.say_count(offset);
        }
        Err(ScheduleFault::OutOfMemory) => text.want_memory(),
    }
}

impl Telling for Schedules {
    fn tell(&self, text: &mut Text, question: &str) {
        let (_, schedule) = first_word(question);
        if let Some(schedule) = with_line_feeds(text, schedule) {
            say_schedule(text, schedule.as_str());
        }
    }
}

/// The digits of a word as tags; for `-` none.
fn tags_of(alloc: Global, word: &str) -> Option<Vec<u8>> {
    let mut tags = Vec::new(alloc);
    for byte in word.as_bytes() {
        if byte.is_ascii_digit() {
            tags.push(*byte - b'0').ok()?;
        }
    }
    Some(tags)
}

/// Appends lines with tags before them.
fn say_tagged(text: &mut Text, lines: &str, tags: &[u8]) {
    if tags.iter().any(|tag| *tag >= 10) {
        return text.refuse(Unanswered::NotNumber);
    }
    match tag_lines(text.alloc(), lines.as_bytes(), tags) {
        Ok(tagged) => say_with_bars(text, tagged.as_slice()),
        Err(TagMemory::OutOfMemory) => text.want_memory(),
    }
}

/// Appends lines with the digits of a word as tags before them.
fn say_lines(text: &mut Text, lines: &str, word: &str) {
    match tags_of(text.alloc(), word) {
        Some(tags) => say_tagged(text, lines, tags.as_slice()),
        None => text.want_memory(),
    }
}

impl Telling for Tagged {
    fn tell(&self, text: &mut Text, question: &str) {
        let (word, lines) = first_word(question);
        if let Some(lines) = with_line_feeds(text, lines) {
            say_lines(text, lines.as_str(), word);
        }
    }
}
