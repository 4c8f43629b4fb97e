//! Output and status of `ehabi_audit` (docs/guide/audit.md, "The program").
use crate::audits::file_of;
use audit_top::audit_main;
use eh_port::{Bytes, FileList, HostSink, MemFile, SureFiles};
use std::alloc::Global;
use std::fs;
use std::str::from_utf8;
use test_rows::sources::image_of_sources;
use test_rows::{Telling, Text, Unanswered, first_word};

/// The name of the only file.
const NAME: &str = "x";

/// The first line of a summary.
const SUMMARY: &str = "-- summary";

/// How many lines are shown. Of more, only the first and those from the summary on are.
const MOST_LINES: usize = 40;

/// How many bytes of a line are shown. Of a longer one their number is.
const MOST_BYTES: usize = 120;

/// The path of a file in this layer's folder.
fn path_of(text: &mut Text, name: &str) -> Option<String> {
    let mut path = Text::new(text.alloc());
    path.say("audit/");
    path.say(name);
    text.taken(path.finish())
}

/// Questions on what `ehabi_audit` writes.
#[derive(Drop)]
pub struct Reports<'a> {
    /// The system that the tests run on.
    pub host: &'a HostRuntime,
}

impl Telling for Reports<'_> {
    fn tell(&self, text: &mut Text, question: &str) {
        let (what, rest) = first_word(question);
        let words = if what == "words" { rest } else { NAME };
        if let Some(bytes) = self.bytes_of(text, question) {
            say_words(text, words, bytes);
        }
    }
}

impl Reports<'_> {
    /// The bytes of the single file that a question describes.
    fn bytes_of(&self, text: &mut Text, question: &str) -> Option<Vec<u8>> {
        let (what, rest) = first_word(question);
        match what {
            "words" => Some(Vec::new(text.alloc())),
            "size" => zeros(text, rest),
            "source" => self.linked_image(text, rest),
            "file" => self.read(text, rest),
            _ => file_of(text, question),
        }
    }

    /// `file NAME`: a file in this layer's folder.
    fn read(&self, text: &mut Text, name: &str) -> Option<Vec<u8>> {
        let path = path_of(text, name)?;
        match fs::read(self.host, path.as_str()) {
            Ok(bytes) => Some(bytes),
            Err(why) => {
                text.refuse(Unanswered::Failed(why));
                None
            }
        }
    }

    /// `source NAME`: the image of a source in this layer's folder, linked with the stubs.
    fn linked_image(&self, text: &mut Text, name: &str) -> Option<Vec<u8>> {
        let path = path_of(text, name)?;
        match fs::read_to_string(self.host, path.as_str()) {
            Ok(source) => image_of(text, source),
            Err(why) => {
                text.refuse(Unanswered::Failed(why));
                None
            }
        }
    }
}

/// The image of a source, linked with the stubs.
fn image_of(text: &mut Text, source: String) -> Option<Vec<u8>> {
    let image = image_of_sources(text.alloc(), &[source]);
    if image.is_none() {
        text.refuse(Unanswered::Because("no image"));
    }
    image
}

/// `size N`: a file of N zeros.
fn zeros(text: &mut Text, count: &str) -> Option<Vec<u8>> {
    let mut bytes = Vec::new(text.alloc());
    let count = text.decimal(count);
    if bytes.resize(count as usize, 0).is_err() {
        text.want_memory();
    }
    Some(bytes)
}

/// The words of a text; an empty text has none.
fn words_of<'a>(alloc: Global, text: &'a str) -> Option<Vec<&'a str>> {
    if text.is_empty() {
        return Some(Vec::new(alloc));
    }
    text.split(' ').collect(alloc).ok()
}

/// The single file, with these bytes.
fn files_of(alloc: Global, bytes: Vec<u8>) -> Option<SureFiles> {
    let mut list = Vec::new(alloc);
    let name = Bytes::of_vec(NAME.as_bytes().to_vec(alloc).ok()?);
    let bytes = Bytes::of_vec(bytes);
    list.push(MemFile { name, bytes }).ok()?;
    Some(SureFiles {
        files: FileList::of_vec(list),
    })
}

/// Appends a line, with `; ` after it.
fn say_line(text: &mut Text, line: &str) {
    let size = line.len();
    if size > MOST_BYTES {
        text.say("a line of ");
        text.say_count(size);
        text.say(" bytes");
    } else {
        text.say(line);
    }
    text.say("; ");
}

/// Appends the lines that are shown.
fn say_lines(text: &mut Text, written: &str) {
    let count = written.lines().count();
    let is_short = count <= MOST_LINES;
    if !is_short {
        text.say_count(count);
        text.say(" lines; ");
    }
    let mut is_first = true;
    let mut in_summary = is_short;
    for line in written.lines() {
        in_summary = in_summary || line == SUMMARY;
        if is_first || in_summary {
            say_line(text, line);
        }
        is_first = false;
    }
}

/// Appends what is written for these words over these files, and the status.
fn say_run(text: &mut Text, words: &[&str], mut files: SureFiles) {
    let alloc = text.alloc();
    let mut out = HostSink {
        writer: Vec::new(alloc),
        faults: 0,
    };
    let status = audit_main(alloc, words, &mut files, &mut out);
    say_lines(text, from_utf8(out.writer.as_slice()).unwrap_or(""));
    text.say("status ");
    text.say_decimal(u32::from(status));
}

/// Appends what is written for these words if the only file has these bytes, and the status.
fn say_report(text: &mut Text, words: &[&str], bytes: Vec<u8>) {
    match files_of(text.alloc(), bytes) {
        Some(files) => say_run(text, words, files),
        None => text.want_memory(),
    }
}

/// The same, with the words written in a text.
fn say_words(text: &mut Text, words: &str, bytes: Vec<u8>) {
    match words_of(text.alloc(), words) {
        Some(words) => say_report(text, words.as_slice(), bytes),
        None => text.want_memory(),
    }
}
