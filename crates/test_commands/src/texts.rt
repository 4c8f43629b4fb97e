//! Named texts: the files that commands find, and the parts that other texts are made of.
use eh_port::{Bytes, MemFile};
use std::alloc::{AllocError, Global};

/// Texts, each under a name.
#[derive(Drop)]
pub struct Texts {
    /// The texts, each as a file under its name.
    pub files: Vec<MemFile>,
}

impl Texts {
    /// The text of a name, if there is one.
    pub fn get(&self, name: &str) -> Option<&[u8]> {
        for file in self.files.as_slice() {
            if file.name.as_slice() == name.as_bytes() {
                return Some(file.bytes.as_slice());
            }
        }
        None
    }

    /// Sets the text of a name, in place of an earlier one.
    pub fn put(&mut self, alloc: Global, name: &str, bytes: Vec<u8>) -> Result<(), AllocError> {
        let file = MemFile {
            name: Bytes::of_vec(name.as_bytes().to_vec(alloc)?),
            bytes: Bytes::of_vec(bytes),
        };
        self.files
            .retain(|old| old.name.as_slice() != name.as_bytes());
        self.files.push(file)?;
        Ok(())
    }

    /// The text that an item in brackets names.
    fn text_of_item(&self, item: &str) -> Option<&[u8]> {
        self.get(item.strip_prefix("[")?.strip_suffix("]")?)
    }
}

/// An item, and how often it comes if it is `N * ITEM`.
pub fn times_of(item: &str) -> (Option<u32>, &str) {
    match item.split_once(" *") {
        Some((times, one)) => (times.trim().parse().ok(), one.trim()),
        None => (None, item.trim()),
    }
}

/// A text with a number in place of each mark.
fn with_number(alloc: Global, text: &str, mark: &str, number: u32) -> Result<String, AllocError> {
    let digits = format!(in alloc; "{number}")?;
    text.replace(alloc, mark, digits.as_str())
}

/// Appends a text that counts: `{n}` is its number, `{n-1}` and `{n+1}` are the numbers beside it.
fn push_counted(
    alloc: Global,
    bytes: &mut Vec<u8>,
    text: &str,
    number: u32,
) -> Result<(), AllocError> {
    let below = with_number(alloc, text, "{n-1}", number.wrapping_sub(1))?;
    let above = with_number(alloc, below.as_str(), "{n+1}", number.wrapping_add(1))?;
    let all = with_number(alloc, above.as_str(), "{n}", number)?;
    bytes.extend_from_slice(all.as_bytes())
}

/// Appends a text several times, each time with its number.
fn push_times(
    alloc: Global,
    bytes: &mut Vec<u8>,
    one: &[u8],
    times: u32,
) -> Result<(), AllocError> {
    let text = str::from_utf8(one).unwrap_or("");
    let counts = text.contains("{n");
    for before in 0..times {
        if counts {
            push_counted(alloc, bytes, text, before.wrapping_add(1))?;
        } else {
            bytes.extend_from_slice(one)?;
        }
    }
    Ok(())
}

/// Appends an item: the text that it names, or itself as a line; as often as it says.
fn push_item(
    alloc: Global,
    texts: &Texts,
    bytes: &mut Vec<u8>,
    item: &str,
) -> Result<(), AllocError> {
    let (times, one) = times_of(item);
    let line = format!(in alloc; "{one}\n")?;
    let text = texts.text_of_item(one).unwrap_or(line.as_bytes());
    match times {
        Some(times) => push_times(alloc, bytes, text, times),
        None => bytes.extend_from_slice(text),
    }
}

/// The mark after the last line of a text: the line has no end.
const NO_END: &[u8] = b"\\c\n";

/// The text that items make, which are separated by `;`.
pub fn text_of(alloc: Global, texts: &Texts, items: &str) -> Result<Vec<u8>, AllocError> {
    let mut bytes = Vec::new(alloc);
    for item in items.split(';') {
        push_item(alloc, texts, &mut bytes, item)?;
    }
    if bytes.ends_with(NO_END) {
        bytes.truncate(bytes.len().saturating_sub(NO_END.len()));
    }
    Ok(bytes)
}
