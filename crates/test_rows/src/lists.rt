//! Lists of numbers in the words of a question. What is wrong with them is kept by the growing text.
use crate::growing::Text;
use crate::unanswered::Unanswered;
use crate::words::numbers;
use std::alloc::Global;

/// The lowest byte of each number.
fn bytes_of(alloc: Global, numbers: &[u32]) -> Result<Vec<u8>, Unanswered> {
    let mut bytes = Vec::new(alloc);
    for number in numbers {
        bytes.push((number % 256) as u8)?;
    }
    Ok(bytes)
}

impl Text {
    /// The numbers of words in hexadecimal digits. If one isn't a number there are none, and that is kept.
    pub fn numbers(&mut self, words: &str) -> Vec<u32> {
        let alloc = self.alloc();
        let read = numbers(alloc, words);
        self.taken(read).unwrap_or(Vec::new(alloc))
    }

    /// The lowest byte of each number that words write.
    pub fn bytes(&mut self, words: &str) -> Vec<u8> {
        let alloc = self.alloc();
        let bytes = bytes_of(alloc, &self.numbers(words));
        self.taken(bytes).unwrap_or(Vec::new(alloc))
    }

    /// The words before a mark and those after it. If the mark is missing, that is kept.
    pub fn around<'a>(&mut self, words: &'a str, mark: &str) -> (&'a str, &'a str) {
        match words.split_once(mark) {
            Some(parts) => parts,
            None => {
                self.refuse(Unanswered::NoWord);
                (words, "")
            }
        }
    }
}
