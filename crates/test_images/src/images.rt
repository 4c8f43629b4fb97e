//! Runs the cases of images/, in the data/ of test_layers_main, on the reader and the writer of ELF images and on the exception index.
//! Answers are by hand from docs/rules/elf.md and docs/rules/unwind-tables.md.

mod answers;
mod hand;
mod indexes;
mod parts;

use std::fs;
use std::io::Error;
use test_rows::{Telling, Text, run_telling};

/// What the rows of a file ask about.
enum About {
    ByHand,
    Indexes,
}

/// The files of rows, in the order in which they are asked.
static FILES: [(&str, About); 3] = [
    ("images/reading.txt", About::ByHand),
    ("images/refused.txt", About::ByHand),
    ("images/indexes.txt", About::Indexes),
];

/// What the rows of a file ask about, and the text of the handmade file.
#[derive(Drop)]
struct Asked<'a> {
    about: &'a About,
    by_hand: &'a str,
}

impl<'a> Telling for Asked<'a> {
    fn tell(&self, text: &mut Text, question: &str) {
        match self.about {
            About::ByHand => hand::tell(text, self.by_hand, question),
            About::Indexes => indexes::tell(text, question),
        }
    }
}

/// Runs all rows. Err if a file can't be read or the output fails.
pub fn run(host: &HostRuntime) -> Result<(), Error> {
    let by_hand = fs::read_to_string(host, "images/hand.bytes")?;
    for (name, about) in FILES.iter() {
        let asked = Asked {
            about,
            by_hand: by_hand.as_str(),
        };
        run_telling(host, *name, &asked)?;
    }
    Ok(())
}
