//! Runs the cases of words/, in the data/ of test_layers_main, on words and on memories. A line is a question, ` : ` and its answer, by
//! hand from docs/rules/memory.md and the standards that the pages under docs/ name. Writes what differs, and of each file how many lines are
//! right.

mod accesses;
mod memories;
mod numbers;

use memories::Memory;
use std::io::Error;
use test_rows::{Telling, Text, run_telling};

/// What the rows of a file ask about.
enum About {
    Numbers,
    Memory(Memory),
}

/// The files of rows, in the order in which they are asked.
static FILES: [(&str, About); 6] = [
    ("words/numbers.txt", About::Numbers),
    ("words/sample.txt", About::Memory(Memory::SampleFlat)),
    ("words/sample.txt", About::Memory(Memory::SamplePaged)),
    ("words/two_pages.txt", About::Memory(Memory::TwoPages)),
    ("words/touching.txt", About::Memory(Memory::Touching)),
    ("words/last_bytes.txt", About::Memory(Memory::LastBytes)),
];

impl Telling for About {
    fn tell(&self, text: &mut Text, question: &str) {
        match self {
            About::Numbers => numbers::tell(text, question),
            About::Memory(memory) => memories::tell(text, memory, question),
        }
    }
}

/// Asks all rows.
pub fn run(host: &HostRuntime) -> Result<(), Error> {
    for (name, about) in FILES.iter() {
        run_telling(host, *name, about)?;
    }
    Ok(())
}
