//! Runs the cases of gnu/, in the data/ of test_layers_main, on the reader of generic entries and their language-specific data areas.
//! Answers are by hand from docs/rules/gnu-tables.md.

mod changes;
mod entries;
mod image;
mod numbers;
mod tables;
mod translations;

use std::io::Error;
use test_rows::{Telling, Text, run_telling};

/// What the rows of a file ask about.
enum About {
    Signed,
    Unsigned,
    Entries,
    Changes,
    Tables,
    Translations,
}

/// A file of rows.
struct File {
    name: &'static str,
    about: About,
}

/// The files of rows, in the order in which they are run.
static FILES: [File; 6] = [
    File {
        name: "gnu/signed.txt",
        about: About::Signed,
    },
    File {
        name: "gnu/unsigned.txt",
        about: About::Unsigned,
    },
    File {
        name: "gnu/entries.txt",
        about: About::Entries,
    },
    File {
        name: "gnu/changes.txt",
        about: About::Changes,
    },
    File {
        name: "gnu/tables.txt",
        about: About::Tables,
    },
    File {
        name: "gnu/translations.txt",
        about: About::Translations,
    },
];

impl Telling for About {
    fn tell(&self, text: &mut Text, question: &str) {
        match self {
            About::Signed => numbers::say_sleb128(text, question),
            About::Unsigned => numbers::say_uleb128(text, question),
            About::Entries => entries::tell(text, question),
            About::Changes => changes::tell(text, question),
            About::Tables => tables::tell(text, question),
            About::Translations => translations::tell(text, question),
        }
    }
}

/// Runs all rows. Err if a file can't be read or the output fails.
pub fn run(host: &HostRuntime) -> Result<(), Error> {
    for file in FILES.iter() {
        run_telling(host, file.name, &file.about)?;
    }
    Ok(())
}
