//! Asks the rows of the folder tables in the data/ of `test_layers_main` on the readers of the unwind tables and on the two phases, and
//! those on types by `test_types`. Answers are by hand from IHI 0038 and the pages under docs/, or from compilers if a file says so.
#![tactic(auto)]

mod codes;
mod descriptors;
mod phases;
mod rows;
mod starts;
mod unwinding;

use std::io::Error;
use test_rows::{Telling, Text, run_telling};

/// What the rows of a file ask about.
enum About {
    Unwindings,
    Recipes,
    Descriptors,
    Rows,
    Phases,
}

/// The files of rows that need no other file, except the last.
static FILES: [(&str, About); 4] = [
    ("tables/unwinding.txt", About::Unwindings),
    ("tables/recipes.txt", About::Recipes),
    ("tables/descriptors.txt", About::Descriptors),
    ("tables/rows.txt", About::Rows),
];

impl Telling for About {
    fn tell(&self, text: &mut Text, question: &str) {
        match self {
            About::Unwindings => unwinding::tell(text, question),
            About::Recipes => codes::tell(text, question),
            About::Descriptors => descriptors::tell(text, question),
            About::Rows => rows::tell(text, question),
            About::Phases => phases::tell(text, question),
        }
    }
}

/// Runs all rows. Err if a file can't be read or the output fails.
pub fn run(host: &HostRuntime) -> Result<(), Error> {
    for (name, about) in FILES.iter() {
        run_telling(host, *name, about)?;
    }
    test_types::run(host)?;
    run_telling(host, "tables/phases.txt", &About::Phases)
}
