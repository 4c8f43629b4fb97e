//! Asks the rows on types of the folder tables in the data/ of `test_layers_main`: type graphs, class hierarchies and matching. Answers are
//! by hand from the Itanium C++ ABI and the pages under docs/, or from compilers if a file says so.
#![tactic(auto)]

pub mod answers;
pub mod graphs;
mod hierarchies;
mod listed;
mod matching;
mod objects;
pub mod stack;
mod types;

use hierarchies::{HIERARCHIES, run_hierarchy};
use std::fs;
use std::io::Error;
use test_rows::run_telling;
use types::TypeImages;

/// Asks about the types in images, some of which have names.
fn run_types(host: &HostRuntime) -> Result<(), Error> {
    let images = fs::read_to_string(host, "tables/graphs.images")?;
    let images = TypeImages {
        named: images.as_str(),
    };
    run_telling(host, "tables/types.txt", &images)
}

/// Runs all rows. Err if a file can't be read or the output fails.
pub fn run(host: &HostRuntime) -> Result<(), Error> {
    run_types(host)?;
    for (name, types, objects) in HIERARCHIES.iter() {
        run_hierarchy(host, *name, *types, *objects)?;
    }
    Ok(())
}
