//! Class hierarchies: files that list types and their objects, and what is caught among them.
use crate::graphs::graph_in;
use crate::listed::{addresses, type_file};
use crate::matching::Hierarchy;
use eh_types::TypeGraph;
use std::fs;
use std::io::Error;
use test_rows::images::open_image_in;
use test_rows::{Text, Unanswered, run_telling};

/// The files of rows, each with the files of its types and objects.
pub static HIERARCHIES: [(&str, &str, &str); 6] = [
    (
        "tables/classes.txt",
        "tables/hierarchies.types",
        "tables/hierarchies.objects",
    ),
    (
        "tables/pointers.txt",
        "tables/hierarchies.types",
        "tables/hierarchies.objects",
    ),
    (
        "tables/words.txt",
        "tables/hierarchies.types",
        "tables/hierarchies.objects",
    ),
    (
        "tables/plain.txt",
        "tables/plain.types",
        "tables/none.objects",
    ),
    (
        "tables/virtual.txt",
        "tables/virtual.types",
        "tables/none.objects",
    ),
    (
        "tables/names.txt",
        "tables/names.types",
        "tables/none.objects",
    ),
];

/// Asks what is caught in a hierarchy, with its objects.
pub fn run_hierarchy(
    host: &HostRuntime,
    name: &str,
    types: &str,
    objects: &str,
) -> Result<(), Error> {
    let types = fs::read_to_string(host, types)?;
    run_types(host, name, types.as_str(), objects)
}

fn run_types(host: &HostRuntime, name: &str, types: &str, objects: &str) -> Result<(), Error> {
    let objects = fs::read_to_string(host, objects)?;
    run_objects(host, name, types, objects.as_str())
}

fn run_objects(host: &HostRuntime, name: &str, types: &str, objects: &str) -> Result<(), Error> {
    let mut why = Text::new(host.alloc());
    match type_file(&mut why, types) {
        Some(file) => run_image(host, name, types, objects, &file),
        None => say_no_graph(host, name, why),
    }
}

fn run_image(
    host: &HostRuntime,
    name: &str,
    types: &str,
    objects: &str,
    file: &[u8],
) -> Result<(), Error> {
    let mut why = Text::new(host.alloc());
    match graph_of(&mut why, types, file) {
        Some(graph) => {
            let hierarchy = Hierarchy {
                types,
                objects,
                graph: &graph,
            };
            run_telling(host, name, &hierarchy)
        }
        None => say_no_graph(host, name, why),
    }
}

/// The type graph of a file's image.
fn graph_of<'a>(why: &mut Text, types: &str, file: &'a [u8]) -> Option<TypeGraph<'a>> {
    let image = open_image_in(why, file)?;
    let roots = addresses(why, types);
    graph_in(why, &image, &roots)
}

/// Appends why there is no graph, unless memory was lacking.
fn say_no_graph(host: &HostRuntime, name: &str, why: Text) -> Result<(), Error> {
    match why.finish() {
        Ok(why) => println!(host; "{name}: no graph, {why}"),
        Err(Unanswered::Failed(fault)) => Err(fault),
        Err(_why) => println!(host; "{name}: no graph"),
    }
}
