//! The index table of linked images, compared with the sources of their objects (docs/rules/unwind-tables.md, "From the source").
#![tactic(auto)]

ghost use Rattle.link_index_laws.specs.SourceIndex.{AssembledRowsLie, SourcesAreRead, FunctionsAreFound, AddressesHaveTheirFunction, TablesAreThere};

/// The rows of an accepted source lie in its object: each row's function begins in the text, an inline entry is a word, and a table is
/// in the exception tables. So the index of an image that is linked from such objects has their rows.
pub fn assembled_rows_lie()
    ensures { AssembledRowsLie }
{}

/// The index of an image that is linked from accepted sources is never refused. Its entries are those of the functions, in the order of
/// the objects, and within an object in the order of the text.
pub fn sources_are_read()
    ensures { SourcesAreRead }
{}

/// An address from a function's `.fnstart` to below the next row has the entry of the function's own directives. So do all of the
/// function's own addresses, up to its `.fnend`. If several functions begin at one address, the last one has it.
pub fn functions_are_found()
    ensures next { FunctionsAreFound }
    ensures own { AddressesHaveTheirFunction }
{}

/// If that entry is a table, its bytes are the words of the directives, and then those of the object, with their fields filled in.
pub fn tables_are_there()
    ensures { TablesAreThere }
{}
