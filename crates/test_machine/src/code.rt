//! What a case asks of an image: the address of a symbol, and of a table.
use eh_index::EntryBody;
use frame_check::Accepted;
use test_rows::Unanswered;

/// The address of a symbol. Err if there is none.
pub fn symbol(code: &Accepted, name: &str) -> Result<u32, Unanswered> {
    match code.image().symbol(name.as_bytes()) {
        Some(a) => Ok(a),
        None => Err(Unanswered::NotKnown),
    }
}

/// The address of the unwind table for an address of code.
pub fn table_of(code: &Accepted, a: u32) -> Result<u32, Unanswered> {
    match code.index().find(a) {
        Some(entry) => match entry.body {
            EntryBody::Table(at) => Ok(at),
            EntryBody::CantUnwind | EntryBody::Inline(_) => Err(Unanswered::NotKnown),
        },
        None => Err(Unanswered::NotKnown),
    }
}
