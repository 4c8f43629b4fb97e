//! The compact tables that replace generic entries.
use crate::gnu::image::{OfIndex, entry_of, file_of, tell_of};
use eh_codes::{Entry, EntryBody};
use eh_desc::CatchType;
use eh_index::Index;
use gnu_compact::OwnKind;
use gnu_descriptors::{GnuDescriptor, scopes_of};
use gnu_index::{RefusedEntry, RewrittenTables, rewrite_rows};
use std::alloc::Global;
use test_rows::{Text, Unanswered, first_word};

/// The address of the new tables.
const BASE: u32 = 0x1_0000;

/// A question on a rewritten entry.
#[derive(Drop)]
struct Asked<'q> {
    what: &'q str,
}

/// `scopes BYTES`: the descriptors of an entry, each with the offset and the size of its scope. `bytes BYTES`: the bytes of its new table,
/// at 10000. `rows BYTES`: the rows of the index, and why entries aren't rewritten. `filters BYTES`: the addresses of the new catches with
/// their filters.
pub fn tell(text: &mut Text, question: &str) {
    let (what, rest) = first_word(question);
    let table = text.bytes(rest);
    let file = file_of(text.alloc(), &table);
    text.say(what);
    tell_of(text, file, &Asked { what });
}

impl<'q> OfIndex for Asked<'q> {
    fn tell(&self, text: &mut Text, index: &Index) {
        if self.what == "scopes" {
            let scopes = scopes_in(text.alloc(), index);
            say_scopes(text, scopes);
        } else {
            let tables = rewritten_tables(text.alloc(), index);
            if let Some(tables) = text.taken(tables) {
                say_tables(text, self.what, &tables);
            }
        }
    }
}

/// The new tables of an index.
fn rewritten_tables(alloc: Global, index: &Index) -> Result<RewrittenTables, Unanswered> {
    Ok(rewrite_rows(alloc, index, BASE)?)
}

/// The descriptors of the first entry.
fn scopes_in(alloc: Global, index: &Index) -> Result<Vec<GnuDescriptor>, Unanswered> {
    let Some(entry) = entry_of(index) else {
        return Err(Unanswered::Because("not generic"));
    };
    let Ok(area) = entry.lsda() else {
        return Err(Unanswered::Because("no area"));
    };
    Ok(scopes_of(alloc, &entry, &area)?)
}

fn say_scopes(text: &mut Text, scopes: Result<Vec<GnuDescriptor>, Unanswered>) {
    if let Some(scopes) = text.taken(scopes) {
        for scope in &scopes {
            say_scope(text, scope);
        }
    }
}

fn say_scope(text: &mut Text, s: &GnuDescriptor) {
    let (offset, size) = (s.descriptor.offset, s.descriptor.size);
    write!(text, " {offset:X}+{size:X} ");
    match s.descriptor.kind {
        OwnKind::Specification => text.say("nothing passes"),
        OwnKind::Catch { pad, takes } => say_catch(text, pad, takes, s.filter.unwrap_or(0)),
        OwnKind::Cleanup { pad } => write!(text, "cleanup at {pad:X}"),
    }
    text.say(",");
}

fn say_catch(text: &mut Text, pad: u32, takes: CatchType, filter: u32) {
    match takes {
        CatchType::All => write!(text, "catch {filter} of all at {pad:X}"),
        CatchType::AllFails => text.say("all fails"),
        CatchType::One(a) => write!(text, "catch {filter} of {a:X} at {pad:X}"),
    }
}

fn say_tables(text: &mut Text, what: &str, tables: &RewrittenTables) {
    match what {
        "bytes" => say_bytes(text, &tables.bytes),
        "rows" => say_rows(text, tables),
        "filters" => say_filters(text, &tables.filters),
        _ => text.refuse(Unanswered::NotKnown),
    }
}

fn say_bytes(text: &mut Text, bytes: &[u8]) {
    for byte in bytes {
        write!(text, " {byte:X}");
    }
}

fn say_row(text: &mut Text, row: &Entry) {
    let start = row.start;
    match row.body {
        EntryBody::CantUnwind => write!(text, " {start:X} can't unwind,"),
        EntryBody::Inline(word) => write!(text, " {start:X} inline {word:X},"),
        EntryBody::Table(a) => write!(text, " {start:X} table {a:X},"),
    }
}

fn say_rows(text: &mut Text, tables: &RewrittenTables) {
    for row in &tables.rows {
        say_row(text, row);
    }
    say_refused(text, &tables.refused);
}

/// Appends the entries that aren't rewritten.
pub fn say_refused(text: &mut Text, entries: &[RefusedEntry]) {
    for entry in entries {
        let (start, fault) = (entry.start, entry.fault);
        write!(text, " {fault:?} {start:X},");
    }
}

/// Appends the addresses of catches with their filters.
pub fn say_filters(text: &mut Text, filters: &[(u32, u32)]) {
    for (desc, filter) in filters {
        write!(text, " {desc:X} {filter},");
    }
}
