//! What the table of an entry says, and why an entry is refused.
use crate::gnu::image::{OfIndex, entry_of, fault_of, file_of, tell_of};
use eh_index::Index;
use gnu_lsda::{Action, ActionFault, CatchFilter, HeadFault, Lsda, Record, RecordFault};
use test_rows::{Text, Unanswered, first_word};

/// The bytes before the action chain, in a table without a type table that has a record with a chain.
static FRONT_OF_CHAIN: [u8; 15] = [
    0x40, 0xF0, 0xFF, 0x7F, 0xB0, 0xB0, 0xB0, 0, 0xFF, 0xFF, 1, 4, 0, 4, 0xA,
];

/// The bytes of a table before the number of its further words.
static FRONT_OF_WORDS: [u8; 7] = [0x40, 0xF0, 0xFF, 0x7F, 0xB0, 0xB0, 0xB0];

/// A question on the records of an entry.
struct Records;

/// Appends bytes several times.
fn push_times(table: &mut Vec<u8>, count: u32, part: &[u8]) -> Result<(), Unanswered> {
    for _i in 0..count {
        table.extend_from_slice(part)?;
    }
    Ok(())
}

/// Appends a chain of so many cleanups, each of which leads on to the next by a 1, and after the last the given bytes.
fn push_chain(table: &mut Vec<u8>, count: u32, way: &[u8]) -> Result<(), Unanswered> {
    table.extend_from_slice(&FRONT_OF_CHAIN)?;
    push_times(table, count, &[1, 0])?;
    table.extend_from_slice(way)?;
    Ok(())
}

/// Appends so many words of code after the second word, at most 255, and an area after them.
fn push_words(table: &mut Vec<u8>, count: u32, area: &[u8]) -> Result<(), Unanswered> {
    table.extend_from_slice(&FRONT_OF_WORDS)?;
    table.push((count % 256) as u8)?;
    push_times(table, count % 256, &[0xB0; 4])?;
    table.extend_from_slice(area)?;
    Ok(())
}

/// The table that a question describes. `chain N BYTES`: with a chain of N cleanups and then these bytes; `words N BYTES`: with N words of
/// code after its second word.
fn table_of(text: &mut Text, what: &str, rest: &str) -> Vec<u8> {
    let (count, end) = first_word(rest);
    let count = text.decimal(count);
    let end = text.bytes(end);
    let mut table = Vec::new(text.alloc());
    let pushed = if what == "chain" {
        push_chain(&mut table, count, &end)
    } else {
        push_words(&mut table, count, &end)
    };
    text.taken(pushed);
    table
}

/// `fault BYTES`, `chain N BYTES` and `words N BYTES`: why an entry is refused. `entry BYTES`: its records, each with its actions.
pub fn tell(text: &mut Text, question: &str) {
    let (what, rest) = first_word(question);
    match what {
        "fault" => {
            let table = text.bytes(rest);
            say_fault(text, &table);
        }
        "chain" | "words" => {
            let table = table_of(text, what, rest);
            say_fault(text, &table);
        }
        "entry" => {
            let table = text.bytes(rest);
            let file = file_of(text.alloc(), &table);
            tell_of(text, file, &Records);
        }
        _ => text.refuse(Unanswered::NotKnown),
    }
}

/// Appends why an entry is refused.
fn say_fault(text: &mut Text, table: &[u8]) {
    let name = fault_of(text.alloc(), table);
    if let Some(name) = text.taken(name) {
        text.say(name);
    }
}

/// Appends an action.
fn say_action(text: &mut Text, item: Result<Action, ActionFault>) {
    match item {
        Ok(Action::Cleanup) => text.say(" cleanup,"),
        Ok(Action::Catch { filter, takes }) => say_catch(text, filter, takes),
        Ok(Action::NoTypes) => text.say(" no types,"),
        Ok(Action::Specification) => text.say(" specification,"),
        Err(ActionFault::Short) => text.say(" too short,"),
        Err(ActionFault::Chain) => text.say(" too many,"),
    }
}

fn say_catch(text: &mut Text, filter: u64, takes: CatchFilter) {
    match takes {
        CatchFilter::All => write!(text, " catch {filter} of all,"),
        CatchFilter::OfType(a) => write!(text, " catch {filter} of {a:X},"),
    }
}

/// Appends a record with its actions.
fn say_record(text: &mut Text, area: &Lsda, site: &Record) {
    let (start, size, pad) = (site.start, site.size, site.pad);
    write!(text, " {start:X}+{size:X} to {pad:X}:");
    for item in area.actions(site.action) {
        say_action(text, item);
    }
}

/// Appends all records.
fn say_records(text: &mut Text, area: &Lsda) {
    text.say("records");
    for item in area.records() {
        match item {
            Ok(site) => say_record(text, area, &site),
            Err(RecordFault::Short) => text.say(" too short"),
        }
        text.say(";");
    }
}

impl OfIndex for Records {
    fn tell(&self, text: &mut Text, index: &Index) {
        let Some(entry) = entry_of(index) else {
            return text.refuse(Unanswered::Because("not generic"));
        };
        match entry.lsda() {
            Ok(area) => say_records(text, &area),
            Err(HeadFault::Short) => text.say("head too short"),
            Err(HeadFault::Format) => text.say("head of another format"),
        }
    }
}
