//! The findings of an audit, in words.
use eh_index::IndexFault;
use eh_types::TypeFault;
use frame_audit::{Audit, CAUSES, FunctionAudit, Question};
use test_rows::Text;

/// How many refused functions are named; beyond that only their counts are.
const MOST_TOLD: usize = 8;

/// Appends `NAME at ADDRESS CAUSE; ` for a refused function.
fn say_function(text: &mut Text, audited: &FunctionAudit) {
    if let Some(unwell) = audited.unwell {
        text.say_ascii(audited.name);
        text.say(" at ");
        text.say_hex(unwell.at);
        text.say(" ");
        text.say_ascii(unwell.cause.name());
        text.say("; ");
    }
}

fn say_functions(text: &mut Text, functions: &[FunctionAudit]) {
    if functions.len() <= MOST_TOLD {
        for audited in functions {
            say_function(text, audited);
        }
    }
}

/// The address of the type that a refusal names.
fn type_of(fault: TypeFault) -> Option<u32> {
    match fault {
        TypeFault::Unreadable(a)
        | TypeFault::Writable(a)
        | TypeFault::NameTooLong(a)
        | TypeFault::Cyclic(a)
        | TypeFault::TooManyPaths(a) => Some(a),
        TypeFault::OutOfMemory => None,
    }
}

/// Appends what is wrong with the types.
fn say_types(text: &mut Text, fault: TypeFault) {
    text.say("types ");
    text.say_ascii(fault.name());
    if let Some(a) = type_of(fault) {
        text.say(" ");
        text.say_hex(a);
    }
    text.say("; ");
}

/// Appends `CAUSE COUNT, ` for a cause that occurs.
fn say_cause(text: &mut Text, name: &[u8], count: usize) {
    if count > 0 {
        text.say_ascii(name);
        text.say(" ");
        text.say_count(count);
        text.say(", ");
    }
}

/// Appends `NAME COUNT of ALL, `.
fn say_share(text: &mut Text, name: &str, count: usize, all: usize) {
    text.say(name);
    text.say_count(count);
    text.say(" of ");
    text.say_count(all);
    text.say(", ");
}

/// Appends the counts of functions, with a table and without, and of code in none.
fn say_counts(text: &mut Text, audit: &Audit) {
    let tables = audit.count(Question::Unwinds);
    say_share(text, "table ", audit.count(Question::UnwindsWell), tables);
    let nones = audit.count(Question::CantUnwind);
    say_share(text, "none ", audit.count(Question::CantUnwindWell), nones);
    let all = audit.functions().len();
    say_share(text, "well ", audit.count(Question::Well), all);
    text.say("stray ");
    text.say_count(audit.stray() as usize);
    text.say(", clear ");
    text.say_whether(audit.is_clear());
}

/// Appends all that an audit finds.
pub fn say_findings(text: &mut Text, audit: &Audit) {
    say_functions(text, audit.functions());
    if let Some(fault) = audit.types() {
        say_types(text, fault);
    }
    for cause in CAUSES.iter() {
        say_cause(text, cause.name(), audit.count(Question::Cause(*cause)));
    }
    say_counts(text, audit);
}

/// The row that an index refusal names. None if it names none.
fn row_of(fault: IndexFault) -> Option<u32> {
    match fault {
        IndexFault::OutsideImage(row) | IndexFault::Unsorted(row) => Some(row),
        IndexFault::Length => None,
    }
}

/// Appends why an index can't be read.
pub fn say_refused(text: &mut Text, fault: IndexFault) {
    text.say("index ");
    text.say_ascii(fault.name());
    if let Some(row) = row_of(fault) {
        text.say(" ");
        text.say_decimal(row);
    }
}
