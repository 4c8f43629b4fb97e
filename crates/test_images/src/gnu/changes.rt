//! Why an entry is refused in which a byte is changed to each value, or which is cut at each length.
use crate::gnu::image::fault_of;
use test_rows::{Text, Unanswered, first_word};

/// The names of answers, in the order of the counts.
static NAMES: [&str; 9] = [
    "none",
    "not generic",
    "Personality",
    "Short",
    "Format",
    "Order",
    "Filter",
    "Chain",
    "TooLong",
];

/// Adds the name of the refusal of a table.
fn push_name(names: &mut Vec<&'static str>, text: &Text, table: &[u8]) -> Result<(), Unanswered> {
    names.push(fault_of(text.alloc(), table)?)?;
    Ok(())
}

/// The refusals with each value of one byte.
fn faults_by_byte(text: &mut Text, rest: &str) -> Vec<&'static str> {
    let mut names = Vec::new(text.alloc());
    let (place, words) = first_word(rest);
    let place = text.decimal(place) as usize;
    let mut table = text.bytes(words);
    for value in 0..=255 {
        if let Some(byte) = table.get_mut(place) {
            *byte = value;
        }
        let pushed = push_name(&mut names, text, &table);
        text.taken(pushed);
    }
    names
}

/// The refusals of the first byte, of the first two, and so on.
fn faults_by_length(text: &mut Text, words: &str) -> Vec<&'static str> {
    let mut names = Vec::new(text.alloc());
    let table = text.bytes(words);
    for i in 0..table.len() {
        let pushed = push_name(&mut names, text, &table[..i + 1]);
        text.taken(pushed);
    }
    names
}

/// Appends a run of equal answers, from one number to another.
fn say_run(text: &mut Text, from: usize, to: usize, name: &str) {
    write!(text, " {from:X}");
    if from < to {
        write!(text, "-{to:X}");
    }
    write!(text, " {name},");
}

/// Appends answers in runs of equal ones. `first` is the number of the first answer.
fn say_runs(text: &mut Text, first: usize, names: &[&'static str]) {
    let mut from = first;
    for (i, name) in names.iter().enumerate() {
        let to = first.saturating_add(i);
        let ends = match names.get(i + 1) {
            None => true,
            Some(next) => *next != *name,
        };
        if ends {
            say_run(text, from, to, name);
            from = to.saturating_add(1);
        }
    }
}

/// Appends how many have which answer.
fn say_counts(text: &mut Text, names: &[&'static str]) {
    for name in NAMES.iter() {
        let count = names.iter().filter(|other| **other == *name).count();
        if count > 0 {
            write!(text, " {name} {count},");
        }
    }
}

/// `each PLACE BYTES` and `count PLACE BYTES`: the refusals with each value of the byte at an offset, and how many values have which
/// answer. `cut BYTES`: the refusals of each length.
pub fn tell(text: &mut Text, question: &str) {
    let (what, rest) = first_word(question);
    text.say("values");
    match what {
        "each" => {
            let names = faults_by_byte(text, rest);
            say_runs(text, 0, &names);
        }
        "count" => {
            let names = faults_by_byte(text, rest);
            say_counts(text, &names);
        }
        "cut" => {
            let names = faults_by_length(text, rest);
            say_runs(text, 1, &names);
        }
        _ => text.refuse(Unanswered::NotKnown),
    }
}
