//! Dataflow facts, as words.
//!
//! A fact is a name, followed by changes. `entry` is the fact at a function's entry, and `after` that after `push {r4, lr}` there.
//! `mixed` is `after` with r1 unknown, the CFA minus 8 in r2, r5's value in r3 and the CFA minus 4 in r7. The changes are in decimal:
//! `depth=N`, `kept=N`, `below=yes`, and what a register holds: `r7=cfa-4`, `r7=r5` or `r7=?`.
use frame_facts::{Fact, Source, entry_fact};
use test_rows::{Text, Unanswered, first_word};

fn after() -> Fact {
    let mut fact = entry_fact();
    fact.depth = 8;
    fact.kept = 2;
    fact
}

fn mixed_fact() -> Fact {
    let mut fact = after();
    fact.regs[1] = Source::Other;
    fact.regs[2] = Source::SpAt(8);
    fact.regs[3] = Source::Entry(5);
    fact.regs[7] = Source::SpAt(4);
    fact
}

/// The number of a register, `r0` to `r15` or `lr`.
pub fn register_of(text: &mut Text, word: &str) -> u8 {
    if word == "lr" {
        return 14;
    }
    let number = text.decimal(word.strip_prefix('r').unwrap_or(""));
    if number < 16 {
        number as u8
    } else {
        text.refuse(Unanswered::NotKnown);
        0
    }
}

/// The contents of a register that a word writes.
fn source_of(text: &mut Text, word: &str) -> Source {
    if word == "?" {
        return Source::Other;
    }
    match word.strip_prefix("cfa-") {
        Some(digits) => Source::SpAt(text.decimal(digits)),
        None => Source::Entry(register_of(text, word)),
    }
}

/// Changes what a fact says of a register.
fn change_register(text: &mut Text, fact: &mut Fact, register: &str, value: &str) {
    let place = match register_of(text, register) {
        14 => 13,
        register => register as usize,
    };
    let source = source_of(text, value);
    match fact.regs.get_mut(place) {
        Some(held) => *held = source,
        None => text.refuse(Unanswered::NotKnown),
    }
}

/// Makes a change to a fact.
fn change(text: &mut Text, fact: &mut Fact, words: &str) {
    let (what, value) = words.split_once('=').unwrap_or((words, ""));
    match what {
        "depth" => fact.depth = text.decimal(value),
        "kept" => fact.kept = text.decimal(value),
        "below" => fact.below = value == "yes",
        register => change_register(text, fact, register, value),
    }
}

/// The fact with a name.
fn fact_of_name(text: &mut Text, name: &str) -> Fact {
    match name {
        "entry" => entry_fact(),
        "after" => after(),
        "mixed" => mixed_fact(),
        _ => {
            text.refuse(Unanswered::NotKnown);
            entry_fact()
        }
    }
}

/// The fact that words describe.
pub fn fact_of(text: &mut Text, words: &str) -> Fact {
    let (name, changes) = first_word(words);
    let mut fact = fact_of_name(text, name);
    if !changes.is_empty() {
        for words in changes.split(' ') {
            change(text, &mut fact, words);
        }
    }
    fact
}

/// Appends the name of the register with an index in a fact, or of a register.
pub fn say_register(text: &mut Text, register: usize) {
    if register > 12 {
        text.say("lr");
    } else {
        text.say("r");
        text.say_count(register);
    }
}

fn say_source(text: &mut Text, source: Source) {
    match source {
        Source::Entry(register) => say_register(text, register as usize),
        Source::SpAt(offset) => {
            text.say("cfa-");
            text.say_decimal(offset);
        }
        Source::Other => text.say("?"),
    }
}

/// Appends a name, and a number.
fn say_number(text: &mut Text, name: &str, number: u32) {
    text.say_between(" ");
    text.say(name);
    text.say_decimal(number);
}

/// Appends what the register with an index holds.
fn say_held(text: &mut Text, place: usize, source: Source) {
    text.say_between(" ");
    say_register(text, place);
    text.say("=");
    say_source(text, source);
}

/// Appends what differs in depth and saves.
fn say_frame_difference(text: &mut Text, before: &Fact, after: &Fact) {
    if before.depth != after.depth {
        say_number(text, "depth=", after.depth);
    }
    if before.below != after.below {
        text.say_between(" ");
        text.say(if after.below { "below=yes" } else { "below=no" });
    }
    if before.kept != after.kept {
        say_number(text, "kept=", after.kept);
    }
}

/// Appends what of a fact differs from the one before it, or `the same`.
pub fn say_difference(text: &mut Text, before: &Fact, after: &Fact) {
    say_frame_difference(text, before, after);
    for (place, (old, new)) in before.regs.iter().zip(&after.regs).enumerate() {
        if old != new {
            say_held(text, place, *new);
        }
    }
    if text.is_empty() {
        text.say("the same");
    }
}

/// Appends all of a fact.
pub fn say_fact(text: &mut Text, fact: &Fact) {
    say_number(text, "depth=", fact.depth);
    text.say(" below=");
    text.say_whether(fact.below);
    say_number(text, "kept=", fact.kept);
    for (place, source) in fact.regs.iter().enumerate() {
        say_held(text, place, *source);
    }
}
