//! Effects of instructions on facts, what facts have in common, and the causes for which an instruction is refused.
use crate::causes::say_cause;
use crate::facts::{fact_of, say_difference, say_fact};
use crate::prologues::usual_prologue;
use crate::source::instruction;
use frame_facts::{Fact, after, clobber, is_same, join};
use test_rows::{Telling, Text, Unanswered, first_word};

/// The addresses of an instruction after the prologue, and of the function's entry.
const AFTER: u32 = 0x8010;

const ENTRY: u32 = 0x8000;

/// Questions on facts.
pub struct Effects;

impl Telling for Effects {
    fn tell(&self, text: &mut Text, question: &str) {
        let (what, rest) = first_word(question);
        let (fact, rest) = rest.split_once(" ; ").unwrap_or((rest, ""));
        let fact = fact_of(text, fact);
        match what {
            "fact" => say_fact(text, &fact),
            "effect" => say_effect(text, &fact, rest, AFTER, false),
            "lowers" => say_effect(text, &fact, rest, AFTER, true),
            "first" => say_effect(text, &fact, rest, ENTRY, false),
            "forget" => say_forgotten(text, &fact, rest),
            "meet" => say_meeting(text, &fact, rest),
            "same" => say_same(text, &fact, rest),
            _ => text.refuse(Unanswered::NotKnown),
        }
    }
}

/// `effect FACT ; INSTRUCTION`, `lowers ..` if sp is lowered by an unknown amount there, and `first ..` at the entry: what of the fact
/// differs after it, or the cause for which it is refused.
fn say_effect(text: &mut Text, fact: &Fact, words: &str, at: u32, lowers: bool) {
    if let Some(i) = instruction(text, words) {
        match after(fact, &i, at, &usual_prologue(), lowers) {
            Ok(next) => say_difference(text, fact, &next),
            Err(cause) => say_cause(text, cause),
        }
    }
}

/// `forget FACT ; LIST`: what differs when nothing is known of these registers.
fn say_forgotten(text: &mut Text, fact: &Fact, list: &str) {
    let list = (text.hex(list) % 0x1_0000) as u16;
    say_difference(text, fact, &clobber(fact, list));
}

/// `meet FACT ; FACT`: how the join of both facts differs from the second.
fn say_meeting(text: &mut Text, a: &Fact, words: &str) {
    let b = fact_of(text, words);
    match join(a, &b) {
        Some(both) => say_difference(text, &b, &both),
        None => text.say("no meeting"),
    }
}

/// `same FACT ; FACT`: whether both are the same.
fn say_same(text: &mut Text, a: &Fact, words: &str) {
    let b = fact_of(text, words);
    text.say(if is_same(a, &b) { "yes" } else { "no" });
}
