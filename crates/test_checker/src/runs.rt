//! Prologues, read instruction by instruction from 0x8000 on.
use crate::prologues::say_saves;
use crate::source::{code_of, instruction_at};
use frame_facts::Straight;
use test_rows::{Telling, Text, Unanswered, first_word};

/// Questions on straight-line runs of instructions.
pub struct Runs;

impl Telling for Runs {
    fn tell(&self, text: &mut Text, question: &str) {
        let (what, words) = first_word(question);
        let words = if words == "-" { "" } else { words };
        let run = run_of_words(text, words);
        match what {
            "run" => say_run(text, run),
            "stand" => text.say(if run.is_some() { "yes" } else { "no" }),
            _ => text.refuse(Unanswered::NotKnown),
        }
    }
}

/// The run of the instructions that words write, if all of them may be in it.
fn run_of_words(text: &mut Text, words: &str) -> Option<Straight> {
    let code = code_of(text, words)?;
    run_of(text, code.as_slice())
}

/// The prologue of these instructions.
fn run_of(text: &mut Text, code: &[u8]) -> Option<Straight> {
    let mut straight = Straight::begin(0x8000);
    let mut at = 0usize;
    for _ in 0..code.len() {
        if at < code.len() {
            let (i, size) = instruction_at(text, code, at)?;
            straight = straight.taken(&i, size)?;
            at = at.wrapping_add(size as usize);
        }
    }
    Some(straight)
}

/// Appends a run's end, its saves, and the depth after it.
fn say_run(text: &mut Text, run: Option<Straight>) {
    match run {
        None => text.say("no prologue"),
        Some(straight) => say_straight(text, &straight),
    }
}

fn say_straight(text: &mut Text, straight: &Straight) {
    text.say("to ");
    text.say_hex(straight.prologue.end);
    text.say(", saves ");
    say_saves(text, &straight.prologue);
    text.say(", depth ");
    text.say_decimal(straight.fact.depth);
}
