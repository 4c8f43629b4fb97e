//! Recipes of real entries, compared with facts of frames.
use crate::causes::say_cause;
use crate::facts::fact_of;
use crate::prologues::prologue_of;
use eh_bytecode::{Codes, Recipe, summarise};
use frame_facts::agrees;
use test_rows::{Telling, Text, Unanswered, first_word};

/// Questions on sites.
pub struct Sites;

/// The recipe of an inline entry.
fn recipe_of(word: u32) -> Option<Recipe> {
    let codes = Codes::inline(word).ok()?;
    summarise(&codes).ok()
}

/// Appends whether a recipe restores a frame with such a fact and saves, or the cause why not.
fn say_site(text: &mut Text, fact: &str, saves: &str, recipe: &Recipe, is_call: bool) {
    let fact = fact_of(text, fact);
    let prologue = prologue_of(text, saves);
    match agrees(&fact, &prologue, recipe, is_call) {
        Ok(()) => text.say("agrees"),
        Err(cause) => say_cause(text, cause),
    }
}

impl Telling for Sites {
    /// `call FACT ; SAVES ; WORD` and `gate FACT ; SAVES ; WORD`: the verdict on a site whose covering entry is this word.
    fn tell(&self, text: &mut Text, question: &str) {
        let (what, rest) = first_word(question);
        let (fact, rest) = rest.split_once(" ; ").unwrap_or((rest, ""));
        let (saves, word) = rest.split_once(" ; ").unwrap_or((rest, ""));
        if what != "call" && what != "gate" {
            text.refuse(Unanswered::NotKnown);
        }
        match recipe_of(text.hex(word)) {
            Some(recipe) => say_site(text, fact, saves, &recipe, what == "call"),
            None => text.say("no recipe"),
        }
    }
}
