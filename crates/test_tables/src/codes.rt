//! Recipes of inline entries, and whether they pop a register twice.
use crate::unwinding::fault_text;
use eh_bytecode::{Codes, Recipe, RecipeFault, Src, pops_once, summarise};
use test_rows::{Text, Unanswered, first_word};

/// `recipe WORD`: how the caller's stack pointer and registers follow from those of a frame, or why there is no recipe. `once WORD`:
/// whether no register is popped twice.
pub fn tell(text: &mut Text, question: &str) {
    let (what, word) = first_word(question);
    match Codes::inline(text.hex(word)) {
        Ok(codes) => say_codes(text, what, &codes),
        Err(fault) => text.say(fault_text(fault)),
    }
}

fn say_codes(text: &mut Text, what: &str, codes: &Codes) {
    match what {
        "recipe" => say_recipe(text, codes),
        "once" => text.say(if pops_once(codes) { "once" } else { "twice" }),
        _ => text.refuse(Unanswered::NotKnown),
    }
}

fn say_recipe(text: &mut Text, codes: &Codes) {
    match summarise(codes) {
        Ok(recipe) => say_sources(text, &recipe),
        Err(fault) => text.say(reason_of(fault)),
    }
}

/// Why there is no recipe.
fn reason_of(fault: RecipeFault) -> &'static str {
    match fault {
        RecipeFault::BadCode => "none: a bad code",
        RecipeFault::Refuses => "none: refuses to unwind",
        RecipeFault::NotStatic => "none: not static",
    }
}

fn say_sources(text: &mut Text, recipe: &Recipe) {
    let (base, vsp) = (recipe.base, recipe.vsp);
    write!(text, "sp=r{base}+{vsp}");
    for register in 0..16usize {
        say_source(text, register, recipe.src[register]);
    }
}

/// Appends the source of a register, if it changes.
fn say_source(text: &mut Text, register: usize, source: Src) {
    match source {
        Src::Same => {}
        Src::FromSp(by) => say_load(text, register, "sp", by),
        Src::FromBase(by) => say_load(text, register, "base", by),
    }
}

/// Appends where a register is loaded from.
fn say_load(text: &mut Text, register: usize, from: &str, by: i32) {
    write!(text, " r{register}=[{from}+{by}]");
}
