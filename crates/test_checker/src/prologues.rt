//! Prologues, as words: the saves, such as `lr@4 r4@8`, or `-`.
use crate::facts::{register_of, say_register};
use frame_facts::{Prologue, Save};
use test_rows::{Text, Unanswered};

/// No prologue, at 8000.
const NONE: Prologue = Prologue {
    end: 0x8000,
    count: 0,
    saves: [Save { reg: 0, offset: 0 }; 16],
};

/// The prologue `push {r4, lr}` at 0x8000.
pub fn usual_prologue() -> Prologue {
    let mut p = NONE;
    p.end = 0x8002;
    p.count = 2;
    p.saves[0] = Save { reg: 14, offset: 4 };
    p.saves[1] = Save { reg: 4, offset: 8 };
    p
}

/// Adds a save to a prologue.
fn add_save(text: &mut Text, p: &mut Prologue, words: &str) {
    let (register, offset) = words.split_once('@').unwrap_or((words, ""));
    let reg = register_of(text, register);
    let offset = text.decimal(offset);
    match p.saves.get_mut(p.count as usize) {
        Some(save) => *save = Save { reg, offset },
        None => text.refuse(Unanswered::Because("too many saves")),
    }
    p.count = p.count.saturating_add(1);
}

/// The prologue that words describe. It begins at 8000, and has one instruction if it saves something.
pub fn prologue_of(text: &mut Text, words: &str) -> Prologue {
    let mut p = NONE;
    if words != "-" {
        p.end = 0x8002;
        for save in words.split(' ') {
            add_save(text, &mut p, save);
        }
    }
    p
}

fn say_save(text: &mut Text, save: Save) {
    say_register(text, save.reg as usize);
    text.say("@");
    text.say_decimal(save.offset);
}

/// Appends the saves of a prologue.
pub fn say_saves(text: &mut Text, p: &Prologue) {
    if p.count == 0 {
        text.say("-");
    }
    let mut is_first = true;
    for save in p.saves.iter().take(p.count as usize) {
        text.say(if is_first { "" } else { " " });
        say_save(text, *save);
        is_first = false;
    }
}
