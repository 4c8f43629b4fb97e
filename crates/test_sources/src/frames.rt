//! The unwind directives of a function, and the unwind entry made of them (docs/rules/sources.md).
use crate::texts::{read_question, say_words};
use UnwindDirective::{
    CantUnwind, FnEnd, FnStart, HandlerData, Pad, PersonalityIndex, Save, SetFp,
};
use asm_read::{Stmt, StmtKind};
use asm_unwind::{EntryWords, FrameText, UnwindDirective, UnwindFault, new_frame};
use test_rows::{Telling, Text};

/// The greatest number of words of a table that an answer lists.
const MOST_LISTED: usize = 8;

/// `DIRECTIVES`: the entry of a function, or the line of the directive that is refused, and why. For a function without an end: that it is
/// refused, and its entry once it is ended.
pub struct FrameDirectives;

/// The unwind directive of a statement. None for any other statement.
fn directive_of(kind: &StmtKind) -> Option<UnwindDirective> {
    match kind {
        StmtKind::FnStart => Some(FnStart),
        StmtKind::FnEnd => Some(FnEnd),
        StmtKind::Save { list } => Some(Save(*list)),
        StmtKind::Pad(n) => Some(Pad(u32::try_from(*n).ok()?)),
        StmtKind::SetFp { r, off } => Some(SetFp(*r, u32::try_from(*off).ok()?)),
        StmtKind::CantUnwind => Some(CantUnwind),
        StmtKind::PersonalityIndex(n) => Some(PersonalityIndex(u8::try_from(*n).ok()?)),
        StmtKind::HandlerData => Some(HandlerData),
        _ => None,
    }
}

/// Gives a frame the directive of a statement, if it is one; gives why it is refused, if it is.
fn give(frame: &mut FrameText, stmt: &Stmt) -> Option<UnwindFault> {
    let directive = directive_of(&stmt.kind)?;
    frame.directive(directive).err()
}

/// Gives a frame the directives of statements, up to the first that is refused. Its line and cause are appended.
fn give_all(text: &mut Text, frame: &mut FrameText, stmts: &[Stmt]) -> bool {
    for stmt in stmts {
        if let Some(fault) = give(frame, stmt) {
            text.say_decimal(stmt.line);
            text.say(" ");
            text.say_ascii(fault.name());
            return false;
        }
    }
    true
}

/// Appends the words of a table; for a long one their number, the first and the last two.
fn say_table(text: &mut Text, words: &[u32]) {
    text.say("table");
    match words {
        [first, .., before, last] if words.len() > MOST_LISTED => {
            text.say(" of ");
            text.say_count(words.len());
            text.say(" words");
            say_words(text, &[*first]);
            text.say(" ..");
            say_words(text, &[*before, *last]);
        }
        _ => say_words(text, words),
    }
}

fn say_entry(text: &mut Text, entry: &EntryWords) {
    match entry {
        EntryWords::CantUnwind => text.say("can't unwind"),
        EntryWords::Inline(word) => {
            text.say("inline ");
            text.say_hex(*word);
        }
        EntryWords::Table(words) => say_table(text, words.as_slice()),
    }
}

/// Appends what a frame ends with. If it doesn't end, it is handed back.
fn say_end(text: &mut Text, frame: FrameText) -> Option<FrameText> {
    match frame.finish() {
        Ok(entry) => {
            say_entry(text, &entry);
            None
        }
        Err((fault, frame)) => {
            text.say_ascii(fault.name());
            Some(frame)
        }
    }
}

/// Appends what a frame ends with after its function is ended.
fn say_ended(text: &mut Text, mut frame: FrameText) {
    if frame.directive(FnEnd).is_ok() {
        text.say(", and ended ");
        let _frame = say_end(text, frame);
    }
}

/// Appends the result of the directives of statements.
fn say_frame(text: &mut Text, stmts: &[Stmt]) {
    let mut frame = new_frame(text.alloc());
    if give_all(text, &mut frame, stmts) {
        if let Some(open) = say_end(text, frame) {
            say_ended(text, open);
        }
    }
}

impl Telling for FrameDirectives {
    fn tell(&self, text: &mut Text, question: &str) {
        if let Some(stmts) = read_question(text, question) {
            say_frame(text, stmts.as_slice());
        }
    }
}
