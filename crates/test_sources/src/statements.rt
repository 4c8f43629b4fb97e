//! How a source is read (docs/rules/sources.md).
use crate::shown::say_kind;
use crate::texts::read_question;
use asm_read::Stmt;
use test_rows::{Telling, Text};

/// The greatest number of statements that an answer lists.
const MOST_LISTED: usize = 8;

/// `TEXT`: the statements of a source, each with its line. If there are many: their number, and the line of the last. If the source is
/// refused: the line and column, and why.
pub struct Statements;

/// Appends a statement and its line.
fn say_statement(text: &mut Text, stmt: &Stmt) {
    text.say_decimal(stmt.line);
    text.say(" ");
    say_kind(text, &stmt.kind);
}

fn say_each(text: &mut Text, stmts: &[Stmt]) {
    for stmt in stmts {
        text.say_between("; ");
        say_statement(text, stmt);
    }
}

fn say_statements(text: &mut Text, stmts: &[Stmt]) {
    let count = stmts.len();
    match stmts.last() {
        None => text.say("nothing"),
        Some(last) if count > MOST_LISTED => {
            text.say_count(count);
            text.say(" statements, the last on line ");
            text.say_decimal(last.line);
        }
        Some(_) => say_each(text, stmts),
    }
}

impl Telling for Statements {
    fn tell(&self, text: &mut Text, question: &str) {
        if let Some(stmts) = read_question(text, question) {
            say_statements(text, stmts.as_slice());
        }
    }
}
