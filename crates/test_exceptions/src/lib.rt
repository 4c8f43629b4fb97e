//! Runs the cases of exceptions/, in the data/ of test_layers_main: calls over a pool, one after the other; random sequences of calls,
//! compared with a model; and the lines of traces. A line is a question, ` : ` and its answer, by hand from docs/rules/phases-and-exceptions.md and IHI
//! 0038.
#![tactic(auto)]

mod answers;
mod calls;
mod model;
mod sequences;
mod traces;
mod words;

use sequences::Sequences;
use std::io::Error;
use test_rows::{Pieces, Telling, Text, first_word, run_telling};
use traces::Traces;
use words::PoolState;

/// Calls over a pool, separated by `; `.
struct InPool;

impl Pieces for PoolState {
    /// Answers one call.
    fn tell_piece(&mut self, text: &mut Text, piece: &str) {
        let (what, rest) = first_word(piece);
        let given = text.numbers(rest);
        calls::tell(text, self, what, &given);
    }
}

impl Telling for InPool {
    fn tell(&self, text: &mut Text, question: &str) {
        match PoolState::empty(text.alloc()) {
            Ok(mut pool) => text.tell_pieces(&mut pool, question, "; "),
            Err(_) => text.want_memory(),
        }
    }
}

/// Asks all rows.
pub fn run(host: &HostRuntime) -> Result<(), Error> {
    for name in [
        "exceptions/calls.txt",
        "exceptions/words.txt",
        "exceptions/odd.txt",
    ] {
        run_telling(host, name, &InPool)?;
    }
    run_telling(host, "exceptions/sequences.txt", &Sequences)?;
    run_telling(host, "exceptions/traces.txt", &Traces)
}
