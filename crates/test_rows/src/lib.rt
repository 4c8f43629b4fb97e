//! Files of rows, by which test programs test. A line `question : answer` is a case; a line without ` : ` says what the lines below it are
//! about. A program says how a question is answered; its cases are in its data/.
#![tactic(auto)]

pub mod faults;
pub mod growing;
pub mod images;
pub mod lists;
pub mod rows;
pub mod sources;
pub mod unanswered;
pub mod words;

pub use growing::{Pieces, Telling, Text, run_telling};
pub use rows::{Asked, run_file};
pub use unanswered::{Unanswered, want_of_memory};
pub use words::{decimal, first_word, number, number_at, numbers};
