//! The lines that say how a run ended, why a file is no image, why the checker refuses one, and how many there are of something. Every
//! program writes them in the same form (docs/guide/command-line.md).
#![tactic(auto)]

mod check_line;
mod count;
mod gnu_line;
mod line;

pub use check_line::{accepted_line, index_line, push_cause, push_cause_text, type_line};
pub use count::push_count;
pub use gnu_line::tables_line;
pub use line::{Line, append, end_line, image_fault_line, refusal_line, refusal_line_with};
