//! Asks the rows of the folders words, instructions and threads in the data/ of `test_layers_main`: numbers and memories, the decoder and
//! the core, memories and schedules of threads.
#![tactic(auto)]

pub mod instructions;
pub mod threads;
pub mod words;
