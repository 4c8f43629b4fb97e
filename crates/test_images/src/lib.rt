//! Asks the rows of the folders images and gnu in the data/ of `test_layers_main`: ELF images and their index, and the tables that a GNU
//! C++ compiler writes.
#![tactic(auto)]

pub mod gnu;
pub mod images;
