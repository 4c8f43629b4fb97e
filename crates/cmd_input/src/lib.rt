//! From the words of a program to the images that they name: the forms of words, reading the files, building sources into an image, and
//! checking an image. Each refusal has its line (docs/guide/command-line.md). The commands build on this crate.
#![tactic(auto)]

pub mod accept;
pub mod build;
pub mod laws;
pub mod named;
pub mod refusal;
pub mod sources;
pub mod words;
