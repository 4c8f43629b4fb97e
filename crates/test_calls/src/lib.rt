//! Tests that need direct calls of public functions: names, lists, ports and files, a memory of as many segments as it may have, the
//! encoder and sums. Numbers, accesses, the decoder and the core are tested by rows of test_core.
#![tactic(auto)]

#[cfg(test)]
mod encode;
#[cfg(test)]
mod files;
#[cfg(test)]
mod lists;
#[cfg(test)]
mod pages;
#[cfg(test)]
mod streams;
#[cfg(test)]
mod sums;
#[cfg(test)]
mod words;
