//! Gates and runs described by the bytes that a source gave, whether or not it knows what it has left
//! (docs/rules/memory.md, "Sources that tell nothing").

mod gates;
mod source;

pub use gates::gate;
