//! What the index, the unwind instructions and the descriptors of an image's unwind tables mean (IHI 0038), as bytes and numbers: laws
//! above the readers' definitions. docs/rules/unwind-tables.md, docs/rules/unwind-tables.md and docs/rules/unwind-tables.md state the rules.
#![tactic(auto)]

pub mod code_bytes;
pub mod descriptors;
pub mod indexes;
