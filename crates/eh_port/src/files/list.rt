//! A list of files in memory. Contracts see a list (docs/rules/memory.md).
use crate::Bytes;
use eh_word::Seq;

/// A file in memory.
#[derive(Drop)]
pub struct MemFile {
    /// The file's name.
    pub name: Bytes,
    /// The file's bytes.
    pub bytes: Bytes,
}

/// Files in memory, in order.
pub type FileList = Seq<MemFile>;
