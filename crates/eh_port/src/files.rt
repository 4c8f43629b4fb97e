//! Files by name, with a count of failed reads and a record of the names that were asked for (docs/rules/memory.md).
//!
//! A read answers `Failed` only if the count rose in that call, so a caller can find whose failure it was. A count at
//! the greatest `u64` stays there and counts as risen. A read that succeeds, or that finds no memory, leaves the count
//! unchanged.

ghost use Rattle.std.specs.Prelude.{◌≡◌, ℕ, List, IfOk, IfSome, Option};
ghost use Rattle.eh_port.specs.FileList.{answer_of, FileCause};

mod host;
mod list;
mod memory;
mod sure;

use crate::Bytes;
pub use host::HostFiles;
pub use list::{FileList, MemFile};
pub use memory::MemFiles;
use std::alloc::Global;
pub use sure::SureFiles;

/// What reading a file by name gives.
#[derive(Drop)]
pub enum FileAnswer {
    /// The file's bytes, at most as many as were asked for.
    Found(Bytes),
    /// No file has this name.
    Missing,
    /// The file has more bytes than were asked for.
    TooLong,
}

/// Why a read gave no answer.
#[derive(Clone, Copy)]
pub enum FileFault {
    /// The read failed; the count of faults has risen.
    Failed,
    /// There was no memory for the bytes.
    OutOfMemory,
}

/// Files by name.
pub trait Files {
    /// The files as pairs of name and bytes, if the object knows them. Reading changes none.
    ghost held: { Self → Option (List (List ℕ × List ℕ)) };

    /// How many reads have failed.
    ghost faults: { Self → ℕ };

    /// The record of the names that were asked for, as a number.
    ghost asked: { Self → ℕ };

    /// The record after one more name.
    ghost with_name: { ℕ → List ℕ → ℕ };

    /// Reads the first file of this name if it has at most `most` bytes. The name is recorded in any case.
    fn read(&mut self, alloc: Global, name: &str, most: usize) -> Result<FileAnswer, FileFault>
        ensures same { held self.new ≡ held self.old }
        ensures answer { IfOk result (λ answer. IfSome (held self.old) (λ files. answer ≡ answer_of files name.now most)) }
        ensures cause { FileCause (faults self.old) (faults self.new) result }
        ensures once { asked self.new ≡ with_name (asked self.old) name.now };
}
