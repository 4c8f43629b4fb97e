//! Files in memory whose reads can be made to fail (docs/rules/memory.md).
ghost use Rattle.std.specs.Prelude.{◌≡◌, Some, IfOk, IfSome};
ghost use Rattle.eh_port.specs.Causes.{count_fault};
ghost use Rattle.eh_port.specs.Memory.{Calls};
ghost use Rattle.eh_port.specs.FileList.{answer_of, pairs, is_failed, FileCause};

use crate::files::list::{FileList, MemFile};
use crate::files::{FileAnswer, FileFault, Files};
use crate::{Bytes, CallNumbers, call_fails};
use std::alloc::{AllocError, Global};

/// Files in memory.
#[derive(Drop)]
pub struct MemFiles {
    /// The files.
    pub files: FileList,
    /// The number of the next call, counted from 1 and capped at the greatest `u64`.
    pub next: u64,
    /// The numbers of the calls that fail.
    pub failing: CallNumbers,
    /// How many calls have failed, capped at the greatest `u64`.
    pub faults: u64,
}

/// The answer to a read from a list of files.
pub(crate) fn answer_from(
    alloc: Global,
    files: &[MemFile],
    name: &str,
    most: usize,
) -> Result<FileAnswer, AllocError>
    ensures { IfOk result (λ answer. answer ≡ answer_of (pairs files.now) name.now most) }
{
    for file in files {
        if file.name.as_slice() == name.as_bytes() {
            let bytes = file.bytes.as_slice();
            if bytes.len() > most {
                return Ok(FileAnswer::TooLong);
            }
            return Ok(FileAnswer::Found(Bytes::of_vec(bytes.to_vec(alloc)?)));
        }
    }
    Ok(FileAnswer::Missing)
}

impl Files for MemFiles {
    ghost held = { λ f. Some (pairs f.files) };

    ghost faults = { λ f. f.faults };

    ghost asked = { λ f. f.next };

    ghost with_name = { λ n _. count_fault n };

    fn read(&mut self, alloc: Global, name: &str, most: usize) -> Result<FileAnswer, FileFault>
        ensures same { Some (pairs self.new.files) ≡ Some (pairs self.old.files) }
        ensures answer { IfOk result (λ answer. IfSome (Some (pairs self.old.files)) (λ files. answer ≡ answer_of files name.now most)) }
        ensures cause { FileCause self.old.faults self.new.faults result }
        ensures call { Calls self.old.next self.new.next self.old.failing self.old.faults self.new.faults (is_failed result) }
        ensures failing { self.new.failing ≡ self.old.failing }
        ensures once { self.new.next ≡ count_fault self.old.next }
    {
        if call_fails(&mut self.next, self.failing.as_slice(), &mut self.faults) {
            return Err(FileFault::Failed);
        }
        answer_from(alloc, self.files.as_slice(), name, most).map_err(|_| FileFault::OutOfMemory)
    }
}
