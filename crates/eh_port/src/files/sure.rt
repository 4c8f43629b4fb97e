//! Files that never fail (docs/rules/memory.md).
ghost use Rattle.std.specs.Prelude.{◌≡◌, Some, IfOk, IfSome, IsErrOf};
ghost use Rattle.eh_port.specs.FileList.{answer_of, pairs, FileCause};

use crate::files::list::FileList;
use crate::files::memory::answer_from;
use crate::files::{FileAnswer, FileFault, Files};
use std::alloc::Global;

/// Files in memory whose reads never fail. The names that are asked for aren't recorded.
#[derive(Drop)]
pub struct SureFiles {
    /// The files.
    pub files: FileList,
}

impl Files for SureFiles {
    ghost held = { λ f. Some (pairs f.files) };

    ghost faults = { λ _. 0 };

    ghost asked = { λ _. 0 };

    ghost with_name = { λ n _. n };

    fn read(&mut self, alloc: Global, name: &str, most: usize) -> Result<FileAnswer, FileFault>
        ensures same { Some (pairs self.new.files) ≡ Some (pairs self.old.files) }
        ensures answer { IfOk result (λ answer. IfSome (Some (pairs self.old.files)) (λ files. answer ≡ answer_of files name.now most)) }
        ensures cause { FileCause 0 0 result }
        ensures sure { IsErrOf result FileFault.Failed → ⊥ }
    {
        answer_from(alloc, self.files.as_slice(), name, most).map_err(|_| FileFault::OutOfMemory)
    }
}
