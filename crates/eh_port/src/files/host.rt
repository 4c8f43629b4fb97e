//! Files of the system. This is the trusted edge: it hands on what std tells of a reader's bytes, which is everything
//! for a reader in memory and nothing for a file (docs/rules/memory.md).
ghost use Rattle.std.specs.Prelude.{◌≡◌, None, Some, IfOk, IfSome, if◌then◌else◌};
ghost use Rattle.eh_port.specs.Causes.{count_fault};
ghost use Rattle.eh_port.specs.FileList.{FileCause, within, is_failed};

use crate::Bytes;
use crate::files::{FileAnswer, FileFault, Files};
use std::alloc::Global;
use std::io::{ErrorKind, Read};
use std::{fs, rt};

/// The files of the system. A file is missing if it doesn't exist, if its path leads through a file, or if its name is
/// longer than the system takes.
#[derive(Drop)]
pub struct HostFiles<R: rt::Files + Drop> {
    /// The system's files, as std has them.
    pub host: R,
    /// How many reads have failed, capped at the greatest `u64`.
    pub faults: u64,
    /// How many files were asked for, capped at the greatest `u64`.
    pub asked: u64,
}

/// How many bytes are read at a time.
const BLOCK: usize = 4096;

/// Reads a file from its front, up to the limit.
fn read_within<R: Read>(alloc: Global, file: &mut R, most: usize) -> Result<FileAnswer, FileFault>
    ensures { IfOk result (λ answer. IfSome (R.remaining file.old) (λ bytes. answer ≡ within most (Some bytes))) }
{
    let mut bytes = Vec::new(alloc);
    let mut buf = [0u8; BLOCK];
    for _ in 0..u64::MAX {
        match file.read(&mut buf) {
            Ok(0) => return Ok(FileAnswer::Found(Bytes::of_vec(bytes))),
            Ok(count) => {
                if bytes.extend_from_slice(&buf[..count]).is_err() {
                    return Err(FileFault::OutOfMemory);
                }
                if bytes.len() > most {
                    return Ok(FileAnswer::TooLong);
                }
            }
            Err(_) => return Err(FileFault::Failed),
        }
    }
    Err(FileFault::Failed)
}

impl<R: rt::Files + Drop> Files for HostFiles<R> {
    ghost held = { λ _. None };

    ghost faults = { λ f. f.faults };

    ghost asked = { λ f. f.asked };

    ghost with_name = { λ n _. count_fault n };

    fn read(&mut self, alloc: Global, name: &str, most: usize) -> Result<FileAnswer, FileFault>
        ensures cause { FileCause self.old.faults self.new.faults result }
        ensures counts { self.new.faults ≡ (if is_failed result then count_fault self.old.faults else self.old.faults) }
        ensures once { self.new.asked ≡ count_fault self.old.asked }
    {
        self.asked = self.asked.saturating_add(1);
        let answer = match fs::open(&self.host, name) {
            Ok(mut file) => read_within(alloc, &mut file, most),
            Err(error) => match error.kind() {
                ErrorKind::NotFound | ErrorKind::NotADirectory | ErrorKind::InvalidFilename => {
                    Ok(FileAnswer::Missing)
                }
                ErrorKind::OutOfMemory => Err(FileFault::OutOfMemory),
                _ => Err(FileFault::Failed),
            },
        };
        if let Err(FileFault::Failed) = answer {
            self.faults = self.faults.saturating_add(1);
        }
        answer
    }
}
