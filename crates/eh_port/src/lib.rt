//! The program's access to the outside: files, a source of bytes and a sink of bytes, each with a count of its faults.
//!
//! A call answers `Failed` only if its object's count rose in that call, so a caller can find whose failure it was. A
//! count at the greatest `u64` stays there and counts as risen. A call that succeeds leaves the count unchanged.
//! docs/rules/memory.md has the rules.
#![tactic(auto)]

ghost use Rattle.std.specs.Prelude.{ℕ, ◌<◌, List, length, IfOk, OnOk, OnErr, Option};
ghost use Rattle.std.specs.Io.{ReadsAtMost, WritesAtMost};
ghost use Rattle.std.specs.Io.KnownBytes.{ReadConsumes, WriteAppends, Appends};
ghost use Rattle.eh_port.specs.Causes.{HasCause};
ghost use Rattle.eh_port.specs.Writing.{AppendsFewer};

pub mod files;
mod host;
mod lists;
mod memory;
mod sure;

pub use files::{FileAnswer, FileFault, FileList, Files, HostFiles, MemFile, MemFiles, SureFiles};
pub use host::{HostSink, HostSource};
pub use lists::{Bytes, CallNumbers};
pub use memory::{MemSink, MemSource, call_fails};
pub use sure::{SureSink, SureSource};

/// A read or write failed; the object's count of faults has risen.
#[derive(Clone, Copy, Debug, PartialEq, Eq)]
pub struct Failed;

/// A source of bytes, taken from the front.
pub trait Source {
    /// The bytes that are left, if the object knows them.
    ghost left: { Self → Option (List ℕ) };

    /// How many calls have failed.
    ghost faults: { Self → ℕ };

    /// Moves the next bytes to the front of `buf` and gives their number. It is 0 only at the end, or if `buf` is
    /// empty. If it fails, nothing was taken.
    fn take(&mut self, buf: &mut [u8]) -> Result<usize, Failed>
        ensures bound { ReadsAtMost result buf.new }
        ensures bytes { ReadConsumes (left self.old) (left self.new) result buf.new }
        ensures cause { HasCause (faults self.old) (faults self.new) result };
}

/// A sink of bytes, written at the end.
pub trait Sink {
    /// The bytes that were written, if the object knows them.
    ghost written: { Self → Option (List ℕ) };

    /// How many calls have failed.
    ghost faults: { Self → ℕ };

    /// Accepts some of the bytes, from the front, and gives their number: at least one if there are any. If it fails,
    /// nothing was accepted.
    fn put(&mut self, bytes: &[u8]) -> Result<usize, Failed>
        ensures bound { WritesAtMost result bytes.now }
        ensures some { 0 < length bytes.now → IfOk result (λ count. 0 < count) }
        ensures bytes { WriteAppends (written self.old) (written self.new) result bytes.now }
        ensures cause { HasCause (faults self.old) (faults self.new) result };
}

/// Writes all of the bytes. If it fails, only a front part of them was written.
pub fn put_all<O: Sink>(out: &mut O, bytes: &[u8]) -> Result<(), Failed>
    ensures ok { OnOk result (Appends (O.written out.old) (O.written out.new) bytes.now) }
    ensures fewer { OnErr result (AppendsFewer (O.written out.old) (O.written out.new) bytes.now) }
    ensures cause { HasCause (O.faults out.old) (O.faults out.new) result }
{
    let mut at = 0;
    while at < bytes.len() {
        at += out.put(&bytes[at..])?;
    }
    Ok(())
}
