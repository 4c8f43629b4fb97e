//! A source and a sink of the system. This is the trusted edge: it hands on what std tells of a reader's or writer's
//! bytes, which is everything for those in memory and nothing for a standard stream (docs/rules/memory.md).
ghost use Rattle.std.specs.Prelude.{◌≡◌, ◌<◌, IfOk, is_err, length, if◌then◌else◌};
ghost use Rattle.std.specs.Io.{ReadsAtMost, WritesAtMost};
ghost use Rattle.std.specs.Io.KnownBytes.{ReadConsumes, WriteAppends};
ghost use Rattle.eh_port.specs.Causes.{HasCause, count_fault};

use crate::{Failed, Sink, Source};
use std::io::{Read, Write};

/// A std reader as a source.
#[derive(Drop)]
pub struct HostSource<R: Read + Drop> {
    /// The reader.
    pub reader: R,
    /// How many reads have failed, capped at the greatest `u64`.
    pub faults: u64,
}

/// A std writer as a sink. A write that accepts nothing counts as a failure.
#[derive(Drop)]
pub struct HostSink<W: Write + Drop> {
    /// The writer.
    pub writer: W,
    /// How many writes have failed, capped at the greatest `u64`.
    pub faults: u64,
}

impl<R: Read + Drop> Source for HostSource<R> {
    ghost left = { λ s. R.remaining s.reader };

    ghost faults = { λ s. s.faults };

    fn take(&mut self, buf: &mut [u8]) -> Result<usize, Failed>
        ensures bound { ReadsAtMost result buf.new }
        ensures bytes { ReadConsumes (R.remaining self.old.reader) (R.remaining self.new.reader) result buf.new }
        ensures cause { HasCause self.old.faults self.new.faults result }
        ensures counts { self.new.faults ≡ (if is_err result then count_fault self.old.faults else self.old.faults) }
    {
        match self.reader.read(buf) {
            Ok(count) => Ok(count),
            Err(_) => {
                self.faults = self.faults.saturating_add(1);
                Err(Failed)
            }
        }
    }
}

impl<W: Write + Drop> Sink for HostSink<W> {
    ghost written = { λ s. W.contents s.writer };

    ghost faults = { λ s. s.faults };

    fn put(&mut self, bytes: &[u8]) -> Result<usize, Failed>
        ensures bound { WritesAtMost result bytes.now }
        ensures some { 0 < length bytes.now → IfOk result (λ count. 0 < count) }
        ensures bytes { WriteAppends (W.contents self.old.writer) (W.contents self.new.writer) result bytes.now }
        ensures cause { HasCause self.old.faults self.new.faults result }
        ensures counts { self.new.faults ≡ (if is_err result then count_fault self.old.faults else self.old.faults) }
    {
        match self.writer.write(bytes) {
            Ok(count) if count > 0 || bytes.is_empty() => Ok(count),
            _ => {
                self.faults = self.faults.saturating_add(1);
                Err(Failed)
            }
        }
    }
}
