//! A source and a sink in memory whose calls can be made to fail (docs/rules/memory.md).
ghost use Rattle.std.specs.Prelude.{◌≡◌, ◌<◌, Some, Contains, IsErr, IfOk, is_err, length, if◌then◌else◌};
ghost use Rattle.std.specs.Io.{ReadsAtMost, WritesAtMost};
ghost use Rattle.std.specs.Io.KnownBytes.{ReadConsumes, WriteAppends};
ghost use Rattle.eh_port.specs.Causes.{HasCause, count_fault};
ghost use Rattle.eh_port.specs.Memory.{Calls};

use crate::lists::{Bytes, CallNumbers};
use crate::{Failed, Sink, Source};

/// A source in memory.
#[derive(Drop)]
pub struct MemSource {
    /// The bytes that are left.
    pub left: Bytes,
    /// The number of the next call, counted from 1 and capped at the greatest `u64`.
    pub next: u64,
    /// The numbers of the calls that fail.
    pub failing: CallNumbers,
    /// How many calls have failed, capped at the greatest `u64`.
    pub faults: u64,
}

/// A sink in memory. A call that finds no memory for its bytes fails too.
#[derive(Drop)]
pub struct MemSink {
    /// The bytes that were written.
    pub written: Bytes,
    /// The number of the next call, counted from 1 and capped at the greatest `u64`.
    pub next: u64,
    /// The numbers of the calls that fail.
    pub failing: CallNumbers,
    /// How many calls have failed, capped at the greatest `u64`.
    pub faults: u64,
}

/// Counts a call, and a fault if its number is listed; gives whether it fails.
pub fn call_fails(next: &mut u64, failing: &[u64], faults: &mut u64) -> bool
    ensures { Calls next.old next.new failing.now faults.old faults.new result }
{
    let fails = failing.contains(next);
    *next = next.saturating_add(1);
    if fails {
        *faults = faults.saturating_add(1);
    }
    fails
}

impl Source for MemSource {
    ghost left = { λ s. Some s.left };

    ghost faults = { λ s. s.faults };

    fn take(&mut self, buf: &mut [u8]) -> Result<usize, Failed>
        ensures bound { ReadsAtMost result buf.new }
        ensures bytes { ReadConsumes (Some self.old.left) (Some self.new.left) result buf.new }
        ensures cause { HasCause self.old.faults self.new.faults result }
        ensures call { Calls self.old.next self.new.next self.old.failing self.old.faults self.new.faults (is_err result) }
        ensures failing { self.new.failing ≡ self.old.failing }
    {
        if call_fails(&mut self.next, self.failing.as_slice(), &mut self.faults) {
            return Err(Failed);
        }
        Ok(self.left.take_front(buf))
    }
}

impl Sink for MemSink {
    ghost written = { λ s. Some s.written };

    ghost faults = { λ s. s.faults };

    fn put(&mut self, bytes: &[u8]) -> Result<usize, Failed>
        ensures bound { WritesAtMost result bytes.now }
        ensures some { 0 < length bytes.now → IfOk result (λ count. 0 < count) }
        ensures bytes { WriteAppends (Some self.old.written) (Some self.new.written) result bytes.now }
        ensures cause { HasCause self.old.faults self.new.faults result }
        // Listed calls fail; others may run out of memory.
        ensures listed { Contains self.old.failing self.old.next → IsErr result }
        ensures counts { self.new.faults ≡ (if is_err result then count_fault self.old.faults else self.old.faults) }
        ensures numbered { self.new.next ≡ count_fault self.old.next }
        ensures failing { self.new.failing ≡ self.old.failing }
        ensures whole { IfOk result (λ count. count ≡ length bytes.now) }
    {
        if call_fails(&mut self.next, self.failing.as_slice(), &mut self.faults) {
            return Err(Failed);
        }
        if self.written.extend(bytes).is_err() {
            self.faults = self.faults.saturating_add(1);
            return Err(Failed);
        }
        Ok(bytes.len())
    }
}
