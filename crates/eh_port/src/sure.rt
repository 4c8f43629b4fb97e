//! A source and a sink that never fail (docs/rules/memory.md).
ghost use Rattle.std.specs.Prelude.{◌≡◌, ◌<◌, ◌+◌, ◌-◌, ◌^◌, min, Ok, Some, None, IfOk, IsOk, length};
ghost use Rattle.std.specs.Io.{ReadsAtMost, WritesAtMost};
ghost use Rattle.std.specs.Io.KnownBytes.{ReadConsumes, WriteAppends};
ghost use Rattle.eh_port.specs.Causes.{HasCause};

use crate::lists::Bytes;
use crate::{Failed, Sink, Source};

/// A source in memory whose calls never fail.
#[derive(Drop)]
pub struct SureSource {
    /// The bytes that are left.
    pub left: Bytes,
}

/// A sink that discards its bytes and never fails.
#[derive(Drop)]
pub struct SureSink {
    /// How many bytes it accepted, capped at the greatest `u64`.
    pub taken: u64,
}

impl Source for SureSource {
    ghost left = { λ s. Some s.left };

    ghost faults = { λ _. 0 };

    fn take(&mut self, buf: &mut [u8]) -> Result<usize, Failed>
        ensures bound { ReadsAtMost result buf.new }
        ensures bytes { ReadConsumes (Some self.old.left) (Some self.new.left) result buf.new }
        ensures cause { HasCause 0 0 result }
        ensures sure { IsOk result }
    {
        Ok(self.left.take_front(buf))
    }
}

impl Sink for SureSink {
    ghost written = { λ _. None };

    ghost faults = { λ _. 0 };

    fn put(&mut self, bytes: &[u8]) -> Result<usize, Failed>
        ensures bound { WritesAtMost result bytes.now }
        ensures some { 0 < length bytes.now → IfOk result (λ count. 0 < count) }
        ensures bytes { WriteAppends None None result bytes.now }
        ensures cause { HasCause 0 0 result }
        ensures sure { result ≡ Ok (length bytes.now) }
        ensures taken { self.new.taken ≡ min (self.old.taken + length bytes.now) (2 ^ 64 - 1) }
    {
        self.taken = self.taken.saturating_add(bytes.len() as u64);
        Ok(bytes.len())
    }
}
