//! The byte that a source gave, as a source of its own.
ghost use Rattle.std.specs.Prelude.{Some};
ghost use Rattle.std.specs.Io.{ReadsAtMost};
ghost use Rattle.std.specs.Io.KnownBytes.{ReadConsumes};
ghost use Rattle.eh_port.specs.Causes.{HasCause};
ghost use Rattle.run_gates.specs.Given.{given_bytes};

use eh_port::{Failed, Source};

/// A source of at most one byte, whose calls never fail.
#[derive(Drop)]
pub(crate) struct OneByteSource {
    /// The byte that is left, if any.
    pub(crate) byte: Option<u8>,
}

impl Source for OneByteSource {
    ghost left = { λ g. Some (given_bytes g.byte) };

    ghost faults = { λ _. 0 };

    fn take(&mut self, buf: &mut [u8]) -> Result<usize, Failed>
        ensures bound { ReadsAtMost result buf.new }
        ensures bytes { ReadConsumes (Some (given_bytes self.old.byte)) (Some (given_bytes self.new.byte)) result buf.new }
        ensures cause { HasCause 0 0 result }
    {
        if buf.is_empty() {
            return Ok(0);
        }
        match self.byte {
            None => Ok(0),
            Some(byte) => {
                buf[0] = byte;
                self.byte = None;
                Ok(1)
            }
        }
    }
}
