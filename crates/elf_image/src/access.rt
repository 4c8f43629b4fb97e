//! Accessors of functions and segments for crates that see them by their values.
ghost use Rattle.std.specs.Prelude.{◌≡◌};

use crate::function::Function;
use crate::segment::Segment;

impl<'a> Function<'a> {
    /// The address of the first instruction.
    pub fn start(&self) -> u32
        ensures { result ≡ self.now.start }
    {
        self.start
    }
}

impl<'a> Segment<'a> {
    /// The address of the first byte.
    pub fn start(&self) -> u32
        ensures { result ≡ self.now.start }
    {
        self.start
    }

    /// The bytes that the file gives, from the first address on.
    pub fn bytes(&self) -> &'a [u8]
        ensures { result.now ≡ self.now.bytes }
    {
        self.bytes
    }

    /// The size in memory, in bytes.
    pub fn size(&self) -> u32
        ensures { result ≡ self.now.size }
    {
        self.size
    }

    /// Whether the segment is writable.
    pub fn may_write(&self) -> bool
        ensures { result ≡ self.now.write }
    {
        self.write
    }

    /// Whether the segment is executable.
    pub fn may_execute(&self) -> bool
        ensures { result ≡ self.now.exec }
    {
        self.exec
    }
}
