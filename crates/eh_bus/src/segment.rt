//! The description of a segment to make (docs/rules/memory.md).

/// A segment to make: memory that begins with the given bytes, then has zeros.
#[derive(Clone, Copy)]
pub struct SegmentSpec<'a> {
    /// The address of its first byte.
    pub start: u32,
    /// The bytes from `start` on.
    pub bytes: &'a [u8],
    /// The size in bytes.
    pub size: u32,
    /// Whether it is writable.
    pub write: bool,
    /// Whether it is executable.
    pub exec: bool,
}
