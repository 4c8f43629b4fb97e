//! The parts from which an image is written.
use eh_word::{Name, Seq};

/// Bytes, in order.
pub type OwnBytes = Seq<u8>;
/// Segments, in order.
pub type OwnSegments = Seq<OwnSegment>;
/// Symbols, in order.
pub type OwnSymbols = Seq<OwnSymbol>;

/// A segment to write: memory that begins with the given bytes, then has zeros.
#[derive(Drop)]
pub struct OwnSegment {
    /// The address of its first byte.
    pub start: u32,
    /// The bytes from `start` on.
    pub bytes: OwnBytes,
    /// The size in memory, in bytes.
    pub size: u32,
    /// Whether it is writable.
    pub write: bool,
    /// Whether it is executable.
    pub exec: bool,
}

/// The kind of a symbol to write.
#[derive(Clone, Copy, PartialEq, Eq)]
pub enum SymbolKind {
    /// A function.
    Function,
    /// An object.
    Object,
    /// The mapping symbol `$t`: Thumb code begins.
    Code,
    /// The mapping symbol `$d`: data begins.
    Words,
}

/// A symbol to write. The name and size of a mapping symbol are ignored.
#[derive(Drop)]
pub struct OwnSymbol {
    /// The name.
    pub name: Name,
    /// The address.
    pub value: u32,
    /// The size in bytes.
    pub size: u32,
    /// What it names.
    pub kind: SymbolKind,
}

/// The parts of an image to write.
#[derive(Drop)]
pub struct ImageParts {
    /// The address of the first instruction: the start of a function.
    pub entry: u32,
    /// The segments.
    pub segments: OwnSegments,
    /// The symbols.
    pub symbols: OwnSymbols,
    /// The address of the exception index, and its size in bytes; size 0 if there is none.
    pub index: (u32, u32),
}
