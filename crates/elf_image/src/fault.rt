//! Why a file is refused as an image (docs/rules/elf.md has the order of the tests).
use std::alloc::AllocError;
use thiserror::Error;

/// Why a file is refused, or why parts can't be written as an image.
#[derive(Clone, Copy, PartialEq, Eq, Debug, Error)]
pub enum ImageFault {
    /// A part is missing; the number is the file length in bytes that it needs.
    #[error("the file is shorter than {0} bytes")]
    Truncated(u64),
    /// The file doesn't begin with the ELF magic.
    #[error("no ELF file")]
    NotElf,
    /// The file isn't of class 32, little-endian and version 1.
    #[error("not of class 32, little-endian, version 1")]
    Class,
    /// `e_machine` isn't Arm.
    #[error("not for Arm")]
    Machine,
    /// The top byte of `e_flags` isn't 5.
    #[error("not of version 5 of the ABI")]
    Version,
    /// `e_type` isn't an executable file.
    #[error("no executable file")]
    Type,
    /// Program headers haven't 32 bytes each, or section headers haven't 40.
    #[error("headers of another size")]
    EntrySize,
    /// There is no symbol table, or its link is no string table.
    #[error("no symbol table with strings")]
    NoSymbols,
    /// A segment ends above the address limit, or has more bytes in the file than in memory.
    #[error("a segment out of range")]
    SegmentRange,
    /// Two segments share a byte of memory.
    #[error("segments overlap")]
    SegmentOverlap,
    /// There are two exception indexes, or a read-only segment doesn't hold the one in its file bytes at a multiple of
    /// 4.
    #[error("an exception index out of range")]
    IndexRange,
    /// A limit on memory, segments, symbols or functions is exceeded, or a file to write would have 2^32 bytes or more.
    #[error("too large")]
    TooLarge,
    /// `e_entry` hasn't bit 0 set, or no function begins there.
    #[error("the entry is no function")]
    Entry,
    /// Memory ran out.
    #[error("out of memory")]
    OutOfMemory,
}

impl ImageFault {
    ghost use Rattle.std.specs.Prelude.{◌≡◌};
    ghost use Rattle.elf_image.specs.Fault.{fault_name};

    /// The name of the variant, as reports write it.
    pub fn name(&self) -> &'static [u8]
        ensures { result.now ≡ fault_name self.now }
    {
        match self {
            ImageFault::Truncated(_) => b"Truncated",
            ImageFault::NotElf => b"NotElf",
            ImageFault::Class => b"Class",
            ImageFault::Machine => b"Machine",
            ImageFault::Version => b"Version",
            ImageFault::Type => b"Type",
            ImageFault::EntrySize => b"EntrySize",
            ImageFault::NoSymbols => b"NoSymbols",
            ImageFault::SegmentRange => b"SegmentRange",
            ImageFault::SegmentOverlap => b"SegmentOverlap",
            ImageFault::IndexRange => b"IndexRange",
            ImageFault::TooLarge => b"TooLarge",
            ImageFault::Entry => b"Entry",
            ImageFault::OutOfMemory => b"OutOfMemory",
        }
    }
}

impl From<AllocError> for ImageFault {
    ghost use Rattle.std.specs.Prelude.{◌≡◌};
    ghost use Rattle.elf_image.specs.declared.fault.ImageFault.TheVariants.{OutOfMemory};

    ghost from_gives = { λ _ e. e ≡ OutOfMemory };

    fn from(_e: AllocError) -> ImageFault {
        ImageFault::OutOfMemory
    }
}
