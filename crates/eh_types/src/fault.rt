//! Why the types that are reachable from an image's roots can't be read (docs/rules/types-and-matching.md).
ghost use Rattle.std.specs.Prelude.{◌≡◌, ◌≤◌, length};
ghost use Rattle.eh_types.specs.FaultNames.{fault_name};

use std::alloc::AllocError;
use thiserror::Error;

/// Why types can't be read. Each variant but `OutOfMemory` has the address of a type with the fault. If a type has several faults,
/// the first in the order below is given.
#[derive(Clone, Copy, Debug, Error)]
pub enum TypeFault {
    /// One of the type's words, or its name with the zero byte, isn't wholly in the file bytes of one segment.
    #[error("the type at {0:#010x} can't be read")]
    Unreadable(u32),
    /// One of the type's words, or its name, lies in a writable segment.
    #[error("the type at {0:#010x} may be written")]
    Writable(u32),
    /// The type's name is longer than `NAME_LIMIT` bytes.
    #[error("the type at {0:#010x} has too long a name")]
    NameTooLong(u32),
    /// The type is its own direct or indirect base.
    #[error("the type at {0:#010x} is its own base")]
    Cyclic(u32),
    /// The type has more than `MOST_PATHS` paths of bases.
    #[error("the type at {0:#010x} has too many paths of bases")]
    TooManyPaths(u32),
    /// An allocation failed.
    #[error("out of memory")]
    OutOfMemory,
}

impl TypeFault {
    /// The fault's name, as it is written in reports: at most 16 bytes.
    pub fn name(self) -> &'static [u8]
        ensures name { result.now ≡ fault_name self }
        ensures short { length result.now ≤ 16 }
    {
        match self {
            TypeFault::Unreadable(_) => b"Unreadable",
            TypeFault::Writable(_) => b"Writable",
            TypeFault::NameTooLong(_) => b"NameTooLong",
            TypeFault::Cyclic(_) => b"Cyclic",
            TypeFault::TooManyPaths(_) => b"TooManyPaths",
            TypeFault::OutOfMemory => b"OutOfMemory",
        }
    }
}

impl From<AllocError> for TypeFault {
    ghost use Rattle.std.specs.Prelude.{◌≡◌};
    ghost use Rattle.eh_types.specs.declared.fault.TypeFault.TheVariants.{OutOfMemory};

    ghost from_gives = { λ _ r. r ≡ OutOfMemory };

    fn from(_: AllocError) -> TypeFault {
        TypeFault::OutOfMemory
    }
}
