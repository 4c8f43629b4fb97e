//! The errors of this crate.
use std::alloc::AllocError;

/// Why there is no ULEB128 number at an offset.
#[derive(Clone, Copy, Debug)]
pub enum WordFault {
    /// The bytes end before the number does.
    Ends,
    /// The fifth byte is above 0x0F: the number has more than 32 bits.
    TooWide,
}

/// A name could not be allocated.
#[derive(Clone, Copy, Debug)]
pub enum NameMemory {
    /// Memory ran out.
    OutOfMemory,
}

impl From<AllocError> for NameMemory {
    ghost use Rattle.std.specs.Prelude.{◌≡◌};
    ghost use Rattle.eh_word.specs.declared.fault.NameMemory.TheVariants.{OutOfMemory};

    ghost from_gives = { λ _ e. e ≡ OutOfMemory };

    fn from(_e: AllocError) -> NameMemory {
        NameMemory::OutOfMemory
    }
}
