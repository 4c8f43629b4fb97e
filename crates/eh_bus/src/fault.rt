//! Why an access is refused; docs/rules/memory.md says when.
ghost use Rattle.std.specs.Prelude.{◌≡◌};
ghost use Rattle.eh_bus.specs.declared.fault.BusMemory.TheVariants.{OutOfMemory};

use std::alloc::AllocError;

/// Why an access is refused. All but `SavedSlot` carry the byte address of the access.
#[derive(Clone, Copy, PartialEq, Eq)]
pub enum BusFault {
    /// The bytes of the access don't lie in one segment.
    Unmapped(u32),
    /// The address is not a multiple of the access's size.
    Unaligned(u32),
    /// A store to a segment that isn't writable.
    ReadOnly(u32),
    /// A store that touches a guarded word; carries that word's byte address.
    SavedSlot(u32),
    /// A load or store in the closed part of a pool slot.
    Protected(u32),
    /// A fetch from a segment that isn't executable.
    NotExecutable(u32),
}

/// Why a bus can't be made.
#[derive(Clone, Copy, Debug)]
pub enum BusMemory {
    /// There was no memory for it.
    OutOfMemory,
}

impl From<AllocError> for BusMemory {
    ghost from_gives = { λ _ e. e ≡ OutOfMemory };

    fn from(_e: AllocError) -> BusMemory {
        BusMemory::OutOfMemory
    }
}
