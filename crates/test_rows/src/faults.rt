//! The reasons why memory refuses an access, in words and by name, with the address (docs/rules/memory.md).
use eh_bus::fault::BusFault;

/// The reason in words, and the address.
pub fn why(fault: BusFault) -> (&'static str, u32) {
    match fault {
        BusFault::Unmapped(address) => ("unmapped", address),
        BusFault::Unaligned(address) => ("unaligned", address),
        BusFault::ReadOnly(address) => ("read only", address),
        BusFault::SavedSlot(address) => ("saved slot", address),
        BusFault::Protected(address) => ("protected", address),
        BusFault::NotExecutable(address) => ("not executable", address),
    }
}

/// The name of the reason, and the address.
pub fn name_of(fault: BusFault) -> (&'static str, u32) {
    match fault {
        BusFault::Unmapped(address) => ("Unmapped", address),
        BusFault::Unaligned(address) => ("Unaligned", address),
        BusFault::ReadOnly(address) => ("ReadOnly", address),
        BusFault::SavedSlot(address) => ("SavedSlot", address),
        BusFault::Protected(address) => ("Protected", address),
        BusFault::NotExecutable(address) => ("NotExecutable", address),
    }
}
