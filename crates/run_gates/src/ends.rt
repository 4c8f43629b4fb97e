//! How a run ends by a trap of the core.
ghost use Rattle.std.specs.Prelude.{◌≡◌};
ghost use Rattle.run_gates.specs.Ends.{bus_end, trap_end};

use eh_bus::fault::BusFault;
use thumb_core::ends::{End, TrapKind};
use thumb_core::regs::CoreTrap;

/// The end of a run by a memory fault in the instruction at `pc`.
pub fn bus_end(fault: BusFault, pc: u32) -> End
    ensures { result ≡ bus_end fault pc }
{
    match fault {
        BusFault::Unmapped(a) => End::Trap(TrapKind::Unmapped, a, pc),
        BusFault::Unaligned(a) => End::Trap(TrapKind::Unaligned, a, pc),
        BusFault::ReadOnly(a) => End::Trap(TrapKind::ReadOnly, a, pc),
        BusFault::SavedSlot(a) => End::Trap(TrapKind::SavedSlot, a, pc),
        BusFault::Protected(a) => End::Trap(TrapKind::Protected, a, pc),
        BusFault::NotExecutable(a) => End::Trap(TrapKind::NotExecutable, a, pc),
    }
}

/// The end of a run by a trap of the core in the instruction at `pc`.
pub fn trap_end(trap: CoreTrap, pc: u32) -> End
    ensures { result ≡ trap_end trap pc }
{
    match trap {
        CoreTrap::Undefined(first) => End::Trap(TrapKind::Undefined, first, pc),
        CoreTrap::Unpredictable(first) => End::Trap(TrapKind::Unpredictable, first, pc),
        CoreTrap::NotInProfile(first) => End::Trap(TrapKind::NotInProfile, first, pc),
        CoreTrap::EvenTarget(target) => End::Trap(TrapKind::EvenTarget, target, pc),
        CoreTrap::Memory(fault) => bus_end(fault, pc),
    }
}
