//! Lack of memory at the start of a run.
ghost use Rattle.std.specs.Prelude.{◌≡◌};
ghost use Rattle.eh_machine.specs.declared.memory.MachineMemory.TheVariants.{OutOfMemory};

use eh_bus::fault::BusMemory;
use eh_trace::TraceMemory;

/// There was no memory for a run.
#[derive(Clone, Copy)]
pub enum MachineMemory {
    /// An allocation failed.
    OutOfMemory,
}

impl From<BusMemory> for MachineMemory {
    ghost from_gives = { λ _ e. e ≡ OutOfMemory };

    fn from(_e: BusMemory) -> MachineMemory {
        MachineMemory::OutOfMemory
    }
}

impl From<TraceMemory> for MachineMemory {
    ghost from_gives = { λ _ e. e ≡ OutOfMemory };

    fn from(_e: TraceMemory) -> MachineMemory {
        MachineMemory::OutOfMemory
    }
}
