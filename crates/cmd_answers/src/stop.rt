//! Why a program stops early.
ghost use Rattle.std.specs.Prelude.{◌≡◌};
ghost use Rattle.cmd_answers.specs.Writes.{stop_of, stop_status};

use crate::status::{NO_MEMORY, READ_FAILED, WRITE_FAILED};
use eh_port::FileFault;
use std::alloc::AllocFailed;

/// Why a program stops early.
#[derive(Clone, Copy)]
pub enum Stop {
    /// A read of a file or of the input failed.
    Read,
    /// A write of the output failed.
    Write,
    /// There was no memory.
    Memory,
}

impl Stop {
    /// The status that the program ends with.
    pub fn status(self) -> u8
        ensures { result ≡ stop_status self }
    {
        match self {
            Stop::Read => READ_FAILED,
            Stop::Write => WRITE_FAILED,
            Stop::Memory => NO_MEMORY,
        }
    }
}

impl From<FileFault> for Stop {
    ghost from_gives = { λ fault stop. stop ≡ stop_of fault };

    fn from(fault: FileFault) -> Self {
        match fault {
            FileFault::Failed => Stop::Read,
            FileFault::OutOfMemory => Stop::Memory,
        }
    }
}

impl<T: Drop> From<AllocFailed<T>> for Stop {
    ghost use Rattle.cmd_answers.specs.declared.stop.Stop.TheVariants.{Memory};

    ghost from_gives = { λ _ stop. stop ≡ Memory };

    fn from(_: AllocFailed<T>) -> Self {
        Stop::Memory
    }
}
