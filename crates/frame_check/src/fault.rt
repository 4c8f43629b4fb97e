//! Why an image isn't accepted (docs/rules/acceptance.md, "The order of refusals").
use eh_index::IndexFault;
use eh_types::TypeFault;
use eh_word::{Name, NameMemory};
use frame_facts::FrameCause;
use std::alloc::AllocError;
use thiserror::Error;

/// A function that isn't accepted, with an address and a cause.
#[derive(Debug, Drop)]
pub struct Rejected {
    /// The function's name.
    pub function: Name,
    /// The function's first address.
    pub start: u32,
    /// An address at which the cause stands.
    pub at: u32,
    /// Why the function isn't accepted.
    pub cause: FrameCause,
}

/// Why an image isn't accepted.
#[derive(Debug, Drop, Error)]
pub enum CheckFault {
    /// Its index table can't be read.
    #[error("its exception index isn't read")]
    Index(IndexFault),
    /// Its index table was read; this is the first function that isn't accepted.
    #[error("a function isn't accepted")]
    Function(Rejected),
    /// Its index table was read and its functions are accepted, but its types can't be read.
    #[error("its types aren't read")]
    Types(TypeFault),
    /// An allocation failed; this tells nothing of the image.
    #[error("out of memory")]
    OutOfMemory,
}

impl From<AllocError> for CheckFault {
    ghost use Rattle.std.specs.Prelude.{◌≡◌};
    ghost use Rattle.frame_check.specs.declared.fault.CheckFault.TheVariants.{OutOfMemory};

    ghost from_gives = { λ _ e. e ≡ OutOfMemory };

    fn from(_e: AllocError) -> CheckFault {
        CheckFault::OutOfMemory
    }
}
