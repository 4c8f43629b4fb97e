//! Why objects can't be linked (docs/rules/linking.md, "Refusals").
ghost use Rattle.std.specs.Prelude.{◌≡◌, ◌≤◌, length};
ghost use Rattle.eh_link.specs.FaultNames.{fault_name};

use eh_word::Name;
use std::alloc::AllocError;
use thiserror::Error;

/// Why objects can't be linked.
#[derive(Debug, Drop, Error)]
pub enum LinkFault {
    /// The name has global labels in two objects.
    #[error("a global name in two objects")]
    Duplicate(Name),
    /// A relocation refers to this name, which has no label.
    #[error("a name without a label")]
    Undefined(Name),
    /// No object has a global function with the name of the entry.
    #[error("no global function has the name of the entry")]
    NoEntry,
    /// The segments have more than 1,048,576 bytes of memory together.
    #[error("too large")]
    TooLarge,
    /// The branch at this byte address can't be encoded: its target is too far or at an odd distance.
    #[error("a branch at {0} can't reach its target")]
    RelocationRange(u32),
    /// Memory ran out. This says nothing about the objects.
    #[error("out of memory")]
    OutOfMemory,
}

impl LinkFault {
    /// The name of the refusal in reports.
    pub fn name(&self) -> &'static [u8]
        ensures name { result.now ≡ fault_name self.now }
        ensures short { length result.now ≤ 16 }
    {
        match self {
            LinkFault::Duplicate(_) => b"Duplicate",
            LinkFault::Undefined(_) => b"Undefined",
            LinkFault::NoEntry => b"NoEntry",
            LinkFault::TooLarge => b"TooLarge",
            LinkFault::RelocationRange(_) => b"RelocationRange",
            LinkFault::OutOfMemory => b"OutOfMemory",
        }
    }
}

impl From<AllocError> for LinkFault {
    ghost use Rattle.std.specs.Prelude.{◌≡◌};
    ghost use Rattle.eh_link.specs.declared.fault.LinkFault.TheVariants.{OutOfMemory};

    ghost from_gives = { λ _ e. e ≡ OutOfMemory };

    fn from(_e: AllocError) -> LinkFault {
        LinkFault::OutOfMemory
    }
}
