//! Events of a run, as a trace records them: docs/rules/phases-and-exceptions.md.
ghost use Rattle.std.specs.Prelude.{◌≡◌};
ghost use Rattle.eh_trace.specs.declared.event.TraceMemory.TheVariants.{OutOfMemory};

use std::alloc::AllocError;

/// The kind of an event.
#[derive(Clone, Copy, PartialEq, Eq, Debug)]
pub enum EventKind {
    /// An exception was thrown for the first time.
    Throw,
    /// A caught exception was thrown again.
    Rethrow,
    /// A cleanup was entered.
    Cleanup,
    /// A handler was entered.
    Catch,
    /// The landing pad of a violated specification was entered.
    Unexpected,
}

/// The most bytes of an object that an event stores.
pub const MAX_BYTES: usize = 16;

/// An event. Addresses are in bytes.
#[derive(Clone, Copy, PartialEq, Eq)]
pub struct Event {
    /// What happened.
    pub kind: EventKind,
    /// For a throw or rethrow, the address of the object; else that of the landing pad.
    pub a: u32,
    /// For a throw or rethrow, the address of the type; else the stack pointer with which the pad was entered.
    pub b: u32,
    /// For a catch, the address of the object that the handler is given; else not used.
    pub c: u32,
    /// For a throw or rethrow, the first bytes of the object; those past `count` aren't used.
    pub bytes: [u8; MAX_BYTES],
    /// The number of bytes of the object that are stored.
    pub count: u32,
}

/// There was not enough memory for a trace.
#[derive(Clone, Copy)]
pub enum TraceMemory {
    /// An allocation failed.
    OutOfMemory,
}

impl From<AllocError> for TraceMemory {
    ghost from_gives = { λ _ e. e ≡ OutOfMemory };

    fn from(_e: AllocError) -> TraceMemory {
        TraceMemory::OutOfMemory
    }
}
