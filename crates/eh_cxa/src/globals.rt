//! What the calls store outside the pool, their arguments and their results: docs/rules/phases-and-exceptions.md.
ghost use Rattle.std.specs.Prelude.{◌≡◌, ◌<◌, ℕ};
ghost use Rattle.eh_cxa.specs.Words.{Pool};
ghost use Rattle.eh_cxa.specs.Runs.{empty_lists, no_globals};
ghost use Rattle.eh_cxa.specs.Stands.{Stands};
ghost use Rattle.eh_cxa.specs.declared.layout.TheConstants.{SLOTS, CLOSED_WORDS};

/// What the runtime stores outside the pool: the heads of both lists, and the number of uncaught exceptions.
#[derive(Clone, Copy, PartialEq, Eq)]
pub struct Globals {
    /// The address of the control block on top of the caught stack, 0 for none.
    pub caught: u32,
    /// The address of the control block of the innermost cleanup in progress, 0 for none.
    pub cleanup: u32,
    /// The number of uncaught exceptions, modulo 2^32.
    pub uncaught: u32,
}

impl Globals {
    /// The globals at the start of a run. With a pool of zeros they mean that there are no exceptions.
    pub fn start() -> Globals
        ensures value { result ≡ no_globals }
        ensures lists { (w : Pool) → ((s k : ℕ) → s < SLOTS → k < CLOSED_WORDS → w s k ≡ 0) → Stands w result empty_lists }
    {
        Globals {
            caught: 0,
            cleanup: 0,
            uncaught: 0,
        }
    }
}

/// Why a call is refused. A refused call changes nothing.
#[derive(Clone, Copy, PartialEq, Eq, Debug)]
pub enum CxaFault {
    /// There is no free slot.
    PoolFull,
    /// The object is larger than 384 bytes.
    TooBig,
    /// The address isn't that of an object, or its exception isn't in a state that the call accepts.
    BadObject,
    /// The address isn't that of the control block of an exception that landed.
    BadUcb,
    /// The exception is caught but isn't on top of the caught stack; or the top isn't in the state `Caught`.
    CaughtOrder,
    /// The caught stack is empty.
    NoCaught,
    /// No cleanup is in progress.
    NoCleanup,
    /// The innermost cleanup in progress was entered with another `sp`.
    CleanupElsewhere,
}

/// The barrier of a throw: the frame and the descriptor at which the search ended.
#[derive(Clone, Copy)]
pub struct BarrierWords {
    /// The stack pointer of the barrier's frame.
    pub sp: u32,
    /// The address of the object that the handler is given.
    pub object: u32,
    /// The address of the descriptor.
    pub desc: u32,
    /// The pointer that a handler of a pointer type is given, else 0.
    pub pointer: u32,
}

/// What a cleanup in progress was entered with, from which the throw resumes.
#[derive(Clone, Copy, PartialEq, Eq)]
pub struct CleanupWords {
    /// The address of the descriptor at which the throw resumes.
    pub next: u32,
    /// The stack pointer with which the cleanup's landing pad was entered.
    pub sp: u32,
    /// The site of the frame: the address of the call in whose scope the cleanup lies.
    pub site: u32,
}
