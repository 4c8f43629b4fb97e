//! How a run ends: causes of termination, traps and other ends, shared by all machines (docs/rules/instructions.md, "Ends").
ghost use Rattle.std.specs.Prelude.{◌≡◌, ◌≤◌, length};
ghost use Rattle.thumb_core.specs.EndNames.{cause_name, kind_name};

/// Why a run terminates: the C++ runtime would call `std::terminate`.
#[derive(Clone, Copy, PartialEq, Eq, Debug)]
pub enum Cause {
    /// No frame has a handler for the exception.
    NoHandler,
    /// A frame has no unwind entry, or its entry forbids unwinding.
    CannotUnwind,
    /// The exception would leave a function that must not throw.
    NoThrow,
    /// The exception would leave a cleanup that is running.
    LeavesCleanup,
    /// The exception violates a function's exception specification.
    Unexpected,
    /// A rethrow while no exception is caught.
    NothingCaught,
    /// The pool has no free slot for an exception.
    PoolFull,
    /// The program called for termination.
    Called,
}

impl Cause {
    /// The name of the cause in reports.
    pub fn name(self) -> &'static [u8]
        ensures name { result.now ≡ cause_name self }
        ensures short { length result.now ≤ 16 }
    {
        match self {
            Cause::NoHandler => b"NoHandler",
            Cause::CannotUnwind => b"CannotUnwind",
            Cause::NoThrow => b"NoThrow",
            Cause::LeavesCleanup => b"LeavesCleanup",
            Cause::Unexpected => b"Unexpected",
            Cause::NothingCaught => b"NothingCaught",
            Cause::PoolFull => b"PoolFull",
            Cause::Called => b"Called",
        }
    }
}

/// The kind of a trap. Each variant says what the value in `End::Trap` is.
#[derive(Clone, Copy, PartialEq, Eq, Debug)]
pub enum TrapKind {
    /// An undefined instruction; the value is its first halfword.
    Undefined,
    /// An instruction that the manual calls unpredictable; the value is its first halfword.
    Unpredictable,
    /// A system instruction that this core doesn't have; the value is its first halfword.
    NotInProfile,
    /// A branch to an address with bit 0 clear; the value is the target.
    EvenTarget,
    /// An access outside of every segment; the value is the address.
    Unmapped,
    /// An unaligned access; the value is the address.
    Unaligned,
    /// A store to a segment that isn't writable; the value is the address.
    ReadOnly,
    /// A store to a guarded word; the value is the address of that word.
    SavedSlot,
    /// An access to the closed part of a pool slot; the value is the address.
    Protected,
    /// A fetch from a segment that isn't executable; the value is the address.
    NotExecutable,
    /// Control left the code of a function without a branch: the checker reached no instruction at pc, or the next function begins
    /// there. The value is the pc, or the start of the next function.
    FellOff,
    /// sp rose where the checker allows only that it is lowered; the value is the new sp.
    SpRaised,
    /// sp rose above the landing sp of the innermost cleanup in progress; the value is the new sp.
    SpInCleanup,
    /// sp is below the running stack; the value is the new sp.
    StackLimit,
    /// A call to an address where no function begins; the value is the target.
    BadCallTarget,
    /// An SVC whose number is no gate; the value is the number.
    UnknownGate,
    /// An SVC that needs an exception's object in r0 found none; the value is r0.
    BadObject,
    /// An SVC that needs a control block in r0 found none; the value is r0.
    BadUcb,
    /// An exception object that is too big; the value is r0, its size in bytes.
    TooBig,
    /// A throw of an unknown type; the value is the address of the type.
    BadType,
    /// A catch or rethrow out of order; the value is the address of the control block.
    CaughtOrder,
    /// A handler ends while no exception is caught; the value is 0.
    NoCaught,
    /// A cleanup ends while none is in progress; the value is 0.
    NoCleanup,
    /// The end of a cleanup other than the innermost one in progress. The value is the sp that was found, or 0 if there is none.
    CleanupElsewhere,
    /// An object that can't be read; the value is the address.
    ObjectRead,
}

impl TrapKind {
    /// The name of the kind in reports.
    pub fn name(self) -> &'static [u8]
        ensures name { result.now ≡ kind_name self }
        ensures short { length result.now ≤ 16 }
    {
        match self {
            TrapKind::Undefined => b"Undefined",
            TrapKind::Unpredictable => b"Unpredictable",
            TrapKind::NotInProfile => b"NotInProfile",
            TrapKind::EvenTarget => b"EvenTarget",
            TrapKind::Unmapped => b"Unmapped",
            TrapKind::Unaligned => b"Unaligned",
            TrapKind::ReadOnly => b"ReadOnly",
            TrapKind::SavedSlot => b"SavedSlot",
            TrapKind::Protected => b"Protected",
            TrapKind::NotExecutable => b"NotExecutable",
            TrapKind::FellOff => b"FellOff",
            TrapKind::SpRaised => b"SpRaised",
            TrapKind::SpInCleanup => b"SpInCleanup",
            TrapKind::StackLimit => b"StackLimit",
            TrapKind::BadCallTarget => b"BadCallTarget",
            TrapKind::UnknownGate => b"UnknownGate",
            TrapKind::BadObject => b"BadObject",
            TrapKind::BadUcb => b"BadUcb",
            TrapKind::TooBig => b"TooBig",
            TrapKind::BadType => b"BadType",
            TrapKind::CaughtOrder => b"CaughtOrder",
            TrapKind::NoCaught => b"NoCaught",
            TrapKind::NoCleanup => b"NoCleanup",
            TrapKind::CleanupElsewhere => b"CleanupElsewhere",
            TrapKind::ObjectRead => b"ObjectRead",
        }
    }
}

/// How a run ends.
#[derive(Clone, Copy, PartialEq, Eq)]
pub enum End {
    /// The program ended itself, with this number.
    Exit(u32),
    /// The C++ runtime would call `std::terminate`.
    Terminate(Cause),
    /// A trap: its kind, its value, and the pc of the instruction.
    Trap(TrapKind, u32, u32),
    /// The budget of instructions is used up.
    Budget,
    /// Input could not be read.
    ReadFault,
    /// Output could not be written.
    WriteFault,
}
