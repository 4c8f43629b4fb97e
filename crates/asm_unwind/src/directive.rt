//! Unwind directives and their refusals (docs/rules/sources.md).
ghost use Rattle.std.specs.Prelude.{◌≡◌, ◌≤◌, length};
ghost use Rattle.asm_unwind.specs.FaultNames.{fault_name};

use std::alloc::{AllocError, AllocFailed};

/// The greatest `.pad`, in bytes.
pub const MOST_PAD: u32 = 65_536;
/// The greatest offset of a frame pointer from sp, in bytes.
pub const MOST_FRAME_OFFSET: u32 = 1020;

/// An unwind directive of a function. Register lists have bit n set for register n.
#[derive(Clone, Copy, Debug)]
pub enum UnwindDirective {
    /// `.fnstart`: the function begins.
    FnStart,
    /// `.fnend`: the function ends.
    FnEnd,
    /// `.save`: these registers were pushed, the lowest at the lowest address.
    Save(u16),
    /// `.pad`: sp was lowered by this number of bytes.
    Pad(u32),
    /// `.setfp`: the register was set to sp plus this number of bytes.
    SetFp(u8, u32),
    /// `.cantunwind`: no unwinding through the function.
    CantUnwind,
    /// `.personalityindex`: the number of the personality routine, 0 to 2.
    PersonalityIndex(u8),
    /// `.handlerdata`: the source itself gives the words after the bytecode.
    HandlerData,
}

/// Why a directive or the end of a function is refused. If several hold, the first of this list is reported.
#[derive(Clone, Copy, Debug)]
pub enum UnwindFault {
    /// A directive before `.fnstart` or after `.fnend`, or a function that isn't ended.
    OutsideFunction,
    /// A second `.fnstart` before `.fnend`.
    NestedFunction,
    /// A register list that is empty, has r13 or r15, or comes after `.setfp`.
    SaveRange,
    /// A pad that is 0, above `MOST_PAD` or no multiple of 4; or a `.setfp` whose offset is above `MOST_FRAME_OFFSET`
    /// or no multiple of 4, or whose register isn't one of r4 to r11.
    PadRange,
    /// A second personality index, or one above 2.
    TwoPersonalities,
    /// Any directive except `.fnend` after `.cantunwind`.
    AfterCantunwind,
    /// The bytecode doesn't fit the entry: more than `SHORT_ROOM` bytes for personality 0, more than `LONG_ROOM` for 1
    /// and 2.
    TooLong,
    /// Memory ran out.
    OutOfMemory,
}

impl UnwindFault {
    /// The name of the refusal in reports.
    pub fn name(self) -> &'static [u8]
        ensures name { result.now ≡ fault_name self }
        ensures short { length result.now ≤ 16 }
    {
        match self {
            UnwindFault::OutsideFunction => b"OutsideFunction",
            UnwindFault::NestedFunction => b"NestedFunction",
            UnwindFault::SaveRange => b"SaveRange",
            UnwindFault::PadRange => b"PadRange",
            UnwindFault::TwoPersonalities => b"TwoPersonalities",
            UnwindFault::AfterCantunwind => b"AfterCantunwind",
            UnwindFault::TooLong => b"TooLong",
            UnwindFault::OutOfMemory => b"OutOfMemory",
        }
    }
}

impl From<AllocError> for UnwindFault {
    ghost use Rattle.std.specs.Prelude.{◌≡◌};
    ghost use Rattle.asm_unwind.specs.declared.directive.UnwindFault.TheVariants.{OutOfMemory};

    ghost from_gives = { λ _ e. e ≡ OutOfMemory };

    fn from(_e: AllocError) -> UnwindFault {
        UnwindFault::OutOfMemory
    }
}

impl From<AllocFailed<UnwindDirective>> for UnwindFault {
    ghost use Rattle.std.specs.Prelude.{◌≡◌};
    ghost use Rattle.asm_unwind.specs.declared.directive.UnwindFault.TheVariants.{OutOfMemory};

    ghost from_gives = { λ _ e. e ≡ OutOfMemory };

    fn from(_e: AllocFailed<UnwindDirective>) -> UnwindFault {
        UnwindFault::OutOfMemory
    }
}
