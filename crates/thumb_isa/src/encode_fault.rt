//! Why an instruction can't be encoded. The type is here because layouts and reports use it too
//! (docs/rules/instructions.md).
ghost use Rattle.std.specs.Prelude.{◌≡◌, ◌≤◌, length};
ghost use Rattle.thumb_isa.specs.FaultNames.{fault_name};

/// Why an instruction can't be encoded. The first that holds is reported.
#[derive(Clone, Copy, PartialEq, Eq, Debug)]
pub enum EncodeFault {
    /// A register, a list, an `op` or a condition that the encoding has no field value for, or registers that make the
    /// instruction unpredictable.
    RegisterRange,
    /// An empty register list.
    ListEmpty,
    /// An immediate outside of its field's range. LSL shifts by at most 31, LSR and ASR by 1 to 32. A hint and the
    /// option of a barrier are at most 15. An offset from a register must not be negative or too large.
    ImmediateRange,
    /// An offset from a register that is no multiple of the unit of its field.
    ImmediateAlign,
    /// A branch offset that is odd or too far.
    TargetRange,
}

impl EncodeFault {
    /// The name of the refusal in reports.
    pub fn name(self) -> &'static [u8]
        ensures name { result.now ≡ fault_name self }
        ensures short { length result.now ≤ 16 }
    {
        match self {
            EncodeFault::RegisterRange => b"RegisterRange",
            EncodeFault::ListEmpty => b"ListEmpty",
            EncodeFault::ImmediateRange => b"ImmediateRange",
            EncodeFault::ImmediateAlign => b"ImmediateAlign",
            EncodeFault::TargetRange => b"TargetRange",
        }
    }
}
