//! Why a function's frame is rejected; docs/rules/acceptance.md explains each cause.
ghost use Rattle.std.specs.Prelude.{◌≡◌, ◌≤◌, length};
ghost use Rattle.frame_facts.specs.CauseNames.{cause_name};

/// Why a function's frame isn't accepted. The order of the variants is that of the causes' numbers. A cause is given with an address
/// that a path from the function's entry reaches in a state that meets the cause's condition.
#[derive(Clone, Copy, Debug)]
pub enum FrameCause {
    /// The bytes there are no instruction, or its second halfword isn't code of the function.
    Undecodable,
    /// A branch leads to an address that isn't code of the function.
    BranchOut,
    /// MOV or ADD writes pc, or BX goes to a register that doesn't have the entry's lr.
    IndirectBranch,
    /// BL calls an address where no function starts.
    CallNotFunction,
    /// sp is changed in a way other than by a known amount, or the depth leaves the range from 0 to 65,536.
    SpWrite,
    /// Two paths reach the address with different depths of the stack.
    JoinDepth,
    /// A return while words are still on the stack, with a changed register of r4 to r11, or not to the entry's lr.
    ReturnState,
    /// The unwind recipe gives a wrong value to the caller's register `reg`. 13 means the CFA and 15 the return address. 14 is also
    /// given for a call at a depth below 4.
    CallState { reg: u8 },
    /// The unwind instructions compute the virtual stack pointer from `reg`, which isn't known to have an address in the frame.
    FramePointerLost { reg: u8 },
    /// The unwind instructions of the covering entry can't be read, have no recipe, or pop a register twice.
    BadBytecode,
    /// A descriptor of the covering entry can't be read.
    BadDescriptor,
    /// A landing pad isn't code of the function, or paths reach it with different depths of the stack.
    PadDepth,
    /// A gate lies in the scope of a descriptor, with nothing on the stack.
    ThrowInLeafScope,
    /// The unwind entry that covers a reachable site starts inside the function.
    SplitEntry,
    /// The covering unwind entry is of the generic model.
    GenericModel,
    /// More than 16,384 instructions are reachable.
    TooLong,
}

impl FrameCause {
    /// The cause's name, as it is written in reports: at most 16 bytes.
    pub fn name(self) -> &'static [u8]
        ensures name { result.now ≡ cause_name self }
        ensures short { length result.now ≤ 16 }
    {
        match self {
            FrameCause::Undecodable => b"Undecodable",
            FrameCause::BranchOut => b"BranchOut",
            FrameCause::IndirectBranch => b"IndirectBranch",
            FrameCause::CallNotFunction => b"CallNotFunction",
            FrameCause::SpWrite => b"SpWrite",
            FrameCause::JoinDepth => b"JoinDepth",
            FrameCause::ReturnState => b"ReturnState",
            FrameCause::CallState { .. } => b"CallState",
            FrameCause::FramePointerLost { .. } => b"FramePointerLost",
            FrameCause::BadBytecode => b"BadBytecode",
            FrameCause::BadDescriptor => b"BadDescriptor",
            FrameCause::PadDepth => b"PadDepth",
            FrameCause::ThrowInLeafScope => b"ThrowInLeafScope",
            FrameCause::SplitEntry => b"SplitEntry",
            FrameCause::GenericModel => b"GenericModel",
            FrameCause::TooLong => b"TooLong",
        }
    }
}
