//! Causes in words: their names, and the register if they have one.
use frame_facts::FrameCause;
use test_rows::Text;

/// The register that a cause names. None if it names none.
fn register_of(cause: FrameCause) -> Option<u8> {
    match cause {
        FrameCause::CallState { reg } | FrameCause::FramePointerLost { reg } => Some(reg),
        FrameCause::Undecodable
        | FrameCause::BranchOut
        | FrameCause::IndirectBranch
        | FrameCause::CallNotFunction
        | FrameCause::SpWrite
        | FrameCause::JoinDepth
        | FrameCause::ReturnState
        | FrameCause::BadBytecode
        | FrameCause::BadDescriptor
        | FrameCause::PadDepth
        | FrameCause::ThrowInLeafScope
        | FrameCause::SplitEntry
        | FrameCause::GenericModel
        | FrameCause::TooLong => None,
    }
}

/// Appends the name of a cause, and its register.
pub fn say_cause(text: &mut Text, cause: FrameCause) {
    text.say_ascii(cause.name());
    if let Some(reg) = register_of(cause) {
        text.say(" r");
        text.say_decimal(u32::from(reg));
    }
}
