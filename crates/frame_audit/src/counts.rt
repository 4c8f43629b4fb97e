//! The counts of an audit: how many functions there are of each kind (docs/guide/audit.md, "Counts").
ghost use Rattle.std.specs.Prelude.{◌≡◌, ◌<◌};
ghost use Rattle.std.specs.List.{count_by};
ghost use Rattle.frame_audit.specs.Counts.{number_of, is_cause, is_counted};

use crate::functions::{FrameFinding, FunctionAudit};
use frame_facts::FrameCause;

/// The causes in the order of their numbers; the register of those that name one is arbitrary.
pub static CAUSES: [FrameCause; 16] = [
    FrameCause::Undecodable,
    FrameCause::BranchOut,
    FrameCause::IndirectBranch,
    FrameCause::CallNotFunction,
    FrameCause::SpWrite,
    FrameCause::JoinDepth,
    FrameCause::ReturnState,
    FrameCause::CallState { reg: 0 },
    FrameCause::FramePointerLost { reg: 0 },
    FrameCause::BadBytecode,
    FrameCause::BadDescriptor,
    FrameCause::PadDepth,
    FrameCause::ThrowInLeafScope,
    FrameCause::SplitEntry,
    FrameCause::GenericModel,
    FrameCause::TooLong,
];

/// A kind of functions to count.
#[derive(Clone, Copy)]
pub enum Question {
    /// Those whose start is covered by an entry that unwinds, or by one that can't be read.
    Unwinds,
    /// Those of `Unwinds` that are accepted.
    UnwindsWell,
    /// Those that can't be unwound.
    CantUnwind,
    /// Those of `CantUnwind` that are accepted.
    CantUnwindWell,
    /// All that are accepted.
    Well,
    /// Those that are rejected for this cause, whatever register it names.
    Cause(FrameCause),
}

/// The number of a cause, whatever register it names.
pub fn number_of(cause: FrameCause) -> u8
    ensures { result ≡ number_of cause }
{
    match cause {
        FrameCause::Undecodable => 1,
        FrameCause::BranchOut => 2,
        FrameCause::IndirectBranch => 3,
        FrameCause::CallNotFunction => 4,
        FrameCause::SpWrite => 5,
        FrameCause::JoinDepth => 6,
        FrameCause::ReturnState => 7,
        FrameCause::CallState { .. } => 8,
        FrameCause::FramePointerLost { .. } => 9,
        FrameCause::BadBytecode => 10,
        FrameCause::BadDescriptor => 11,
        FrameCause::PadDepth => 12,
        FrameCause::ThrowInLeafScope => 13,
        FrameCause::SplitEntry => 14,
        FrameCause::GenericModel => 15,
        FrameCause::TooLong => 16,
    }
}

/// Whether a function is rejected for a cause, whatever register it names.
fn is_cause(cause: FrameCause, unwell: Option<FrameFinding>) -> bool
    ensures { result ≡ is_cause cause unwell }
{
    match unwell {
        None => false,
        Some(u) => number_of(u.cause) == number_of(cause),
    }
}

impl Question {
    /// Whether a function is of this kind.
    pub fn answers(self, a: &FunctionAudit) -> bool
        ensures { result ≡ is_counted self a.now }
    {
        match self {
            Question::Unwinds => a.unwinds,
            Question::UnwindsWell => a.unwinds && a.unwell.is_none(),
            Question::CantUnwind => !a.unwinds,
            Question::CantUnwindWell => !a.unwinds && a.unwell.is_none(),
            Question::Well => a.unwell.is_none(),
            Question::Cause(cause) => is_cause(cause, a.unwell),
        }
    }
}

/// How many of the functions are of a kind.
pub fn count(question: Question, audited: &[FunctionAudit]) -> usize
    ensures { result ≡ count_by (is_counted question) audited.now }
{
    let mut count = 0;
    for a in audited {
        count += usize::from(question.answers(a));
    }
    count
}
