//! Why a source has no object, and which of several refusals is reported (docs/rules/sources.md).
ghost use Rattle.std.specs.Prelude.{◌≡◌, ◌≤◌, length};
ghost use Rattle.asm_layout.specs.FaultNames.{what_name};
ghost use Rattle.asm_layout.specs.Faults.{number_of, is_before, first_with, first_of, fault_if, first_of_all};

use asm_unwind::UnwindFault;
use std::alloc::AllocError;
use thumb_isa::encode_fault::EncodeFault;

/// Why a source has no object, and at which line. If memory ran out, the line is 0.
#[derive(Clone, Copy)]
pub struct AsmFault {
    /// The line, counted from 1.
    pub line: u32,
    /// Why the statement is refused.
    pub what: AsmWhat,
}

/// Why a statement is refused. The refusal at the lowest line is reported; at one line, the first of this list.
#[derive(Clone, Copy, Debug)]
pub enum AsmWhat {
    /// A label whose name an earlier label already has.
    DuplicateLabel,
    /// A name that the source itself should define, and doesn't. A name that begins with `.L` needs a label in the
    /// source. A name in `adr`, `ldr rt, name`, `b.w`, `cbz` or `cbnz` needs a label in the source's text. The names in
    /// `a-b+n` must be two labels of one section of the source; `.half` and `.byte` take names only in that form.
    UndefinedLocal,
    /// An instruction that can't be encoded, or a number that doesn't fit its field.
    Encode(EncodeFault),
    /// The pool word of a `ldr rt, =value` is more than 1,020 bytes away.
    PoolTooFar,
    /// A section has more than 1,048,576 bytes after this line.
    SectionTooLarge,
    /// An unwind directive is refused, or at `.fnend` the directives of a function together, or at its `.fnstart` a
    /// function that isn't ended.
    Unwind(UnwindFault),
    /// An instruction or a `.fnstart` outside of the text, or bytes in bss.
    Placement,
    /// Memory ran out.
    OutOfMemory,
}

impl AsmWhat {
    /// The name of the refusal in reports. For `Encode` and `Unwind` it is the name of the fault inside.
    pub fn name(self) -> &'static [u8]
        ensures name { result.now ≡ what_name self }
        ensures short { length result.now ≤ 16 }
    {
        match self {
            AsmWhat::DuplicateLabel => b"DuplicateLabel",
            AsmWhat::UndefinedLocal => b"UndefinedLocal",
            AsmWhat::Encode(fault) => fault.name(),
            AsmWhat::PoolTooFar => b"PoolTooFar",
            AsmWhat::SectionTooLarge => b"SectionTooLarge",
            AsmWhat::Unwind(fault) => fault.name(),
            AsmWhat::Placement => b"Placement",
            AsmWhat::OutOfMemory => b"OutOfMemory",
        }
    }
}

impl From<AllocError> for AsmFault {
    ghost use Rattle.std.specs.Prelude.{◌≡◌};
    ghost use Rattle.asm_layout.specs.Faults.{out_of_memory};

    ghost from_gives = { λ _ e. e ≡ out_of_memory };

    fn from(_e: AllocError) -> AsmFault {
        AsmFault {
            line: 0,
            what: AsmWhat::OutOfMemory,
        }
    }
}

/// The rank of a refusal in the order of `AsmWhat`.
fn number(what: AsmWhat) -> u8
    ensures { result ≡ number_of what }
{
    match what {
        AsmWhat::DuplicateLabel => 1,
        AsmWhat::UndefinedLocal => 2,
        AsmWhat::Encode(_) => 3,
        AsmWhat::PoolTooFar => 4,
        AsmWhat::SectionTooLarge => 5,
        AsmWhat::Unwind(_) => 6,
        AsmWhat::Placement => 7,
        AsmWhat::OutOfMemory => 8,
    }
}

/// Whether a refusal comes before another: at a lower line, or at the same line with a lower rank.
fn is_before(fault: AsmFault, other: AsmFault) -> bool
    ensures { result ≡ is_before fault other }
{
    fault.line < other.line || (fault.line == other.line && number(fault.what) < number(other.what))
}

/// The first of the refusals so far and one more. If both rank equal, the one so far.
pub fn first_with(so_far: Option<AsmFault>, fault: AsmFault) -> Option<AsmFault>
    ensures { result ≡ first_with so_far fault }
{
    match so_far {
        Some(first) if !is_before(fault, first) => Some(first),
        _ => Some(fault),
    }
}

/// The first of the refusals so far and one more, if there is one.
pub fn first_of(so_far: Option<AsmFault>, fault: Option<AsmFault>) -> Option<AsmFault>
    ensures { result ≡ first_of so_far fault }
{
    match fault {
        Some(fault) => first_with(so_far, fault),
        None => so_far,
    }
}

/// The first of the refusals so far and, if `refused`, a new one at this line.
#[tactic(auto, unfolding(crate::specs::Faults::first_of_all))]
pub fn first_if(
    so_far: Option<AsmFault>,
    refused: bool,
    line: u32,
    what: AsmWhat,
) -> Option<AsmFault>
    ensures { result ≡ first_of_all so_far (fault_if refused line what) }
{
    if refused {
        first_with(so_far, AsmFault { line, what })
    } else {
        so_far
    }
}
