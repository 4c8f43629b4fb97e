//! Makes a function's unwind entry from its unwind directives (IHI 0038; docs/rules/sources.md).
#![tactic(auto)]

ghost use Rattle.asm_unwind.specs.Meaning.{PadsRaise, FramePointersLower, SavesPop, FunctionsUndo};
ghost use Rattle.asm_unwind.specs.EntryLaw.{EntriesHoldTheirCode, FunctionsHoldTheirCode, FunctionsAreRead};

mod code;
pub mod directive;
mod entry;
mod frame;
mod seen;

pub use directive::{MOST_FRAME_OFFSET, MOST_PAD, UnwindDirective, UnwindFault};
pub use entry::{EntryWords, LONG_ROOM, SHORT_ROOM, TableWords};
pub use frame::{FrameText, new_frame};

/// The bytecode of a directive undoes what it says, and nothing else. That of `.pad` adds its size to the virtual stack
/// pointer, that of `.setfp` subtracts its offset, that of `.save` pops its registers, the lowest first. So without a
/// frame pointer, a function's bytecode adds its pads and pops its saved registers, the last list first.
pub fn codes_undo_their_directives()
    ensures pads { PadsRaise }
    ensures offsets { FramePointersLower }
    ensures saves { SavesPop }
    ensures functions { FunctionsUndo }
{}

/// An entry contains its bytecode: the bytes read out of it are the bytecode and at most three "finish". Its top byte
/// has the highest bit set and the number of the personality routine. A table of personality 1 or 2 ends with a zero
/// word if the source gives no words of its own. Decoded, the bytes give the instructions of the function's directives.
pub fn entries_hold_their_code()
    ensures entries { EntriesHoldTheirCode }
    ensures functions { FunctionsHoldTheirCode }
    ensures read { FunctionsAreRead }
{}
