//! Whether instructions pop a register twice: then the recipe would not name the word of the first pop. docs/rules/unwind-tables.md states
//! the rule.
ghost use Rattle.std.specs.Prelude.{◌≡◌, ℕ, ◌↔◌, List, IsTrue};
ghost use Rattle.thumb_core.specs.Words.{registers_of_list};
ghost use Rattle.eh_codes.specs.Bytes.{IsCode};
ghost use Rattle.eh_codes.specs.Cut.{split_codes};
ghost use Rattle.eh_codes.specs.Meaning.{effect};
ghost use Rattle.eh_bytecode.specs.Once.{with_popped_first, PopsOnce};
ghost use Rattle.eh_bytecode.specs.Marks.{with_popped_list, MarksRegisters};

use crate::codes::Codes;
use crate::frame::range;
use eh_codes::UnwindCode;

/// The list of registers that an instruction pops, as a bit mask; None if it ends the instructions.
fn list_of(code: UnwindCode) -> Option<u16>
    requires { IsCode code }
    ensures { (more : List ℕ) → with_popped_first (effect code) more ≡ with_popped_list result more }
{
    match code {
        UnwindCode::Raise(_)
        | UnwindCode::Lower(_)
        | UnwindCode::RaiseLong(_)
        | UnwindCode::Restore(_) => Some(0),
        UnwindCode::PopMask(mask) => Some(16 * mask),
        UnwindCode::PopRange(last) => Some(range(last)),
        UnwindCode::PopRangeAndLr(last) => Some(range(last) + 0x4000),
        UnwindCode::PopLow(mask) => Some(u16::from(mask)),
        UnwindCode::Refuse | UnwindCode::Finish => None,
    }
}

/// Marks the registers of a list as popped, and answers whether none was popped before.
fn mark(seen: &mut [bool; 16], list: u16) -> bool
    ensures { MarksRegisters seen.old seen.new (registers_of_list list) result }
{
    for k in 0..16u8 {
        if (list >> k) & 1 == 1 {
            if seen[k as usize] {
                return false;
            }
            seen[k as usize] = true;
        }
    }
    true
}

/// Whether the remaining instructions pop no register twice before they end. They end at the first that finishes or refuses, at bytes
/// that are no instruction, or after the last byte. Allocates nothing.
pub fn pops_once(codes: &Codes) -> bool
    ensures { IsTrue result ↔ PopsOnce (split_codes codes.now) }
{
    let mut seen = [false; 16];
    let mut left = codes.copy();
    while let Some(first) = left.next() {
        let Some(code) = left.take_code(first) else {
            return true;
        };
        let Some(list) = list_of(code) else {
            return true;
        };
        if !mark(&mut seen, list) {
            return false;
        }
    }
    true
}
