//! Saves the bytes that an instruction may store to, and restores them (docs/rules/machine.md, "An event").
ghost use Rattle.std.specs.Prelude.{◌≡◌, ◌+◌, ◌*◌, ◌^◌, ◌<◌, ◌≤◌, Some};
ghost use Rattle.thumb_core.specs.Step.{instr_for};
ghost use Rattle.thumb_isa.specs.declared.profile.Profile.{Profile};
ghost use Rattle.thumb_ahead.specs.UndoRecord.{restore, Restores, CanLoad, HoldsWords, Records};

use crate::span::span_of;
use eh_bus::bus::Bus;
use thumb_core::regs::{Regs, are_words};
use thumb_isa::instr::Instr;

/// The most words that are saved: a register list has no more.
pub const MOST: u32 = 16;

/// The saved bytes.
#[derive(Clone, Copy)]
pub enum UndoRecord {
    /// Nothing is saved.
    Nothing,
    /// A byte at the address `at`.
    Byte {
        at: u32,
        value: u8,
    },
    /// A halfword at the address `at`.
    Half {
        at: u32,
        value: u16,
    },
    /// The first `count` of `words`, from the address `at` on.
    Words {
        at: u32,
        words: [u32; MOST as usize],
        count: u32,
    },
}

/// Saves `count` words from an address on.
fn record_words<B: Bus>(bus: &B, at: u32, count: u32) -> UndoRecord
    requires { count ≤ MOST }
    ensures { at + 4 * count < 2 ^ 32 → CanLoad (B.memory bus.now) at count → HoldsWords (B.memory bus.now) at count result }
{
    let mut words = [0; MOST as usize];
    for k in 0..count {
        match bus.load32(at.wrapping_add(4 * k)) {
            Ok(word) => words[k as usize] = word,
            Err(_) => return UndoRecord::Nothing,
        }
    }
    UndoRecord::Words { at, words, count }
}

/// Saves a byte, a halfword or words. Nothing if they can't be loaded, since then they can't be stored to.
fn record_at<B: Bus>(bus: &B, at: u32, size: u32) -> UndoRecord
    ensures { Records (B.memory bus.now) at size result }
{
    match size {
        1 => match bus.load8(at) {
            Ok(value) => UndoRecord::Byte { at, value },
            Err(_) => UndoRecord::Nothing,
        },
        2 => match bus.load16(at) {
            Ok(value) => UndoRecord::Half { at, value },
            Err(_) => UndoRecord::Nothing,
        },
        _ => {
            if size / 4 <= MOST {
                record_words(bus, at, size / 4)
            } else {
                UndoRecord::Nothing
            }
        }
    }
}

/// Saves the bytes that an instruction may store to. If it is the instruction at pc by some profile, and is then
/// executed, `restore` gives back the memory before it. Allocates nothing and takes constant time.
pub fn undo_record_of<B: Bus>(i: Instr, size: u32, regs: &Regs, bus: &B) -> UndoRecord
    ensures { (p : Profile) → instr_for p (B.memory bus.now) regs.now.pc ≡ Some (i, size) → Restores p result regs.now (B.memory bus.now) }
{
    are_words(&regs.r);
    match span_of(i, regs) {
        None => UndoRecord::Nothing,
        Some((start, bytes)) => record_at(bus, start, bytes),
    }
}

impl UndoRecord {
    /// Stores the saved bytes back.
    pub fn restore<B: Bus>(&self, bus: &mut B)
        ensures { B.memory bus.new ≡ restore self.now (B.memory bus.old) }
    {
        match self {
            UndoRecord::Nothing => {}
            UndoRecord::Byte { at, value } => {
                let _ = bus.store8(*at, *value);
            }
            UndoRecord::Half { at, value } => {
                let _ = bus.store16(*at, *value);
            }
            UndoRecord::Words { at, words, count } => {
                let _ = bus.store_run(*at, &words[..(*count).min(MOST) as usize]);
            }
        }
    }
}
