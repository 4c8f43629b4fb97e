//! The digits of a schedule's text; docs/guide/walks-and-threads.md states its rules.
ghost use Rattle.std.specs.Prelude.{◌≡◌, Ok, Err, IfOk, IfErr};
ghost use Rattle.thread_schedule.specs.Schedules.{schedule_of, Refuses};
ghost use Rattle.thread_schedule.specs.declared.schedule.ScheduleFault.TheVariants.{OutOfMemory};

use crate::push::push;
use mem_guards::guards::HOMES;
use std::alloc::{AllocError, Global};

/// The byte that a schedule's text may have between its digits.
pub const LINE_FEED: u8 = b'\n';

/// The digit of the first thread.
pub const FIRST_DIGIT: u8 = b'0';

/// The digit of the last thread; there is one for each home.
pub const LAST_DIGIT: u8 = FIRST_DIGIT + (HOMES as u8 - 1);

/// Why a text is no schedule.
#[derive(Clone, Copy)]
pub enum ScheduleFault {
    /// The offset in bytes of the first byte that is neither a thread's digit nor a line feed. The text's length if it has no digit.
    BadSchedule(usize),
    /// There was no memory for the digits.
    OutOfMemory,
}

impl From<AllocError> for ScheduleFault {
    ghost from_gives = { λ _ e. e ≡ OutOfMemory };

    fn from(_e: AllocError) -> ScheduleFault {
        ScheduleFault::OutOfMemory
    }
}

/// Whether the byte is the digit of a thread.
fn is_digit(byte: u8) -> bool
    ensures { result ≡ Rattle.thread_schedule.specs.Schedules.is_digit byte }
{
    (FIRST_DIGIT..=LAST_DIGIT).contains(&byte)
}

/// The digits of a schedule's text, in order. `BadSchedule` if another byte is found or there is no digit; `OutOfMemory` if there was none.
pub fn read_schedule(alloc: Global, text: &[u8]) -> Result<Vec<u8>, ScheduleFault>
    ensures read { IfOk result (λ digits. schedule_of text.now ≡ Ok digits.items) }
    ensures refused { IfErr result (λ why. Refuses text.now why) }
{
    let mut digits = Vec::new(alloc);
    for (at, byte) in text.iter().enumerate() {
        if is_digit(*byte) {
            push(&mut digits, *byte)?;
        } else if *byte != LINE_FEED {
            return Err(ScheduleFault::BadSchedule(at));
        }
    }
    if digits.is_empty() {
        return Err(ScheduleFault::BadSchedule(text.len()));
    }
    Ok(digits)
}
