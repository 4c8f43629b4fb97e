//! The lines of a trace with the thread of each; docs/guide/walks-and-threads.md states its rules.
ghost use Rattle.std.specs.Prelude.{◌≡◌, ℕ, ◌<◌, ◌++◌, drop, IfOk, All};
ghost use Rattle.thread_schedule.specs.Tags.{tag_text, tag_before, tags_left};
ghost use Rattle.thread_schedule.specs.declared.tags.TagMemory.TheVariants.{OutOfMemory};

use crate::push::push;
use crate::schedule::LINE_FEED;
use std::alloc::{AllocError, Global};

/// The byte between a tag and its line.
pub const BLANK: u8 = b' ';

/// The digit of tag 0.
pub const ZERO: u8 = b'0';

/// Every tag is below this number, so each is one digit.
pub const TAGS: u8 = 10;

/// There was no memory for the lines.
#[derive(Clone, Copy)]
pub enum TagMemory {
    /// An allocation failed.
    OutOfMemory,
}

impl From<AllocError> for TagMemory {
    ghost from_gives = { λ _ e. e ≡ OutOfMemory };

    fn from(_e: AllocError) -> TagMemory {
        TagMemory::OutOfMemory
    }
}

/// Where a line begins, adds the next tag as a digit and a blank, if there is one. Gives the index of the next tag.
#[tactic(auto, using(crate::proofs::Tagging::tag_at, crate::proofs::Tagging::no_tag))]
fn begin_line(
    lines: &mut Vec<u8>,
    starts: bool,
    tags: &[u8],
    next: usize,
) -> Result<usize, AllocError>
    requires { All (λ (tag : ℕ). tag < TAGS) tags.now }
    ensures begins { IfOk result (λ after. lines.new.items ≡ lines.old.items ++ tag_before starts (drop next tags.now)) }
    ensures left { IfOk result (λ after. drop after tags.now ≡ tags_left starts (drop next tags.now)) }
{
    if !starts || next >= tags.len() {
        return Ok(next);
    }
    lines.push(ZERO + tags[next])?;
    lines.push(BLANK)?;
    Ok(next + 1)
}

/// The text with a tag, as a digit, and a blank before each of its lines: the first tag before the first line, and so on, until either runs
/// out. All else is as it was. `OutOfMemory` if there was none.
pub fn tag_lines(alloc: Global, text: &[u8], tags: &[u8]) -> Result<Vec<u8>, TagMemory>
    requires { All (λ (tag : ℕ). tag < TAGS) tags.now }
    ensures { IfOk result (λ lines. lines.items ≡ tag_text tags.now text.now) }
{
    let mut lines = Vec::new(alloc);
    let mut next = 0;
    let mut starts = true;
    for byte in text {
        next = begin_line(&mut lines, starts, tags, next)?;
        push(&mut lines, *byte)?;
        starts = *byte == LINE_FEED;
    }
    Ok(lines)
}
