//! The frames from a site outwards (docs/guide/walks-and-threads.md, "Frames").
ghost use Rattle.std.specs.Prelude.{◌≡◌, ◌++◌, ◌∷◌, [], IfOk, None, Some};
ghost use Rattle.eh_phase.specs.Calls.{stack_of};
ghost use Rattle.eh_phase.specs.Frames.{frames_of};
ghost use Rattle.thumb_core.specs.Registers.{all_of};
ghost use Rattle.eh_walk.specs.Walks.{IsWalk, walk_frame_at};

use crate::stands::{WalkPlace, is_covered, registers, stands_at};
use eh_bus::bus::Bus;
use eh_phase::Tables;
use eh_phase::walk::Cursor;
use std::alloc::{AllocFailed, Global};
use thumb_core::regs::Regs;

/// What a walk shows of a frame.
#[derive(Clone, Copy)]
pub struct WalkFrame {
    /// The frame's site: the address in its function at which it stands.
    pub site: u32,
    /// Its stack pointer.
    pub sp: u32,
    /// Its registers r4 to r11, in this order.
    pub regs: [u32; 8],
}

/// Why a walk gives no further frame.
#[derive(Clone, Copy, Debug)]
pub enum WalkEnd {
    /// Nobody called the outermost frame.
    Root,
    /// The next frame can't be found: no entry covers a site, an entry can't be unwound, or the codes of a frame give no frame.
    NoUnwind,
    /// As many frames as asked for were given, and there is a further one.
    Most,
    /// The state stands at no call and at no SVC.
    NotSite,
}

/// A walk: its frames, and why there are no more.
#[derive(Drop)]
pub struct Backtrace {
    /// The frames, the innermost first.
    pub frames: Vec<WalkFrame>,
    /// Why there is no further frame.
    pub end: WalkEnd,
}

/// Lack of memory for the list of frames.
#[derive(Clone, Copy)]
pub enum WalkMemory {
    /// An allocation failed.
    OutOfMemory,
}

impl<T: Drop> From<AllocFailed<T>> for WalkMemory {
    fn from(_: AllocFailed<T>) -> WalkMemory {
        WalkMemory::OutOfMemory
    }
}

/// What a walk shows of the frame at a place.
fn walk_frame_at(at: &Cursor) -> WalkFrame
    ensures { result ≡ walk_frame_at at.now }
{
    let r = at.vrs.r;
    WalkFrame {
        site: at.site,
        sp: r[13],
        regs: [r[4], r[5], r[6], r[7], r[8], r[9], r[10], r[11]],
    }
}

/// The walk with these frames and one more, the last.
fn backtrace_with_last(
    mut frames: Vec<WalkFrame>,
    at: &Cursor,
    end: WalkEnd,
) -> Result<Backtrace, WalkMemory>
    ensures frames { IfOk result (λ w. w.frames.items ≡ frames.items ++ (walk_frame_at at.now ∷ [])) }
    ensures end { IfOk result (λ w. w.end ≡ end) }
{
    frames.push(walk_frame_at(at))?;
    Ok(Backtrace { frames, end })
}

/// The frames from registers and a site outwards, the innermost first, at most as many as asked for.
pub(crate) fn walk_from<B: Bus>(
    alloc: Global,
    t: &Tables,
    bus: &B,
    regs: &Regs,
    site: u32,
    most: usize,
) -> Result<Backtrace, WalkMemory>
    ensures { IfOk result (λ w. IsWalk most (Some (frames_of t.now.index (stack_of (B.memory bus.now)) None site (all_of regs.now))) w) }
{
    let mut frames = Vec::new(alloc);
    let mut at = Cursor {
        vrs: registers(regs),
        site,
        innermost: true,
    };
    while frames.len() < most {
        match stands_at(t, bus, &at) {
            WalkPlace::Nothing => {
                return Ok(Backtrace {
                    frames,
                    end: WalkEnd::NoUnwind,
                });
            }
            WalkPlace::Last(end) => return backtrace_with_last(frames, &at, end),
            WalkPlace::Inside(next) => {
                frames.push(walk_frame_at(&at))?;
                at = next;
            }
        }
    }
    if is_covered(&t.index, at.site) {
        Ok(Backtrace {
            frames,
            end: WalkEnd::Most,
        })
    } else {
        Ok(Backtrace {
            frames,
            end: WalkEnd::NoUnwind,
        })
    }
}
