//! One step of a walk: whether a frame stands at a place, and where the walk goes on (docs/guide/walks-and-threads.md, "Frames").
ghost use Rattle.std.specs.Prelude.{◌≡◌, None, Some, is_some, slice_index};
ghost use Rattle.eh_index.specs.Places.{table_of};
ghost use Rattle.eh_phase.specs.Calls.{stack_of};
ghost use Rattle.eh_phase.specs.Frames.{codes_of, entry_contents_at, check_caller, is_no_frame, site_of};
ghost use Rattle.thumb_core.specs.Registers.{all_of};
ghost use Rattle.eh_walk.specs.Walks.{outside_of, stands_at};

use crate::walk::WalkEnd;
use eh_bus::bus::Bus;
use eh_bytecode::{Codes, Vrs};
use eh_index::{Entry, EntryBody, Index};
use eh_phase::walk::Cursor;
use eh_phase::{Tables, caller_at};
use run_gates::NO_CALLER;
use thumb_core::regs::Regs;

/// What a step of a walk finds.
#[derive(Clone, Copy)]
pub(crate) enum WalkPlace {
    /// No frame: no entry covers the site, its entry can't be unwound, or its codes can't be read.
    Nothing,
    /// A frame, and why there is none outside it.
    Last(WalkEnd),
    /// A frame, and where to find the one outside it.
    Inside(Cursor),
}

/// The virtual registers of a frame with these registers; pc is the last of them.
pub(crate) fn registers(regs: &Regs) -> Vrs
    ensures { result.r ≡ all_of regs.now }
{
    let r = regs.r;
    Vrs {
        r: [
            r[0], r[1], r[2], r[3], r[4], r[5], r[6], r[7], r[8], r[9], r[10], r[11], r[12], r[13],
            r[14], regs.pc,
        ],
    }
}

/// Whether the codes of an entry can be read.
fn has_codes(index: &Index, entry: &Entry) -> bool
    ensures { result ≡ is_some (codes_of entry.now.body (table_of index.now entry.now)) }
{
    match entry.body {
        EntryBody::CantUnwind => false,
        EntryBody::Inline(word) => Codes::inline(word).is_ok(),
        EntryBody::Table(_) => match index.table(entry) {
            None => false,
            Some(bytes) => Codes::table(bytes).is_ok(),
        },
    }
}

/// Whether a frame stands at a site: an entry covers the site, and its codes can be read.
#[tactic(auto, unfolding(eh_phase::specs::Frames::entry_contents_at))]
pub(crate) fn is_covered(index: &Index, site: u32) -> bool
    ensures { result ≡ is_some (entry_contents_at index.now site) }
{
    match index.find(site) {
        None => false,
        Some(entry) => has_codes(index, &entry),
    }
}

fn is_no_frame(end: u32, innermost: bool, sp: u32, next: u32) -> bool
    ensures { result ≡ is_no_frame end innermost sp next }
{
    next < sp || (!innermost && next == sp) || end < next
}

/// The site of a call, from its return address.
fn site_of(vrs: &Vrs) -> u32
    ensures { result ≡ site_of vrs.now.r }
{
    let back = vrs.r[15];
    (back - back % 2).wrapping_sub(2)
}

/// What the registers after unwinding a frame are: those of the frame outside it, or of none.
fn outside(end: u32, at: &Cursor, next: Vrs) -> WalkPlace
    ensures { result ≡ outside_of (check_caller end None at.now.innermost (slice_index at.now.vrs.r 13) (Some next)) }
{
    if is_no_frame(end, at.innermost, at.vrs.r[13], next.r[13]) {
        WalkPlace::Last(WalkEnd::NoUnwind)
    } else if next.r[15] == NO_CALLER {
        WalkPlace::Last(WalkEnd::Root)
    } else {
        WalkPlace::Inside(Cursor {
            site: site_of(&next),
            vrs: next,
            innermost: false,
        })
    }
}

/// What a walk finds at a place.
#[tactic(auto, unfolding(eh_phase::specs::Frames::outer))]
pub(crate) fn stands_at<B: Bus>(t: &Tables, bus: &B, at: &Cursor) -> WalkPlace
    ensures { result ≡ stands_at t.now.index (stack_of (B.memory bus.now)) at.now }
{
    match caller_at(t, bus, &at.vrs, at.site) {
        None => {
            if is_covered(&t.index, at.site) {
                WalkPlace::Last(WalkEnd::NoUnwind)
            } else {
                WalkPlace::Nothing
            }
        }
        Some(next) => {
            let (_, end) = bus.home();
            outside(end, at, next)
        }
    }
}
