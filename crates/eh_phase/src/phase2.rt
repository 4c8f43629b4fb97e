//! Phase 2: the landing pad that is entered next (docs/rules/phases-and-exceptions.md, "Phase 2").
ghost use Rattle.std.specs.Prelude.{◌≡◌, ◌&&◌, not, true, None, Ok, Err, MatchResult, option_map};
ghost use Rattle.eh_phase.specs.Firsts.{first_some};
ghost use Rattle.eh_phase.specs.Landings.{landing_in_frame};
ghost use Rattle.eh_phase.specs.Phases.{Frame, stands_at, is_goal, enter_spec, enter_by_kind, enter_item, from_address, phase2};
ghost use Rattle.eh_phase.specs.Frames.{frames_of};
ghost use Rattle.eh_phase.specs.Calls.{frame_at, stack_of};
ghost use Rattle.eh_phase.specs.Passed.{enters_at};

use crate::phase1::PassedFrame;
use crate::verdict::is_in_scope;
use crate::walk::{CoveringEntry, Cursor, NO_ROW, Tables, covered_by_table, go_to_caller};
use eh_bus::bus::Bus;
use eh_bytecode::{Codes, Vrs};
use eh_desc::{Desc, DescFault, DescKind, Descs};
use eh_index::EntryBody;
use thumb_core::ends::Cause;

/// The barrier, as far as phase 2 needs it.
#[derive(Clone, Copy)]
pub struct Goal {
    /// The stack pointer of its frame.
    pub sp: u32,
    /// The address of its descriptor.
    pub desc: u32,
}

/// What phase 2 enters. `vrs` are the registers of the frame that is entered; `pad` is the address of a landing pad, with bit 0 clear.
#[derive(Clone, Copy)]
pub enum Entered {
    /// A cleanup. `next` is the address of the descriptor after its own: phase 2 goes on from there in this frame, at `site`.
    Cleanup {
        vrs: Vrs,
        pad: u32,
        next: u32,
        site: u32,
    },
    /// The barrier, a catch: `pad` is entered.
    Catch {
        vrs: Vrs,
        pad: u32,
    },
    /// The barrier, a specification with a landing pad: `pad` is entered.
    Spec {
        vrs: Vrs,
        pad: u32,
    },
    /// The barrier, a specification without a landing pad.
    Unexpected,
    /// The program terminates: the barrier can't be reached.
    Terminate(Cause),
}

/// What phase 2 enters in a frame, without the frame's registers and site. `pad` is the address of a landing pad, with bit 0 clear.
#[derive(Clone, Copy)]
pub enum Landing {
    /// A cleanup; `next` is the address of the descriptor after its own.
    Cleanup { pad: u32, next: u32 },
    /// The barrier, a catch.
    Catch { pad: u32 },
    /// The barrier, a specification with a landing pad.
    Spec { pad: u32 },
    /// The barrier, a specification without a landing pad.
    Unexpected,
    /// The program terminates: the barrier can't be reached.
    Terminate(Cause),
}

/// Adds the registers and the site of the cursor's frame to a landing.
fn landing_in_frame(cursor: &Cursor, landing: Landing) -> Entered
    ensures { result ≡ landing_in_frame (frame_at cursor.now) landing }
{
    match landing {
        Landing::Cleanup { pad, next } => Entered::Cleanup {
            vrs: cursor.vrs,
            pad,
            next,
            site: cursor.site,
        },
        Landing::Catch { pad } => Entered::Catch {
            vrs: cursor.vrs,
            pad,
        },
        Landing::Spec { pad } => Entered::Spec {
            vrs: cursor.vrs,
            pad,
        },
        Landing::Unexpected => Entered::Unexpected,
        Landing::Terminate(cause) => Entered::Terminate(cause),
    }
}

/// Whether the descriptor at an address, in the cursor's frame, is the barrier.
#[inline(always)]
fn is_goal(goal: &Goal, cursor: &Cursor, at: u32) -> bool
    ensures { result ≡ is_goal goal.now (frame_at cursor.now) at }
{
    cursor.vrs.r[13] == goal.sp && at == goal.desc
}

/// What is entered if the barrier is a specification with this landing pad, or without one.
#[inline(always)]
fn spec_landing(pad: Option<u32>) -> Landing
    ensures { (f : Frame) → landing_in_frame f result ≡ enter_spec f pad }
{
    match pad {
        None => Landing::Unexpected,
        Some(pad) => Landing::Spec { pad },
    }
}

/// What phase 2 enters for a descriptor that is in scope; None if it passes it.
#[inline(always)]
fn landing_by(goal: &Goal, cursor: &Cursor, desc: &Desc) -> Option<Landing>
    ensures { option_map (landing_in_frame (frame_at cursor.now)) result ≡ enter_by_kind goal.now (frame_at cursor.now) desc.now desc.now.kind }
{
    match desc.kind {
        DescKind::Cleanup { pad } => Some(Landing::Cleanup {
            pad,
            next: desc.next,
        }),
        DescKind::Catch { pad, .. } => {
            if is_goal(goal, cursor, desc.at) {
                Some(Landing::Catch { pad })
            } else {
                None
            }
        }
        DescKind::Spec { pad, .. } => {
            if is_goal(goal, cursor, desc.at) {
                Some(spec_landing(pad))
            } else {
                None
            }
        }
    }
}

/// What phase 2 enters for an item of a descriptor list; None if it passes it.
#[inline(always)]
fn landing_of(goal: &Goal, cursor: &Cursor, item: &Result<Desc, DescFault>) -> Option<Landing>
    ensures { option_map (landing_in_frame (frame_at cursor.now)) result ≡ enter_item goal.now (frame_at cursor.now) item.now }
{
    match item {
        Ok(desc) => {
            if is_in_scope(desc, cursor.site) {
                landing_by(goal, cursor, desc)
            } else {
                None
            }
        }
        Err(_) => Some(Landing::Terminate(Cause::CannotUnwind)),
    }
}

/// Whether an item has this address; a fault, which ends a list, counts as having every address.
#[inline(always)]
fn stands_at(item: &Result<Desc, DescFault>, at: u32) -> bool
    ensures { result ≡ stands_at at item.now }
{
    match item {
        Ok(desc) => desc.at == at,
        Err(_) => true,
    }
}

/// Whether the place from which items count is still to come after this item; `before` says whether it was still to come before it.
#[inline(always)]
fn is_before(before: bool, item: &Result<Desc, DescFault>, at: u32) -> bool
    ensures { result ≡ (before && not (stands_at at item.now)) }
{
    before && !stands_at(item, at)
}

/// What phase 2 enters for a list of descriptors, from the one at the address `from` on; 0 means all of them. None if it passes all.
#[inline(always)]
#[tactic(auto, using(crate::proofs::After::left_past, crate::proofs::After::left_gives, crate::proofs::After::left_none))]
fn landing_in(goal: &Goal, from: u32, cursor: &Cursor, descs: Descs) -> Option<Landing>
    ensures { option_map (landing_in_frame (frame_at cursor.now)) result ≡ first_some (enter_item goal.now (frame_at cursor.now)) (from_address from descs.entry) }
{
    let mut before = from != 0;
    for item in descs {
        before = is_before(before, &item, from);
        if before {
            continue;
        }
        if let Some(landing) = landing_of(goal, cursor, &item) {
            return Some(landing);
        }
    }
    None
}

/// The unwind instructions of a frame, if phase 2 enters nothing for its descriptors from `next` on; else Err with what it enters. Err
/// too if no entry covers the site, or it can't be unwound. `near` is the index row to begin the look-up at; it becomes the row found.
#[inline(never)]
#[tactic(auto, unfolding(crate::specs::Passed::enters_at))]
fn codes_or_landing<'a>(
    t: &Tables<'_, 'a>,
    goal: &Goal,
    next: u32,
    cursor: &Cursor,
    near: &mut u32,
) -> Result<Codes<'a>, Landing>
    ensures { let enters = enters_at goal.now next t.now.index (frame_at cursor.now) in
        MatchResult result (λ codes. enters ≡ Ok codes) (λ landing. enters ≡ Err (landing_in_frame (frame_at cursor.now) landing)) }
{
    let (entry, row) = t.index.find_near(cursor.site, *near);
    *near = row;
    let Some(entry) = entry else {
        return Err(Landing::Terminate(Cause::CannotUnwind));
    };
    match entry.body {
        EntryBody::CantUnwind => Err(Landing::Terminate(Cause::CannotUnwind)),
        EntryBody::Inline(word) => match Codes::inline(word) {
            Ok(codes) => Ok(codes),
            Err(_) => Err(Landing::Terminate(Cause::CannotUnwind)),
        },
        EntryBody::Table(address) => {
            let Some(CoveringEntry { codes, descs }) = covered_by_table(&t.index, &entry, address)
            else {
                return Err(Landing::Terminate(Cause::CannotUnwind));
            };
            match landing_in(goal, next, cursor, descs) {
                Some(landing) => Err(landing),
                None => Ok(codes),
            }
        }
    }
}

/// Phase 2, from the registers and site of a frame: enters the first cleanup in scope on the way to the barrier, or the barrier. In the
/// first frame only the descriptors from the address `next` on count. All count for 0, and none if no descriptor has that address.
/// Allocates nothing, and holds one frame at a time.
pub fn advance<B: Bus>(
    t: &Tables,
    bus: &B,
    from: &Vrs,
    site: u32,
    next: u32,
    goal: &Goal,
) -> Entered
    ensures { result ≡ phase2 goal.now next (frames_of t.now.index (stack_of (B.memory bus.now)) None site from.now.r) }
{
    let mut cursor = Cursor {
        vrs: *from,
        site,
        innermost: true,
    };
    let mut near = NO_ROW;
    let landing = find_landing(t, bus, &mut cursor, next, goal, &mut near);
    landing_in_frame(&cursor, landing)
}

/// As `advance`, in place: `cursor` is left at the frame that is entered. `near` is the index row to begin a look-up at. Any number is
/// allowed, and the row found last is fastest; it becomes the row found last.
pub fn find_landing<B: Bus>(
    t: &Tables,
    bus: &B,
    cursor: &mut Cursor,
    next: u32,
    goal: &Goal,
    near: &mut u32,
) -> Landing
    requires { cursor.old.innermost ≡ true }
    ensures { landing_in_frame (frame_at cursor.new) result ≡ phase2 goal.now next (frames_of t.now.index (stack_of (B.memory bus.now)) None cursor.old.site cursor.old.vrs.r) }
{
    let mut next = next;
    let mut here = match codes_or_landing(t, goal, next, cursor, near) {
        Ok(codes) => PassedFrame {
            site: cursor.site,
            codes,
        },
        Err(landing) => return landing,
    };
    loop {
        if let Some(cause) = go_to_caller(&here.codes, bus, None, cursor) {
            return Landing::Terminate(cause);
        }
        if next == 0 && here.site == cursor.site && cursor.vrs.r[13] != goal.sp {
            continue;
        }
        next = 0;
        match codes_or_landing(t, goal, 0, cursor, near) {
            Ok(codes) => here = PassedFrame {
                site: cursor.site,
                codes,
            },
            Err(landing) => return landing,
        }
    }
}
