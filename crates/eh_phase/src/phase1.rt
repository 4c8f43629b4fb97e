//! Phase 1: the search for the frame that stops a thrown object (docs/rules/phases-and-exceptions.md, "Phase 1").
ghost use Rattle.std.specs.Prelude.{◌≡◌};
ghost use Rattle.eh_phase.specs.Phases.{verdict_result, phase1};
ghost use Rattle.eh_phase.specs.Frames.{frames_of};
ghost use Rattle.eh_phase.specs.Calls.{frame_at, meeting, stack_of};
ghost use Rattle.eh_phase.specs.Passed.{verdict_or_codes};

use crate::verdict::{Thrown, Verdict, verdict_of};
use crate::walk::{CoveringEntry, Cursor, NO_ROW, Tables, covered_by_table, go_to_caller};
use eh_bus::bus::Bus;
use eh_bytecode::{Codes, Vrs};
use eh_index::EntryBody;
use eh_match::Match;
use thumb_core::ends::Cause;

/// The descriptor that stops a throw, and its frame.
#[derive(Clone, Copy)]
pub struct Barrier {
    /// The stack pointer of its frame.
    pub sp: u32,
    /// The address of the descriptor, in the image.
    pub desc: u32,
    /// The site of its frame: the address of the call that the frame is in.
    pub site: u32,
    /// How the object matched. For a catch of everything and for a specification it is the object itself.
    pub hit: Match,
}

/// The result of phase 1.
#[derive(Clone, Copy)]
pub enum Found {
    /// A descriptor stops the throw.
    Barrier(Barrier),
    /// The program terminates: no frame stops the throw, or a frame on the way can't be unwound.
    Terminate(Cause),
    /// A match has to read a word of the object that can't be read: the first such address.
    ObjectRead(u32),
}

/// The result of phase 1 if the frame at the cursor has this verdict.
fn verdict_result(cursor: &Cursor, verdict: Verdict) -> Found
    ensures { result ≡ verdict_result (frame_at cursor.now) verdict }
{
    match verdict {
        Verdict::Barrier { desc, hit } => Found::Barrier(Barrier {
            sp: cursor.vrs.r[13],
            desc,
            site: cursor.site,
            hit,
        }),
        Verdict::ObjectRead(a) => Found::ObjectRead(a),
        Verdict::Terminate(cause) => Found::Terminate(cause),
    }
}

/// A frame that a phase has passed. A next frame with the same site has the same unwind entry, so that entry isn't looked up again.
#[derive(Drop)]
pub struct PassedFrame<'a> {
    /// The site of the frame: the address of the call that it is in.
    pub site: u32,
    /// The unwind instructions of the entry that covers the site.
    pub codes: Codes<'a>,
}

/// The unwind instructions of a frame at the site, if its descriptors have no verdict; else Err with the verdict. Err too if no entry
/// covers the site, or it can't be unwound. `near` is the index row to begin the look-up at; it becomes the row found.
#[inline(never)]
#[tactic(auto, unfolding(crate::specs::Passed::verdict_or_codes))]
fn codes_or_verdict<'a, B: Bus>(
    t: &Tables<'_, 'a>,
    bus: &B,
    what: &Thrown,
    site: u32,
    near: &mut u32,
) -> Result<Codes<'a>, Verdict>
    ensures { result ≡ verdict_or_codes (meeting t.now.index t.now.types.now (B.memory bus.now).segments what.now) t.now.index site }
{
    let (entry, row) = t.index.find_near(site, *near);
    *near = row;
    let Some(entry) = entry else {
        return Err(Verdict::Terminate(Cause::CannotUnwind));
    };
    match entry.body {
        EntryBody::CantUnwind => Err(Verdict::Terminate(Cause::CannotUnwind)),
        EntryBody::Inline(word) => match Codes::inline(word) {
            Ok(codes) => Ok(codes),
            Err(_) => Err(Verdict::Terminate(Cause::CannotUnwind)),
        },
        EntryBody::Table(address) => {
            let Some(CoveringEntry { codes, descs }) = covered_by_table(&t.index, &entry, address)
            else {
                return Err(Verdict::Terminate(Cause::CannotUnwind));
            };
            match verdict_of(t, bus, what, site, descs) {
                Some(said) => Err(said),
                None => Ok(codes),
            }
        }
    }
}

/// Phase 1, from the registers and site of the throwing frame: the first frame, innermost first, whose descriptors have a verdict
/// decides. With a `limit`, frames above that stack pointer aren't looked at, since the throw would leave a cleanup. Allocates nothing,
/// and holds one frame at a time.
pub fn search<B: Bus>(
    t: &Tables,
    bus: &B,
    from: &Vrs,
    site: u32,
    what: &Thrown,
    limit: Option<u32>,
) -> Found
    ensures { result ≡ phase1 (meeting t.now.index t.now.types.now (B.memory bus.now).segments what.now)
        (frames_of t.now.index (stack_of (B.memory bus.now)) limit site from.now.r) }
{
    let mut cursor = Cursor {
        vrs: *from,
        site,
        innermost: true,
    };
    let mut near = NO_ROW;
    let mut here = match codes_or_verdict(t, bus, what, site, &mut near) {
        Ok(codes) => PassedFrame { site, codes },
        Err(said) => return verdict_result(&cursor, said),
    };
    loop {
        if let Some(cause) = go_to_caller(&here.codes, bus, limit, &mut cursor) {
            return Found::Terminate(cause);
        }
        if here.site == cursor.site {
            continue;
        }
        match codes_or_verdict(t, bus, what, cursor.site, &mut near) {
            Ok(codes) => here = PassedFrame {
                site: cursor.site,
                codes,
            },
            Err(said) => return verdict_result(&cursor, said),
        }
    }
}
