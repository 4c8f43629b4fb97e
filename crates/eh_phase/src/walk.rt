//! The walk from a frame outwards; it holds one frame at a time (docs/rules/phases-and-exceptions.md, "Frames").
ghost use Rattle.std.specs.Prelude.{◌≡◌, Some, None, Ok, Err, MatchBool, MatchOption, option_map};
ghost use Rattle.eh_codes.specs.declared.row.EntryBody.TheVariants.{Table};
ghost use Rattle.eh_phase.specs.declared.walk.CoveringEntry.{CoveringEntry};
ghost use Rattle.eh_codes.specs.Cut.{split_codes};
ghost use Rattle.eh_bytecode.specs.Meaning.{unwind_result};
ghost use Rattle.eh_phase.specs.Frames.{entry_contents, entry_contents_at, is_no_frame, is_above, caller_of, caller_at, check_caller, outer, site_of};
ghost use Rattle.eh_phase.specs.Calls.{stack_of, cursor_of};

use eh_bus::bus::Bus;
use eh_bytecode::{Codes, UnwindEnd, Vrs, unwind};
use eh_desc::Descs;
use eh_index::{Entry, EntryBody, Index};
use eh_types::TypeGraph;
use run_gates::NO_CALLER;
use thumb_core::ends::Cause;

/// The row to begin a look-up at if no entry was found yet; no index has this row.
pub(crate) const NO_ROW: u32 = u32::MAX;

/// What the phases need of an image.
#[derive(Drop)]
pub struct Tables<'i, 'a> {
    /// The index table, with the unwind entries and descriptors.
    pub index: Index<'i, 'a>,
    /// The graph of the image's types.
    pub types: &'i TypeGraph<'a>,
}

/// What the unwind entry that covers a site gives.
#[derive(Drop)]
pub struct CoveringEntry<'a> {
    /// The entry's unwind instructions.
    pub codes: Codes<'a>,
    /// The entry's descriptors.
    pub descs: Descs<'a>,
}

/// The frame that a walk is at.
#[derive(Clone, Copy)]
pub struct Cursor {
    /// The frame's registers.
    pub vrs: Vrs,
    /// The site of the frame: the address of the call that it is in; for the innermost frame, the address that the walk was given.
    pub site: u32,
    /// Whether the walk begins at this frame.
    pub innermost: bool,
}

/// The unwind instructions and descriptors of an entry with a table at `address`. None if the instructions can't be read.
#[inline(always)]
pub(crate) fn covered_by_table<'a>(
    index: &Index<'_, 'a>,
    entry: &Entry,
    address: u32,
) -> Option<CoveringEntry<'a>>
    requires { entry.now.body ≡ Table address }
    ensures { result ≡ entry_contents index.now (Some entry.now) }
{
    let bytes = index.table(entry)?;
    let Ok(codes) = Codes::table(bytes) else {
        return None;
    };
    let descs = Descs::after_codes(entry.start, address, bytes);
    Some(CoveringEntry { codes, descs })
}

/// The unwind instructions of an entry. None if it can't be unwound (`EXIDX_CANTUNWIND`), or its instructions can't be read.
#[inline(always)]
pub(crate) fn codes_by<'a>(index: &Index<'_, 'a>, entry: &Entry) -> Option<Codes<'a>>
    ensures { result ≡ option_map (λ (c : CoveringEntry). c.codes) (entry_contents index.now (Some entry.now)) }
{
    match entry.body {
        EntryBody::CantUnwind => None,
        EntryBody::Inline(word) => match Codes::inline(word) {
            Ok(codes) => Some(codes),
            Err(_) => None,
        },
        EntryBody::Table(_) => match Codes::table(index.table(entry)?) {
            Ok(codes) => Some(codes),
            Err(_) => None,
        },
    }
}

#[inline(always)]
fn is_no_frame(end: u32, innermost: bool, sp: u32, next: u32) -> bool
    ensures { result ≡ is_no_frame end innermost sp next }
{
    next < sp || (!innermost && next == sp) || end < next
}

#[inline(always)]
fn is_above(limit: Option<u32>, sp: u32) -> bool
    ensures { result ≡ is_above limit sp }
{
    match limit {
        None => false,
        Some(limit) => limit < sp,
    }
}

/// The site of a frame that has called: its return address without bit 0, less 2.
#[inline(always)]
fn site_of(vrs: &Vrs) -> u32
    ensures { result ≡ site_of vrs.now.r }
{
    let back = vrs.r[15];
    (back - back % 2).wrapping_sub(2)
}

/// Unwinds a frame's registers in place; answers whether the instructions finish. If they don't, the registers aren't specified.
#[inline(always)]
fn unwinds<B: Bus>(codes: &Codes, bus: &B, vrs: &mut Vrs) -> bool
    ensures { let caller = caller_of (unwind_result (B.memory bus.now).segments vrs.old.r (split_codes codes.now)) in MatchBool result (caller ≡ Some vrs.new) (caller ≡ None) }
{
    match unwind(codes, vrs, bus) {
        UnwindEnd::Finished => true,
        UnwindEnd::Refused | UnwindEnd::BadCode(_) | UnwindEnd::Unreadable(_) => false,
    }
}

/// The registers of the caller, from those of a frame at `site`. None if no entry covers the site, the entry can't be unwound, its
/// instructions can't be read, or they don't finish. The new stack pointer isn't checked.
pub fn caller_at<B: Bus>(t: &Tables, bus: &B, from: &Vrs, site: u32) -> Option<Vrs>
    ensures { result ≡ caller_at t.now.index (B.memory bus.now).segments site from.now.r }
{
    let mut vrs = *from;
    let mut near = NO_ROW;
    if to_caller(t, bus, &mut vrs, site, &mut near) {
        Some(vrs)
    } else {
        None
    }
}

/// As `caller_at`, in place: answers whether `vrs` became the caller's registers. `near` is the index row to begin the look-up at. Any
/// number is allowed, and the row found last is fastest; it becomes the row found last.
#[tactic(auto, unfolding(crate::specs::Frames::entry_contents_at))]
pub fn to_caller<B: Bus>(t: &Tables, bus: &B, vrs: &mut Vrs, site: u32, near: &mut u32) -> bool
    ensures { let caller = caller_at t.now.index (B.memory bus.now).segments site vrs.old.r in MatchBool result (caller ≡ Some vrs.new) (caller ≡ None) }
{
    let (entry, row) = t.index.find_near(site, *near);
    *near = row;
    let Some(entry) = entry else {
        return false;
    };
    let Some(codes) = codes_by(&t.index, &entry) else {
        return false;
    };
    unwinds(&codes, bus, vrs)
}

/// Why registers can't be those of the frame outside one with stack pointer `sp`; None if they can.
#[inline(always)]
fn refusal(end: u32, limit: Option<u32>, innermost: bool, sp: u32, next: &Vrs) -> Option<Cause>
    ensures { let frame = check_caller end limit innermost sp (Some next.now) in MatchOption result (frame ≡ Ok next.now) (λ cause. frame ≡ Err cause) }
{
    if is_no_frame(end, innermost, sp, next.r[13]) {
        Some(Cause::CannotUnwind)
    } else if is_above(limit, next.r[13]) {
        Some(Cause::LeavesCleanup)
    } else if next.r[15] == NO_CALLER {
        Some(Cause::NoHandler)
    } else {
        None
    }
}

/// Goes to the frame outside the cursor's, which has these unwind instructions. Returns why there is none, else None; after a reason
/// the walk ends, and the cursor isn't used again.
#[inline(always)]
#[tactic(auto, unfolding(crate::specs::Frames::outer))]
pub(crate) fn go_to_caller<B: Bus>(
    codes: &Codes,
    bus: &B,
    limit: Option<u32>,
    cursor: &mut Cursor,
) -> Option<Cause>
    ensures { let next = cursor_of (outer (stack_of (B.memory bus.now)) limit cursor.old.innermost codes.now cursor.old.vrs.r) in
        MatchOption result (next ≡ Ok cursor.new) (λ cause. next ≡ Err cause) }
{
    let sp = cursor.vrs.r[13];
    if !unwinds(codes, bus, &mut cursor.vrs) {
        return Some(Cause::CannotUnwind);
    }
    let (_, end) = bus.home();
    let cause = refusal(end, limit, cursor.innermost, sp, &cursor.vrs);
    if cause.is_some() {
        return cause;
    }
    cursor.site = site_of(&cursor.vrs);
    cursor.innermost = false;
    None
}
