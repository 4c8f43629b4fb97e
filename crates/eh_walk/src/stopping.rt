//! Where a forced unwinding stops (docs/guide/walks-and-threads.md, "Forced unwinding").
ghost use Rattle.std.specs.Prelude.{◌≡◌, ◌||◌, IfSome, None, is_some};
ghost use Rattle.eh_phase.specs.Calls.{frame_at, stack_of};
ghost use Rattle.eh_phase.specs.Firsts.{first_some};
ghost use Rattle.eh_phase.specs.Frames.{entry_contents_at, frames_of, is_above};
ghost use Rattle.thumb_core.specs.Registers.{all_of};
ghost use Rattle.eh_walk.specs.Stops.{takes_all, stop_by, fault_of, stop_or_fault, stop_at, items_at, stop_here};

use crate::stands::{WalkPlace, is_covered, registers, stands_at};
use eh_bus::bus::Bus;
use eh_desc::{CatchType, Desc, DescFault, DescKind, Descs};
use eh_index::Index;
use eh_phase::Tables;
use eh_phase::walk::Cursor;
use thumb_core::regs::Regs;

/// Why a forced unwinding was refused.
#[derive(Clone, Copy, Debug)]
pub enum ForceFault {
    /// The state stands at no call and at no SVC.
    NotSite,
    /// The walk has no frame with the number.
    NoFrame,
    /// A cleanup is in progress, and the frame lies above its landing sp.
    InsideCleanup,
    /// The frame has no catch of everything in scope.
    NoStop,
    /// The descriptors of a frame inside it can't be read.
    BadTables,
    /// The address is no type of the image.
    BadType,
    /// No slot of the pool is free.
    PoolFull,
}

/// Where a forced unwinding stops.
#[derive(Clone, Copy)]
pub struct StopFrame {
    /// The stack pointer of its frame.
    pub sp: u32,
    /// The address of the descriptor at which it stops.
    pub desc: u32,
    /// The frame's site: the address in its function at which it stands.
    pub site: u32,
}

/// What a forced unwinding asks for, besides where it begins.
#[derive(Clone, Copy)]
pub(crate) struct StopRequest {
    /// The number of the frame; 0 is the innermost.
    pub number: usize,
    /// The landing sp of the innermost cleanup in progress. The frame may not lie above it.
    pub limit: Option<u32>,
    /// Whether the image's types include the type to be thrown.
    pub holds: bool,
}

/// Whether a descriptor is a catch of everything.
fn takes_all(kind: &DescKind) -> bool
    ensures { result ≡ takes_all kind.now }
{
    match *kind {
        DescKind::Cleanup { .. } | DescKind::Spec { .. } => false,
        DescKind::Catch { ty, .. } => match ty {
            CatchType::All => true,
            CatchType::AllFails | CatchType::One(_) => false,
        },
    }
}

/// The stop that one descriptor of a frame gives, if it is one.
fn stop_by(at: &Cursor, item: Result<Desc, DescFault>) -> Option<StopFrame>
    ensures { result ≡ stop_by (frame_at at.now) item }
{
    match item {
        Ok(desc) => {
            if desc.covers(at.site) && takes_all(&desc.kind) {
                Some(StopFrame {
                    sp: at.vrs.r[13],
                    desc: desc.at,
                    site: at.site,
                })
            } else {
                None
            }
        }
        Err(_) => None,
    }
}

/// The first stop among some descriptors.
#[tactic(auto, using(eh_phase::proofs::First::first_past, eh_phase::proofs::First::first_here, eh_phase::proofs::First::first_none))]
fn first_stop(at: &Cursor, descs: Descs) -> Option<StopFrame>
    ensures { result ≡ first_some (stop_by (frame_at at.now)) descs.entry }
{
    for item in descs {
        let stop = stop_by(at, item);
        if stop.is_some() {
            return stop;
        }
    }
    None
}

fn fault_of(item: Result<Desc, DescFault>) -> Option<DescFault>
    ensures { result ≡ fault_of item }
{
    match item {
        Ok(_) => None,
        Err(fault) => Some(fault),
    }
}

/// The first fault of some descriptors.
#[tactic(auto, using(eh_phase::proofs::First::first_past, eh_phase::proofs::First::first_here, eh_phase::proofs::First::first_none))]
fn first_fault(descs: Descs) -> Option<DescFault>
    ensures { result ≡ first_some fault_of descs.entry }
{
    for item in descs {
        let fault = fault_of(item);
        if fault.is_some() {
            return fault;
        }
    }
    None
}

/// The first stop in the entry that covers the site.
#[tactic(auto, using(eh_phase::proofs::First::first_none), unfolding(crate::specs::Stops::items_at))]
fn stop_of_site(index: &Index, at: &Cursor) -> Option<StopFrame>
    ensures { result ≡ first_some (stop_by (frame_at at.now)) (items_at index.now at.now.site) }
{
    match index.find(at.site) {
        None => None,
        Some(entry) => first_stop(at, Descs::of(index, &entry)),
    }
}

/// The first fault in the descriptors of the entry that covers a site.
#[tactic(auto, using(eh_phase::proofs::First::first_none), unfolding(crate::specs::Stops::items_at))]
fn fault_of_site(index: &Index, site: u32) -> Option<DescFault>
    ensures { result ≡ first_some fault_of (items_at index.now site) }
{
    match index.find(site) {
        None => None,
        Some(entry) => first_fault(Descs::of(index, &entry)),
    }
}

/// Whether an earlier frame was unreadable, or the descriptors of the one at a site are.
fn or_unreadable(faulty: bool, index: &Index, site: u32) -> bool
    ensures { result ≡ (faulty || is_some (first_some fault_of (items_at index.now site))) }
{
    faulty || fault_of_site(index, site).is_some()
}

fn is_above(limit: Option<u32>, sp: u32) -> bool
    ensures { result ≡ is_above limit sp }
{
    match limit {
        None => false,
        Some(limit) => limit < sp,
    }
}

/// What is found in the frame asked for. `faulty` says whether a frame inside it is unreadable, `holds` whether the type is one of the
/// image.
fn stop_or_fault(
    faulty: bool,
    holds: bool,
    stop: Option<StopFrame>,
) -> Result<StopFrame, ForceFault>
    ensures { result ≡ stop_or_fault faulty holds stop }
{
    match stop {
        None => Err(ForceFault::NoStop),
        Some(stop) => {
            if faulty {
                Err(ForceFault::BadTables)
            } else if holds {
                Ok(stop)
            } else {
                Err(ForceFault::BadType)
            }
        }
    }
}

/// What is found where the frame asked for would stand.
fn stop_here(
    index: &Index,
    sought: &StopRequest,
    faulty: bool,
    at: &Cursor,
) -> Result<StopFrame, ForceFault>
    ensures { result ≡ stop_here index.now sought.now.limit faulty sought.now.holds at.now }
{
    if !is_covered(index, at.site) {
        return Err(ForceFault::NoFrame);
    }
    if is_above(sought.limit, at.vrs.r[13]) {
        return Err(ForceFault::InsideCleanup);
    }
    stop_or_fault(faulty, sought.holds, stop_of_site(index, at))
}

/// Where a forced unwinding from these registers and this site stops. Takes no memory, and unwinds each frame on the way once.
pub(crate) fn stop_from<B: Bus>(
    t: &Tables,
    bus: &B,
    regs: &Regs,
    site: u32,
    sought: &StopRequest,
) -> Result<StopFrame, ForceFault>
    ensures { result ≡ stop_at sought.now.limit sought.now.holds sought.now.number (frames_of t.now.index (stack_of (B.memory bus.now)) None site (all_of regs.now)).frames }
{
    let mut at = Cursor {
        vrs: registers(regs),
        site,
        innermost: true,
    };
    let mut faulty = false;
    let mut further = sought.number;
    while further > 0 {
        match stands_at(t, bus, &at) {
            WalkPlace::Nothing => return Err(ForceFault::NoFrame),
            WalkPlace::Last(_) => return Err(ForceFault::NoFrame),
            WalkPlace::Inside(next) => {
                faulty = or_unreadable(faulty, &t.index, at.site);
                at = next;
                further -= 1;
            }
        }
    }
    stop_here(&t.index, sought, faulty, &at)
}
