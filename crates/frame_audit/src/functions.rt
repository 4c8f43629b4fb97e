//! Checks each function of an image by itself (docs/guide/audit.md, "Functions").
ghost use Rattle.std.specs.Prelude.{◌≡◌, [], IfOk, OnOk, Some};
ghost use Rattle.run_images.specs.Profiles.{profile_of};
ghost use Rattle.frame_check.specs.Roots.{flow_graph_of};
ghost use Rattle.frame_check.specs.Judged.{IsPlaced};
ghost use Rattle.frame_audit.specs.Listing.{can_unwind, IsFinding, IsAudited, AreAudited};
ghost use Rattle.frame_audit.specs.declared.functions.AuditMemory.TheVariants.{OutOfMemory};

use eh_index::Index;
use elf_image::Function;
use frame_check::{CheckFault, Room, check_unmarked};
use frame_entries::EntrySummary;
use frame_facts::FrameCause;
use frame_graph::{EntryCache, FlowGraph};
use std::alloc::{AllocError, AllocFailed, Global};
use std::marker::Model;
use thumb_isa::profile::Profile;

/// An address and a cause for which a function is rejected.
#[derive(Clone, Copy)]
pub struct FrameFinding {
    /// The address at which the cause stands.
    pub at: u32,
    /// Why the function is rejected.
    pub cause: FrameCause,
}

/// What an audit finds of a function.
#[derive(Drop)]
pub struct FunctionAudit<'a> {
    /// The function's name.
    pub name: &'a [u8],
    /// The function's first address.
    pub start: u32,
    /// Whether its start is covered by an entry that unwinds, or by one that can't be read.
    pub unwinds: bool,
    /// Why the function is rejected; None if it is accepted.
    pub unwell: Option<FrameFinding>,
}

impl<'a> Model for FunctionAudit<'a> {
    ghost use Rattle.frame_audit.specs.Listing.{FunctionAudit as Parts};

    ghost Value = { Parts };

    ghost view = { λ a. record { name = a.name.now; start = a.start; unwinds = a.unwinds; unwell = a.unwell } };
}

/// There was not enough memory to check a function.
#[derive(Clone, Copy)]
pub enum AuditMemory {
    /// An allocation failed.
    OutOfMemory,
}

impl From<AllocError> for AuditMemory {
    ghost from_gives = { λ _ e. e ≡ OutOfMemory };

    fn from(_e: AllocError) -> AuditMemory {
        AuditMemory::OutOfMemory
    }
}

impl<T: Drop> From<AllocFailed<T>> for AuditMemory {
    ghost from_gives = { λ _ e. e ≡ OutOfMemory };

    fn from(_: AllocFailed<T>) -> AuditMemory {
        AuditMemory::OutOfMemory
    }
}

/// Whether a function's start is covered by an entry that unwinds, or by one that can't be read. The cache must have that entry.
fn can_unwind(cover: &EntryCache, f: &Function) -> bool
    ensures { result ≡ can_unwind cover.now f.now }
{
    let flow_graph = FlowGraph::with_cache(cover, f.start, f.end);
    match flow_graph.unwinding_at(flow_graph.start()) {
        EntrySummary::Refused => false,
        EntrySummary::Finds(_) | EntrySummary::BadBytecode | EntrySummary::GenericModel => true,
    }
}

/// None for a function that is accepted, else an address and a cause that stands there.
fn finding(
    alloc: Global,
    room: &mut Room,
    cover: &EntryCache,
    f: &Function,
) -> Result<Option<FrameFinding>, AuditMemory>
    requires { IsPlaced f.now }
    ensures { IfOk result (IsFinding (flow_graph_of cover.now f.now) f.now) }
{
    match check_unmarked(alloc, room, cover, f) {
        Ok(reached) => {
            room.keep(reached);
            Ok(None)
        }
        Err(CheckFault::Function(r)) => Ok(Some(FrameFinding {
            at: r.at,
            cause: r.cause,
        })),
        Err(CheckFault::OutOfMemory) => Err(AuditMemory::OutOfMemory),
        Err(CheckFault::Index(_) | CheckFault::Types(_)) => unreachable!(),
    }
}

/// Checks a function. The cache must have the entry of its start.
fn audit_function<'a>(
    alloc: Global,
    room: &mut Room,
    cover: &EntryCache,
    f: &Function<'a>,
) -> Result<FunctionAudit<'a>, AuditMemory>
    requires { IsPlaced f.now }
    ensures { IfOk result (IsAudited cover.now f.now) }
{
    let unwell = finding(alloc, room, cover, f)?;
    Ok(FunctionAudit {
        name: f.name,
        start: f.start,
        unwinds: can_unwind(cover, f),
        unwell,
    })
}

/// Checks each function in ascending order, and adds the results. An entry that covers several functions is read once.
fn audit_each<'a>(
    alloc: Global,
    room: &mut Room,
    cover: &mut EntryCache,
    audited: &mut Vec<FunctionAudit<'a>>,
    index: &Index<'_, 'a>,
) -> Result<(), AuditMemory>
    requires none { audited.old.items ≡ [] }
    requires cover { cover.old ≡ index.now }
    ensures { OnOk result (AreAudited index.now index.now.functions audited.new.items) }
{
    for f in index.image().functions() {
        cover.turn(alloc, f.start, f.end)?;
        let found = audit_function(alloc, room, cover, f)?;
        audited.push(found)?;
    }
    Ok(())
}

/// Checks each function in ascending order; `profile` must be that of the image. Holds the facts of one function at a time. Err if
/// memory runs out.
pub fn audit_functions<'a>(
    alloc: Global,
    index: &Index<'_, 'a>,
    profile: Profile,
) -> Result<Vec<FunctionAudit<'a>>, AuditMemory>
    requires { profile ≡ profile_of index.now }
    ensures { IfOk result (λ audited. AreAudited index.now index.now.functions audited.items) }
{
    let mut audited = Vec::new(alloc);
    let mut cover = EntryCache::new(alloc, index, profile);
    let mut room = Room::new(alloc);
    audit_each(alloc, &mut room, &mut cover, &mut audited, index)?;
    Ok(audited)
}
