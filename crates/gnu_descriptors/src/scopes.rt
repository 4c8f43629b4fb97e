//! The descriptors of a generic entry of GNU's tables: what a throw finds in each part of its function's range. docs/rules/gnu-tables.md
//! states the rules.
ghost use Rattle.std.specs.Prelude.{◌≡◌, ◌+◌, ◌^◌, ◌<◌, [], ◌++◌, flat_map, OnOk, IfOk};
ghost use Rattle.std.specs.List.{list_any};
ghost use Rattle.gnu_lsda.specs.Sites.{records_of};
ghost use Rattle.gnu_lsda.specs.Chains.{actions_of};
ghost use Rattle.gnu_descriptors.specs.Scopes.{uncovered_part, takes_of, pad_of, catch_descriptor, catches_of, is_cleaning, is_cleanup, cleanup_of, landing_of, record_descriptors, end_after, item_descriptors, scopes_from, scopes_of};

use eh_desc::CatchType;
use gnu_compact::{OwnDescriptor, OwnKind};
use gnu_lsda::{Action, ActionFault, CatchFilter, Generic, Lsda, Record, RecordFault};
use std::alloc::{AllocError, Global};

/// A descriptor for a part of a generic entry's range.
#[derive(Clone, Copy)]
pub struct GnuDescriptor {
    /// The descriptor, as it is to be written.
    pub descriptor: OwnDescriptor,
    /// For a catch, the filter that its handler is given; else None.
    pub filter: Option<u32>,
}

/// Adds the descriptor of a part that no record covers: a specification that stops every exception. `from` and `to` are offsets in
/// bytes; adds nothing if the part is empty.
fn push_gap(out: &mut Vec<GnuDescriptor>, from: u64, to: u32) -> Result<(), AllocError>
    ensures { OnOk result (out.new.items ≡ out.old.items ++ uncovered_part from to) }
{
    if from < u64::from(to) {
        let offset = from as u32;
        out.push(GnuDescriptor {
            descriptor: OwnDescriptor {
                offset,
                size: to - offset,
                kind: OwnKind::Specification,
            },
            filter: None,
        })?;
    }
    Ok(())
}

/// What the catch of a filter catches.
fn takes_of(takes: CatchFilter) -> CatchType
    ensures { result ≡ takes_of takes }
{
    match takes {
        CatchFilter::All => CatchType::All,
        CatchFilter::OfType(address) => CatchType::One(address),
    }
}

/// The address of a record's landing pad.
fn pad_of(start: u32, site: &Record) -> u32
    ensures { result ≡ pad_of start site.now }
{
    start.wrapping_add(site.pad)
}

/// The catch of a filter, with all of a record's part as its scope.
fn catch_descriptor(start: u32, site: &Record, filter: u64, takes: CatchFilter) -> GnuDescriptor
    ensures { result ≡ catch_descriptor start site.now filter takes }
{
    GnuDescriptor {
        descriptor: OwnDescriptor {
            offset: site.start,
            size: site.size,
            kind: OwnKind::Catch {
                pad: pad_of(start, site),
                takes: takes_of(takes),
            },
        },
        filter: Some((filter % 0x1_0000_0000) as u32),
    }
}

/// Adds the catch of an action; nothing if the action isn't a catch.
fn push_catch(
    out: &mut Vec<GnuDescriptor>,
    start: u32,
    site: &Record,
    item: Result<Action, ActionFault>,
) -> Result<(), AllocError>
    ensures { OnOk result (out.new.items ≡ out.old.items ++ catches_of start site.now item) }
{
    if let Ok(Action::Catch { filter, takes }) = item {
        out.push(catch_descriptor(start, site, filter, takes))?;
    }
    Ok(())
}

/// Whether an action is a cleanup.
fn is_cleanup(item: Result<Action, ActionFault>) -> bool
    ensures { result ≡ is_cleanup item }
{
    match item {
        Ok(Action::Cleanup) => true,
        Ok(Action::Catch { .. } | Action::NoTypes | Action::Specification) | Err(_) => false,
    }
}

/// Whether a chain has a cleanup.
fn has_cleanup(area: &Lsda, action: u32) -> bool
    ensures { result ≡ list_any is_cleanup (actions_of area.now action) }
{
    for item in area.actions(action) {
        if is_cleanup(item) {
            return true;
        }
    }
    false
}

/// Whether a record's cleanup runs for a throw that none of its actions catches.
fn is_cleaning(area: &Lsda, action: u32) -> bool
    ensures { result ≡ is_cleaning area.now action }
{
    action == 0 || has_cleanup(area, action)
}

/// Adds the cleanup of a record.
fn push_cleanup(out: &mut Vec<GnuDescriptor>, start: u32, site: &Record) -> Result<(), AllocError>
    ensures { OnOk result (out.new.items ≡ out.old.items ++ cleanup_of start site.now) }
{
    out.push(GnuDescriptor {
        descriptor: OwnDescriptor {
            offset: site.start,
            size: site.size,
            kind: OwnKind::Cleanup {
                pad: pad_of(start, site),
            },
        },
        filter: None,
    })?;
    Ok(())
}

/// Adds the catches of a record, in the order of its chain.
fn push_catches(
    out: &mut Vec<GnuDescriptor>,
    start: u32,
    area: &Lsda,
    site: &Record,
) -> Result<(), AllocError>
    ensures { OnOk result (out.new.items ≡ out.old.items ++ flat_map (catches_of start site.now) (actions_of area.now site.now.action)) }
{
    for item in area.actions(site.action) {
        push_catch(out, start, site, item)?;
    }
    Ok(())
}

/// Adds the descriptors of a record with a landing pad: its catches, and then its cleanup, if it has one.
fn push_landing(
    out: &mut Vec<GnuDescriptor>,
    start: u32,
    area: &Lsda,
    site: &Record,
) -> Result<(), AllocError>
    ensures { OnOk result (out.new.items ≡ out.old.items ++ landing_of start area.now site.now) }
{
    push_catches(out, start, area, site)?;
    if is_cleaning(area, site.action) {
        push_cleanup(out, start, site)?;
    }
    Ok(())
}

/// Adds the descriptors of a record: none without a landing pad.
fn push_record_descriptors(
    out: &mut Vec<GnuDescriptor>,
    start: u32,
    area: &Lsda,
    site: &Record,
) -> Result<(), AllocError>
    ensures { OnOk result (out.new.items ≡ out.old.items ++ record_descriptors start area.now site.now) }
{
    if site.pad == 0 {
        Ok(())
    } else {
        push_landing(out, start, area, site)
    }
}

/// The end of the range up to a record, in bytes; a record of size 0 doesn't change it.
fn end_after(at: u64, item: Result<Record, RecordFault>) -> u64
    ensures { result ≡ end_after at item }
{
    match item {
        Ok(site) => {
            if site.size == 0 {
                at
            } else {
                u64::from(site.start) + u64::from(site.size)
            }
        }
        Err(RecordFault::Short) => at,
    }
}

/// Adds the descriptors of the gap before a record and of the record; none for a record of size 0.
fn push_record(
    out: &mut Vec<GnuDescriptor>,
    start: u32,
    area: &Lsda,
    at: u64,
    item: Result<Record, RecordFault>,
) -> Result<(), AllocError>
    ensures { OnOk result (out.new.items ≡ out.old.items ++ item_descriptors start area.now at item) }
{
    match item {
        Ok(site) => {
            if site.size == 0 {
                return Ok(());
            }
            push_gap(out, at, site.start)?;
            push_record_descriptors(out, start, area, &site)
        }
        Err(RecordFault::Short) => Ok(()),
    }
}

/// The descriptors of an entry with its data area, in the order of its function's range. A part that no record covers has a
/// specification that stops every exception. A record has the catches of its chain in their order, and then its cleanup. Linear in
/// records and actions. Err if memory runs out.
pub fn scopes_of(
    alloc: Global,
    entry: &Generic,
    area: &Lsda,
) -> Result<Vec<GnuDescriptor>, AllocError>
    ensures { IfOk result (λ v. v.items ≡ scopes_of entry.now area.now) }
{
    let mut out = Vec::new(alloc);
    let mut at = 0;
    for item in area.records() {
        push_record(&mut out, entry.start(), area, at, item)?;
        at = end_after(at, item);
    }
    push_gap(&mut out, at, entry.size())?;
    Ok(out)
}
