//! The descriptors of an entry: which of them have a site in their scope, and their landing pads. docs/rules/acceptance.md, "Sites".
ghost use Rattle.std.specs.Prelude.{◌≡◌, ◌||◌, true, Some, IfOk, OnOk};
ghost use Rattle.std.specs.List.{list_any};
ghost use Rattle.eh_index.specs.Places.{table_of};
ghost use Rattle.eh_desc.specs.Grammar.{items_of};
ghost use Rattle.frame_entries.specs.Scopes.{is_one, is_fault, is_scope_at, pad_of, is_cleanup, is_cleanup_at, pad_for};

use eh_codes::Entry;
use eh_desc::{Desc, DescFault, DescKind, Descs};
use eh_index::Index;
use std::alloc::{AllocError, Global};

/// Whether a descriptor has the site in its scope.
pub fn is_scope_at(site: u32, d: &Desc) -> bool
    ensures { result ≡ is_scope_at site d.now }
{
    d.start <= site && site < d.start.wrapping_add(d.size)
}

/// The landing pad's address of a descriptor of this kind; None if it has none.
pub fn pad_of(kind: &DescKind) -> Option<u32>
    ensures { result ≡ pad_of kind.now }
{
    match *kind {
        DescKind::Cleanup { pad } => Some(pad),
        DescKind::Catch { pad, .. } => Some(pad),
        DescKind::Spec { pad, .. } => pad,
    }
}

/// Whether a descriptor of this kind is a cleanup.
pub fn is_cleanup(kind: &DescKind) -> bool
    ensures { result ≡ is_cleanup kind.now }
{
    match kind {
        DescKind::Cleanup { .. } => true,
        DescKind::Catch { .. } | DescKind::Spec { .. } => false,
    }
}

/// Whether a descriptor is a cleanup with the site in its scope.
pub fn is_cleanup_at(site: u32, d: &Desc) -> bool
    ensures { result ≡ is_cleanup_at site d.now }
{
    is_scope_at(site, d) && is_cleanup(&d.kind)
}

/// The landing pad's address of a descriptor with the site in its scope; None if it has no pad, or the site isn't in its scope.
pub fn pad_for(site: u32, d: &Desc) -> Option<u32>
    ensures { result ≡ pad_for site d.now }
{
    if is_scope_at(site, d) {
        pad_of(&d.kind)
    } else {
        None
    }
}

/// Whether an item is a descriptor with the site in its scope.
pub fn is_covered(site: u32, item: Result<Desc, DescFault>) -> bool
    ensures { result ≡ is_one (is_scope_at site) item }
{
    match item {
        Ok(d) => is_scope_at(site, &d),
        Err(_) => false,
    }
}

/// Whether one of the descriptors has the site in its scope.
#[tactic(auto, using(crate::proofs::Items::any_past, crate::proofs::Items::any_here, crate::proofs::Items::any_none))]
pub fn some_covered(site: u32, descs: Descs) -> bool
    ensures { result ≡ list_any (is_one (is_scope_at site)) descs.entry }
{
    for item in descs {
        if is_covered(site, item) {
            return true;
        }
    }
    false
}

/// As `some_covered`, for a list of items.
pub fn any_covered(site: u32, items: &[Result<Desc, DescFault>]) -> bool
    ensures { result ≡ list_any (is_one (is_scope_at site)) items.now }
{
    items.iter().any(|item| is_covered(site, *item))
}

/// Whether one of the descriptors can't be read.
#[tactic(auto, using(crate::proofs::Items::any_past, crate::proofs::Items::any_here, crate::proofs::Items::any_none))]
pub fn some_fault(descs: Descs) -> bool
    ensures { result ≡ list_any is_fault descs.entry }
{
    for item in descs {
        if is_fault(item) {
            return true;
        }
    }
    false
}

/// Whether the cached entry, if there is one, is `e`.
pub fn is_entry(kept: Option<Entry>, e: &Entry) -> bool
    ensures { result ≡ true → kept ≡ Some e.now }
{
    match kept {
        None => false,
        Some(k) => k == *e,
    }
}

/// Whether an item is a descriptor that can't be read.
pub fn is_fault(item: Result<Desc, DescFault>) -> bool
    ensures { result ≡ is_fault item }
{
    match item {
        Ok(_) => false,
        Err(_) => true,
    }
}

/// Replaces the contents of a list by the descriptors of an entry. Err if memory runs out.
pub fn put_items(
    items: &mut Vec<Result<Desc, DescFault>>,
    index: &Index,
    e: &Entry,
) -> Result<(), AllocError>
    ensures { OnOk result (items.new.items ≡ items_of e.now (table_of index.now e.now)) }
{
    items.clear();
    for item in Descs::of(index, e) {
        items.push(item)?;
    }
    Ok(())
}

/// The descriptors of an entry as a list. Err if memory runs out.
pub fn read_items(
    alloc: Global,
    index: &Index,
    e: &Entry,
) -> Result<Vec<Result<Desc, DescFault>>, AllocError>
    ensures { IfOk result (λ items. items.items ≡ items_of e.now (table_of index.now e.now)) }
{
    let mut items = Vec::new(alloc);
    put_items(&mut items, index, e)?;
    Ok(items)
}

/// Whether one of the items can't be read.
pub fn any_fault(items: &[Result<Desc, DescFault>]) -> bool
    ensures { result ≡ list_any is_fault items.now }
{
    items.iter().any(|item| is_fault(*item))
}
