//! An unwind entry that is read once, for all sites of a function and for the next functions that it covers.
//! docs/rules/acceptance.md, "Sites".
ghost use Rattle.std.specs.Prelude.{◌≡◌, ◌++◌, Some, true, IfOk, OnOk, IfSome};
ghost use Rattle.std.specs.List.{list_any, filter};
ghost use Rattle.eh_index.specs.Covering.{covering};
ghost use Rattle.eh_index.specs.Places.{table_of};
ghost use Rattle.eh_index.specs.Rows.{entries_of};
ghost use Rattle.eh_desc.specs.Grammar.{items_of};
ghost use Rattle.run_images.specs.Profiles.{profile_of};
ghost use Rattle.frame_entries.specs.Scopes.{is_fault};
ghost use Rattle.frame_graph.specs.EntryCaching.{CoversTo, IsBetween};
ghost use Rattle.frame_graph.specs.SiteCaching.{is_met, IsWithin};

use crate::kept_places::KeptPlaces;
use crate::site_cache::AddressRange;
use eh_desc::{Desc, DescFault, Descs};
use eh_index::{Entry, Index};
use frame_entries::scopes::{any_fault, is_entry, put_items};
use frame_entries::unwinding::{EntrySummary, summary_of_entry};
use std::alloc::{AllocError, Global};
use std::marker::Model;
use thumb_isa::profile::Profile;

/// A cache of one unwind entry, of its descriptors near a function, and of the decoded places of a function. In contracts, it is the
/// image alone: what is cached is always what the image's bytes say.
#[derive(Drop)]
pub struct EntryCache<'s, 'i, 'a> {
    /// The index table of the image.
    pub(crate) index: &'s Index<'i, 'a>,
    /// The instruction set profile of the image.
    pub(crate) profile: Profile,
    /// The cached entry; None if there is none yet.
    pub(crate) entry: Option<Entry>,
    /// How the cached entry unwinds.
    pub(crate) unwinding: EntrySummary,
    /// All descriptors of the cached entry.
    pub(crate) items: Vec<Result<Desc, DescFault>>,
    /// Whether one of these descriptors can't be read.
    pub(crate) faulty: bool,
    /// The addresses for which `near` has all descriptors in scope; None if none were chosen.
    pub(crate) span: Option<AddressRange>,
    /// The descriptors whose scope overlaps `span`.
    pub(crate) near: Vec<Result<Desc, DescFault>>,
    /// The decoded first places of a function.
    pub(crate) kept: KeptPlaces,
    /// The last address of the function, if the cached entry covers it.
    pub(crate) last: Option<u32>,
}

impl<'s, 'i, 'a> Model for EntryCache<'s, 'i, 'a> {
    ghost use Rattle.std.specs.Prelude.{◌≡◌};
    ghost use Rattle.elf_image.specs.Image.{Image as Parts};
    ghost use Rattle.run_images.specs.Profiles.{profile_of};
    ghost use Rattle.frame_graph.specs.EntryCaching.{IsKept, CoversTo};
    ghost use Rattle.frame_graph.specs.SiteCaching.{AreAtHand};
    ghost use Rattle.frame_graph.specs.KeptPlaces.{ArePlaces};

    ghost Value = { Parts };

    ghost view = { λ c. c.index.now };

    ghost invariant = { λ c. IsKept c.index.now c.entry c.unwinding c.items.items c.faulty × AreAtHand c.index.now c.entry c.span c.near.items × ArePlaces (record { image = c.index.now; start = c.kept.start; end = c.kept.end }) c.kept.places.items × CoversTo c.index.now c.entry c.last × (c.profile ≡ profile_of c.index.now) };
}

/// The address `a`, if the entry `told` covers it and is the cached one; else None.
fn last_if_kept(index: &Index, kept: Option<Entry>, told: Option<Entry>, a: u32) -> Option<u32>
    requires { IfSome told (λ e. covering (entries_of index.now) a ≡ Some e) }
    ensures { CoversTo index.now kept result }
{
    match told {
        None => None,
        Some(e) => { if is_entry(kept, &e) { Some(a) } else { None } }
    }
}

/// The entry that covers all of a function. It covers the last address and starts at or below the first; None if there is none.
fn whole_entry(index: &Index, function: &AddressRange) -> Option<Entry>
    ensures { IfSome result (λ e. covering (entries_of index.now) function.now.last ≡ Some e) }
{
    match index.find(function.last) {
        None => None,
        Some(e) => {
            if e.start <= function.low {
                Some(e)
            } else {
                None
            }
        }
    }
}

/// The addresses of a function, from its first address and the first one after it.
fn span_of(start: u32, end: u32) -> AddressRange {
    AddressRange {
        low: start,
        last: end.saturating_sub(1).max(start),
    }
}

/// Whether an address lies between the start of the cached entry and an address that this entry covers.
pub(crate) fn is_between(kept: Option<Entry>, last: Option<u32>, a: u32) -> bool
    ensures { result ≡ true → IsBetween kept last a }
{
    let Some(e) = kept else {
        return false;
    };
    match last {
        None => false,
        Some(last) => e.start <= a && a <= last,
    }
}

/// The items of a list whose scope overlaps a span.
fn items_near(
    alloc: Global,
    span: &AddressRange,
    items: &[Result<Desc, DescFault>],
) -> Result<Vec<Result<Desc, DescFault>>, AllocError>
    ensures { IfOk result (λ near. near.items ≡ filter (is_met span.now) items.now) }
{
    let mut near = Vec::new(alloc);
    for item in items {
        if span.is_met(*item) {
            near.push(*item)?;
        }
    }
    Ok(near)
}

/// Whether a span was chosen and contains all of a function.
fn lies_within(span: Option<AddressRange>, function: &AddressRange) -> bool
    ensures { result ≡ true → IsWithin span function.now }
{
    match span {
        None => false,
        Some(span) => span.low <= function.low && function.last <= span.last,
    }
}

/// Up to this number of descriptors, all are looked at each time, and none are chosen.
const FEW: usize = 8;

impl<'s, 'i, 'a> EntryCache<'s, 'i, 'a> {
    /// A cache without an entry. `profile` must be that of the index's image.
    pub fn new(alloc: Global, index: &'s Index<'i, 'a>, profile: Profile) -> EntryCache<'s, 'i, 'a>
        requires { profile ≡ profile_of index.now }
        ensures { result ≡ index.entry.now }
    {
        EntryCache {
            index,
            profile,
            entry: None,
            unwinding: EntrySummary::Refused,
            items: Vec::new(alloc),
            faulty: false,
            span: None,
            near: Vec::new(alloc),
            kept: KeptPlaces::none(alloc, index),
            last: None,
        }
    }

    /// Reads an entry into the cache. If memory runs out, no entry is cached.
    fn read_entry(&mut self, e: Entry) -> Result<(), AllocError>
        ensures { self.new ≡ self.old }
    {
        self.entry = None;
        self.span = None;
        self.last = None;
        put_items(&mut self.items, self.index, &e)?;
        self.faulty = any_fault(&self.items);
        self.unwinding = summary_of_entry(self.index, &e);
        self.entry = Some(e);
        Ok(())
    }

    /// Makes an entry the cached one; reads it only if another is cached.
    fn cache_entry(&mut self, e: Entry) -> Result<(), AllocError>
        ensures { self.new ≡ self.old }
    {
        if is_entry(self.entry, &e) {
            Ok(())
        } else {
            self.read_entry(e)
        }
    }

    /// Caches the entry that covers an address.
    fn cache_at(&mut self, a: u32) -> Result<(), AllocError>
        ensures { self.new ≡ self.old }
    {
        match self.index.find(a) {
            None => Ok(()),
            Some(e) => self.cache_entry(e),
        }
    }

    /// Caches the entry that covers a function's first address; `whole` is the entry that covers all of the function, if there is one.
    fn cache_for(&mut self, whole: Option<Entry>, start: u32) -> Result<(), AllocError>
        ensures { self.new ≡ self.old }
    {
        match whole {
            None => self.cache_at(start),
            Some(e) => self.cache_entry(e),
        }
    }

    /// Chooses the descriptors whose scope overlaps a function, unless the entry has few. They are chosen for a span: the function
    /// widened until it touches the scope of another descriptor. If the function lies in the last span, nothing is done.
    fn choose_near(&mut self, alloc: Global, function: &AddressRange) -> Result<(), AllocError>
        ensures { self.new ≡ self.old }
    {
        if self.items.len() <= FEW || lies_within(self.span, function) {
            return Ok(());
        }
        let span = function.widen(&self.items);
        self.near = items_near(alloc, &span, &self.items)?;
        self.span = Some(span);
        Ok(())
    }

    /// Moves the cache to the function from `start` to below `end`: caches the entry that covers its start, decodes its first places,
    /// and chooses the descriptors near it. Searches the index once if the entry covers all of the function. Err if memory runs out.
    pub fn turn(&mut self, alloc: Global, start: u32, end: u32) -> Result<(), AllocError>
        ensures { self.new ≡ self.old }
    {
        let function = span_of(start, end);
        let whole = whole_entry(self.index, &function);
        self.cache_for(whole, start)?;
        self.kept.turn(self.index, self.profile, start, end)?;
        self.choose_near(alloc, &function)?;
        self.last = last_if_kept(self.index, self.entry, whole, function.last);
        Ok(())
    }
}
