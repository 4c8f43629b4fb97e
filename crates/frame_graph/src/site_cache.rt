//! Ranges of addresses at which an entry has the same descriptors in scope. docs/rules/acceptance.md, "Sites".
ghost use Rattle.std.specs.Prelude.{◌≡◌, ◌↔◌, ◌⊎◌, ◌≤◌, ◌+◌, ◌*◌, ◌<◌, ◌^◌, ℕ, nat_le, true, Some, None, IfOk, OnOk};
ghost use Rattle.std.specs.List.{Contains, filter};
ghost use Rattle.eh_index.specs.Places.{table_of};
ghost use Rattle.eh_desc.specs.Grammar.{items_of};
ghost use Rattle.frame_graph.specs.declared.edges.Edge.{Edge as AnEdge};
ghost use Rattle.frame_graph.specs.FlowGraph.{FlowGraph as Function};
ghost use Rattle.frame_graph.specs.Sites.{entry_at, edges_of};
ghost use Rattle.frame_graph.specs.SiteCaching.{HaveSame, IsIn, IsWithin, is_met, IsCut, AreCut, ActSame, IsStretch, Tells, TellsOn};

use crate::edges::Edge;
use crate::flow_graph::FlowGraph;
use eh_desc::{Desc, DescFault};
use eh_index::Entry;
use frame_entries::scopes::{any_covered, is_entry, read_items};
use std::alloc::{AllocError, Global};

/// The addresses from `low` to `last`; both belong to it.
#[derive(Clone, Copy)]
pub struct AddressRange {
    /// The lowest address.
    pub low: u32,
    /// The highest address.
    pub last: u32,
}

/// The answer for the last site, which holds for all sites that are in `span` and have the same entry.
#[derive(Drop)]
pub struct SiteCache {
    span: AddressRange,
    /// The entry; None where no entry covers the site.
    entry: Option<Entry>,
    scoped: bool,
    out: bool,
    edges: Vec<Edge>,
}

/// All addresses.
pub(crate) const EVERYWHERE: AddressRange = AddressRange {
    low: 0,
    last: u32::MAX,
};

impl AddressRange {
    fn holds(&self, a: u32) -> bool
        ensures { result ≡ true → IsIn self.now a }
    {
        self.low <= a && a <= self.last
    }

    /// The addresses of this range on the same side of `border` as the site.
    fn same_side(self, site: u32, border: u32) -> AddressRange
        requires { IsIn self site }
        ensures holds { IsIn result site }
        ensures within { (a : ℕ) → IsIn result a → IsIn self a }
        ensures side { (a : ℕ) → IsIn result a → nat_le border a ≡ nat_le border site }
    {
        if border <= site {
            AddressRange {
                low: self.low.max(border),
                last: self.last,
            }
        } else {
            AddressRange {
                low: self.low,
                last: self.last.min(border - 1),
            }
        }
    }

    /// The part of this range in which an item covers an address if and only if it covers the site.
    fn cut(self, site: u32, item: Result<Desc, DescFault>) -> AddressRange
        requires { IsIn self site }
        ensures { IsCut self site item result }
    {
        match item {
            Ok(d) => self
                .same_side(site, d.start)
                .same_side(site, d.start.wrapping_add(d.size)),
            Err(_) => self,
        }
    }

    /// As `cut`, for all items.
    fn cut_all(self, site: u32, items: &[Result<Desc, DescFault>]) -> AddressRange
        requires { IsIn self site }
        ensures { AreCut self site items.now result }
    {
        let mut span = self;
        for item in items {
            span = span.cut(site, *item);
        }
        span
    }

    /// The span, cut where it runs into an item's scope that doesn't overlap the function.
    fn without_scope(self, function: &AddressRange, item: Result<Desc, DescFault>) -> AddressRange
        requires { IsWithin (Some self) function.now }
        ensures { IsWithin (Some result) function.now }
    {
        let Ok(d) = item else {
            return self;
        };
        let end = d.start.wrapping_add(d.size);
        if end <= function.low {
            AddressRange {
                low: self.low.max(end),
                last: self.last,
            }
        } else if d.start > function.last {
            AddressRange {
                low: self.low,
                last: self.last.min(d.start - 1),
            }
        } else {
            self
        }
    }

    /// The function's range, widened until it touches the scope of an item that doesn't overlap it.
    pub(crate) fn widen(&self, items: &[Result<Desc, DescFault>]) -> AddressRange
        ensures { IsWithin (Some result) self.now }
    {
        let mut span = EVERYWHERE;
        for item in items {
            span = span.without_scope(self, *item);
        }
        span
    }

    /// Whether an item is a descriptor whose scope overlaps this range.
    pub(crate) fn is_met(&self, item: Result<Desc, DescFault>) -> bool
        ensures { result ≡ is_met self.now item }
    {
        match item {
            Ok(d) => d.start <= self.last && self.low < d.start.wrapping_add(d.size),
            Err(_) => false,
        }
    }
}

/// Adds an edge, unless it is equal to the last one.
fn add_other(edges: &mut Vec<Edge>, edge: Edge) -> Result<(), AllocError>
    ensures { OnOk result ((w : AnEdge) → Contains edges.new.items w ↔ (Contains edges.old.items w ⊎ (w ≡ edge))) }
{
    if let Some(last) = edges.last()
        && *last == edge
    {
        return Ok(());
    }
    edges.push(edge)?;
    Ok(())
}

/// The edges, with runs of equal edges replaced by one.
fn dedup_neighbours(alloc: Global, edges: &[Edge]) -> Result<Vec<Edge>, AllocError>
    ensures { IfOk result (λ thin. HaveSame thin.items edges.now) }
{
    let mut thin = Vec::new(alloc);
    for edge in edges {
        add_other(&mut thin, *edge)?;
    }
    Ok(thin)
}

/// The edges, each once.
fn dedup_edges(alloc: Global, edges: &[Edge]) -> Result<Vec<Edge>, AllocError>
    ensures { IfOk result (λ distinct. HaveSame distinct.items edges.now) }
{
    let mut sorted = dedup_neighbours(alloc, edges)?;
    sorted.sort_unstable();
    Ok(dedup_neighbours(alloc, &sorted)?)
}

/// Removes duplicate edges.
fn dedup_in_place(alloc: Global, edges: &mut Vec<Edge>) -> Result<(), AllocError>
    ensures { OnOk result (HaveSame edges.new.items edges.old.items) }
{
    if edges.len() < 2 {
        return Ok(());
    }
    *edges = dedup_edges(alloc, edges)?;
    Ok(())
}

impl SiteCache {
    /// The answer for sites that no entry covers. Holds no memory yet.
    pub fn new(alloc: Global) -> SiteCache
        ensures stretch { (s : Function) → IsStretch s result }
        ensures tells { (s : Function) (site : ℕ) → entry_at s site ≡ None → Tells s result site }
    {
        SiteCache {
            span: EVERYWHERE,
            entry: None,
            scoped: false,
            out: false,
            edges: Vec::new(alloc),
        }
    }

    /// Makes it the answer for sites that no entry covers; its memory is kept for later.
    pub fn forget(&mut self)
        ensures stretch { (s : Function) → IsStretch s self.new }
        ensures tells { (s : Function) (site : ℕ) → entry_at s site ≡ None → Tells s self.new site }
    {
        self.span = EVERYWHERE;
        self.entry = None;
        self.scoped = false;
        self.out = false;
        self.edges.clear();
    }

    /// Whether it is the answer for a site that the entry `e` covers.
    fn holds(&self, site: u32, e: &Entry) -> bool
        ensures span { result ≡ true → IsIn self.now.span site }
        ensures entry { result ≡ true → self.now.entry ≡ Some e.now }
    {
        self.span.holds(site) && is_entry(self.entry, e)
    }

    /// Whether a descriptor has the site in its scope.
    pub fn is_scoped(&self) -> bool
        ensures { result ≡ self.now.scoped }
    {
        self.scoped
    }

    /// Whether a landing pad of the site isn't code of the function.
    pub fn pads_out(&self) -> bool
        ensures { result ≡ self.now.out }
    {
        self.out
    }

    /// The edges from the site to its landing pads.
    pub fn edges(&self) -> &[Edge]
        ensures { result.now ≡ self.now.edges.items }
    {
        &self.edges
    }
}

impl<'s, 'i, 'a> FlowGraph<'s, 'i, 'a> {
    /// Makes `held` the answer for a site of the entry `e`. In the range `span`, `items` have the same descriptors in scope as the
    /// entry.
    fn answer_by_items(
        &self,
        alloc: Global,
        held: &mut SiteCache,
        site: u32,
        e: &Entry,
        span: AddressRange,
        items: &[Result<Desc, DescFault>],
    ) -> Result<(), AllocError>
        requires span { IsIn span site }
        requires same { (a : ℕ) → IsIn span a → ActSame self.now items.now (items_of e.now (table_of self.now.image e.now)) a }
        ensures stretch { OnOk result (IsStretch self.now held.new) }
        ensures span { OnOk result (IsIn held.new.span site) }
        ensures entry { OnOk result (held.new.entry ≡ Some e.now) }
    {
        held.edges.clear();
        self.add_pads_under(&mut held.edges, site, e, items)?;
        dedup_in_place(alloc, &mut held.edges)?;
        held.span = span.cut_all(site, items);
        held.entry = Some(*e);
        held.scoped = any_covered(site, items);
        held.out = self.any_out(site, items);
        Ok(())
    }

    /// Makes `held` the answer for a site of the entry `e`, which isn't the cached one.
    fn answer_uncached(
        &self,
        alloc: Global,
        held: &mut SiteCache,
        site: u32,
        e: &Entry,
    ) -> Result<(), AllocError>
        ensures stretch { OnOk result (IsStretch self.now held.new) }
        ensures span { OnOk result (IsIn held.new.span site) }
        ensures entry { OnOk result (held.new.entry ≡ Some e.now) }
    {
        let items = read_items(alloc, self.index, e)?;
        self.answer_by_items(alloc, held, site, e, EVERYWHERE, &items)
    }

    /// Makes `held` the answer for a site of the entry `e`.
    fn answer_by_entry(
        &self,
        alloc: Global,
        held: &mut SiteCache,
        site: u32,
        e: &Entry,
    ) -> Result<(), AllocError>
        ensures stretch { OnOk result (IsStretch self.now held.new) }
        ensures span { OnOk result (IsIn held.new.span site) }
        ensures entry { OnOk result (held.new.entry ≡ Some e.now) }
    {
        if !is_entry(self.entry, e) {
            return self.answer_uncached(alloc, held, site, e);
        }
        match self.span {
            None => self.answer_by_items(alloc, held, site, e, EVERYWHERE, self.items),
            Some(span) => {
                if span.holds(site) {
                    self.answer_by_items(alloc, held, site, e, span, self.near)
                } else {
                    self.answer_by_items(alloc, held, site, e, EVERYWHERE, self.items)
                }
            }
        }
    }

    /// Makes `held` the answer for a site, unless it is already.
    fn answer_site(&self, alloc: Global, held: &mut SiteCache, site: u32) -> Result<(), AllocError>
        requires { IsStretch self.now held.old }
        ensures stretch { OnOk result (IsStretch self.now held.new) }
        ensures tells { OnOk result (Tells self.now held.new site) }
    {
        match self.entry_at(site) {
            None => {
                held.forget();
                Ok(())
            }
            Some(e) => {
                if held.holds(site, &e) {
                    return Ok(());
                }
                self.answer_by_entry(alloc, held, site, &e)
            }
        }
    }

    /// Makes `held` the answer for the site of a place. Does nothing if it is already, or the place has no site. So the descriptors are
    /// looked at once for consecutive sites with the same answer. Err if memory runs out.
    pub fn answer_place(
        &self,
        alloc: Global,
        held: &mut SiteCache,
        place: u32,
    ) -> Result<(), AllocError>
        requires place { self.now.start + 2 * place < 2 ^ 32 }
        requires held { IsStretch self.now held.old }
        ensures stretch { OnOk result (IsStretch self.now held.new) }
        ensures tells { OnOk result (TellsOn self.now held.new place) }
    {
        match self.site_at(place) {
            None => Ok(()),
            Some(site) => self.answer_site(alloc, held, site),
        }
    }

    /// Replaces the contents of `edges` by the edges of a place. `stretch` must be the answer for its site. These are the edges of
    /// `edges_of`, but each edge to a landing pad once.
    pub fn put_edges(
        &self,
        edges: &mut Vec<Edge>,
        stretch: &SiteCache,
        place: u32,
    ) -> Result<(), AllocError>
        requires place { self.now.start + 2 * place < 2 ^ 32 }
        requires tells { TellsOn self.now stretch.now place }
        ensures { OnOk result (HaveSame edges.new.items (edges_of self.now place)) }
    {
        let standing = self.standing_at(place);
        self.put_straight_by(edges, place, standing)?;
        match self.site_by(place, standing) {
            None => Ok(()),
            Some(_) => {
                edges.extend_from_slice(stretch.edges())?;
                Ok(())
            }
        }
    }
}
