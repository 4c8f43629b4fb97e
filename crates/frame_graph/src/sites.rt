//! Sites, and what the unwind entries tell of each: how it unwinds, and its landing pads. docs/rules/acceptance.md, "Sites".
ghost use Rattle.std.specs.Prelude.{◌≡◌, ◌+◌, ◌*◌, ◌<◌, ◌^◌, ◌++◌, ◌||◌, ◌∷◌, List, Some, false, IfOk, IfSome, OnOk, option_and_then};
ghost use Rattle.std.specs.List.{list_any};
ghost use Rattle.eh_index.specs.Places.{table_of};
ghost use Rattle.eh_desc.specs.Grammar.{items_of};
ghost use Rattle.frame_graph.specs.Places.{place_of, standing_at};
ghost use Rattle.frame_graph.specs.Edges.{edges_to};
ghost use Rattle.frame_entries.specs.Unwinding.{landing_changes, summary_of_body};
ghost use Rattle.frame_entries.specs.Scopes.{Item, is_one, is_fault, is_scope_at, pad_of, is_cleanup, is_cleanup_at, pad_for};
ghost use Rattle.frame_graph.specs.Sites.{site_of, site_at, entry_at, unwinding_at, items_at, is_scoped, has_fault, pad_edges, edges_from, edges_of, lands_out, pads_out, is_split};

use crate::edges::{Edge, add_edge};
use crate::entry_cache::is_between;
use crate::flow_graph::FlowGraph;
use eh_desc::{Desc, DescFault, DescKind, Descs};
use eh_index::Entry;
use frame_code::Standing;
use frame_entries::scopes::{
    any_covered, is_cleanup_at, is_entry, pad_for, some_covered, some_fault,
};
use frame_entries::unwinding::{EntrySummary, summary_of_entry};
use std::alloc::{AllocError, Global};
use thumb_isa::instr::Instr;

/// The site of an instruction at an address: that address, or for a BL the address of its second halfword. None if it is neither a call
/// nor a gate.
fn site_of(a: u32, i: Instr) -> Option<u32>
    ensures { result ≡ site_of a i }
{
    if let Instr::Bl { .. } = i {
        return Some(a.wrapping_add(2));
    }
    if let Instr::Blx { .. } = i {
        return Some(a);
    }
    if let Instr::Svc { .. } = i {
        return Some(a);
    }
    None
}

impl<'s, 'i, 'a> FlowGraph<'s, 'i, 'a> {
    /// The site of a place, an address in bytes; `standing` is what is at the place. None if and only if it is neither a call nor a
    /// gate.
    pub fn site_by(&self, place: u32, standing: Standing) -> Option<u32>
        requires place { self.now.start + 2 * place < 2 ^ 32 }
        requires standing { standing ≡ standing_at self.now place }
        ensures { result ≡ site_at self.now place }
    {
        let Standing::Instruction(i, _) = standing else {
            return None;
        };
        site_of(self.address_of(place), i)
    }

    /// The site of a place, an address in bytes. None if and only if the place has neither a call nor a gate.
    pub fn site_at(&self, place: u32) -> Option<u32>
        requires { self.now.start + 2 * place < 2 ^ 32 }
        ensures { result ≡ site_at self.now place }
    {
        self.site_by(place, self.standing_at(place))
    }

    /// The entry that covers an address; None if there is none. If it is the cached entry, the index isn't searched.
    pub(crate) fn entry_at(&self, a: u32) -> Option<Entry>
        ensures { result ≡ entry_at self.now a }
    {
        if is_between(self.entry, self.last, a) {
            self.entry
        } else {
            self.index.find(a)
        }
    }

    /// How the cached entry unwinds, if it covers the address; else None.
    #[tactic(auto, using(crate::proofs::Kept::kept_unwinding), unfolding(crate::specs::Sites::unwinding_at))]
    pub fn kept_unwinding_at(&self, a: u32) -> Option<&EntrySummary>
        ensures { IfSome result (λ u. u.now ≡ unwinding_at self.now a) }
    {
        let e = self.entry_at(a)?;
        if is_entry(self.entry, &e) {
            Some(&self.unwinding)
        } else {
            None
        }
    }

    /// How an entry unwinds.
    #[tactic(auto, using(crate::proofs::Kept::kept_unwinding))]
    fn unwinding_by(&self, e: &Entry) -> EntrySummary
        ensures { result ≡ summary_of_body e.now.body (table_of self.now.image e.now) }
    {
        if is_entry(self.entry, e) {
            self.unwinding
        } else {
            summary_of_entry(self.index, e)
        }
    }

    /// How the entry that covers an address unwinds.
    #[tactic(auto, unfolding(crate::specs::Sites::unwinding_at))]
    pub fn unwinding_at(&self, a: u32) -> EntrySummary
        ensures { result ≡ unwinding_at self.now a }
    {
        match self.entry_at(a) {
            None => EntrySummary::Refused,
            Some(e) => self.unwinding_by(&e),
        }
    }

    /// Whether a descriptor of an entry has the site in its scope.
    #[tactic(auto, using(crate::proofs::Kept::kept_items))]
    fn is_scoped_by(&self, site: u32, e: &Entry) -> bool
        ensures { result ≡ list_any (is_one (is_scope_at site)) (items_of e.now (table_of self.now.image e.now)) }
    {
        if is_entry(self.entry, e) {
            any_covered(site, self.items)
        } else {
            some_covered(site, Descs::of(self.index, e))
        }
    }

    /// Whether a descriptor of the entry that covers a site has the site in its scope.
    #[tactic(auto, unfolding(crate::specs::Sites::items_at))]
    pub fn is_scoped(&self, site: u32) -> bool
        ensures { result ≡ is_scoped self.now site }
    {
        match self.entry_at(site) {
            None => false,
            Some(e) => self.is_scoped_by(site, &e),
        }
    }

    /// Whether a descriptor of an entry can't be read.
    #[tactic(auto, using(crate::proofs::Kept::kept_fault))]
    fn has_fault_by(&self, e: &Entry) -> bool
        ensures { result ≡ list_any is_fault (items_of e.now (table_of self.now.image e.now)) }
    {
        if is_entry(self.entry, e) {
            self.faulty
        } else {
            some_fault(Descs::of(self.index, e))
        }
    }

    /// Whether a descriptor of the entry that covers an address can't be read.
    #[tactic(auto, unfolding(crate::specs::Sites::items_at))]
    pub fn has_fault(&self, a: u32) -> bool
        ensures { result ≡ has_fault self.now a }
    {
        match self.entry_at(a) {
            None => false,
            Some(e) => self.has_fault_by(&e),
        }
    }

    /// Whether a descriptor has the site in its scope and a landing pad that isn't code of the function.
    fn lands_out(&self, site: u32, d: &Desc) -> bool
        ensures { result ≡ lands_out self.now site d.now }
    {
        match pad_for(site, d) {
            None => false,
            Some(pad) => !self.is_code(pad),
        }
    }

    /// As `lands_out`, for an item; false for a descriptor that can't be read.
    fn item_lands_out(&self, site: u32, item: Result<Desc, DescFault>) -> bool
        ensures { result ≡ is_one (lands_out self.now site) item }
    {
        match item {
            Ok(d) => self.lands_out(site, &d),
            Err(_) => false,
        }
    }

    #[tactic(auto, using(frame_entries::proofs::Items::any_past, frame_entries::proofs::Items::any_here, frame_entries::proofs::Items::any_none))]
    fn some_out(&self, site: u32, descs: Descs) -> bool
        ensures { result ≡ list_any (is_one (lands_out self.now site)) descs.entry }
    {
        for item in descs {
            if self.item_lands_out(site, item) {
                return true;
            }
        }
        false
    }

    /// As `lands_out`, for any item of a list.
    pub(crate) fn any_out(&self, site: u32, items: &[Result<Desc, DescFault>]) -> bool
        ensures { result ≡ list_any (is_one (lands_out self.now site)) items.now }
    {
        items.iter().any(|item| self.item_lands_out(site, *item))
    }

    #[tactic(auto, using(crate::proofs::Kept::kept_items))]
    fn pads_out_by(&self, site: u32, e: &Entry) -> bool
        ensures { result ≡ list_any (is_one (lands_out self.now site)) (items_of e.now (table_of self.now.image e.now)) }
    {
        if is_entry(self.entry, e) {
            self.any_out(site, self.items)
        } else {
            self.some_out(site, Descs::of(self.index, e))
        }
    }

    /// Whether a landing pad of a site isn't code of the function.
    #[tactic(auto, unfolding(crate::specs::Sites::items_at))]
    pub fn pads_out(&self, site: u32) -> bool
        ensures { result ≡ pads_out self.now site }
    {
        match self.entry_at(site) {
            None => false,
            Some(e) => self.pads_out_by(site, &e),
        }
    }

    /// Whether the entry that covers a site begins after the function's start.
    pub fn is_split(&self, site: u32) -> bool
        ensures { result ≡ is_split self.now site }
    {
        match self.entry_at(site) {
            None => false,
            Some(e) => self.start < e.start,
        }
    }

    fn place_for(&self, site: u32, d: &Desc) -> Option<u32>
        ensures { result ≡ option_and_then (place_of self.now) (pad_for site d.now) }
    {
        let pad = pad_for(site, d)?;
        self.place_of(pad)
    }

    /// Adds the edge to the landing pad of a descriptor, if it has one and the site is in its scope.
    fn add_pad_of(
        &self,
        edges: &mut Vec<Edge>,
        site: u32,
        unwinding: &EntrySummary,
        resumed: bool,
        d: &Desc,
    ) -> Result<(), AllocError>
        ensures { OnOk result (edges.new.items ≡ edges.old.items ++ edges_to (landing_changes unwinding.now resumed) (option_and_then (place_of self.now) (pad_for site d.now))) }
    {
        match self.place_for(site, d) {
            None => Ok(()),
            Some(to) => add_edge(edges, unwinding.landing_changes(resumed), Some(to)),
        }
    }

    /// Adds the edge to the landing pad of an item. Returns whether this item, or one before it, is a cleanup in scope.
    fn add_pad(
        &self,
        edges: &mut Vec<Edge>,
        site: u32,
        unwinding: &EntrySummary,
        resumed: bool,
        item: Result<Desc, DescFault>,
    ) -> Result<bool, AllocError>
        ensures { IfOk result (λ next. (more : List Item) → edges.new.items ++ pad_edges self.now site unwinding.now next more ≡ edges.old.items ++ pad_edges self.now site unwinding.now resumed (item ∷ more)) }
    {
        match item {
            Ok(d) => {
                self.add_pad_of(edges, site, unwinding, resumed, &d)?;
                Ok(resumed || is_cleanup_at(site, &d))
            }
            Err(_) => Ok(resumed),
        }
    }

    /// Adds the edges from a site to the landing pads of descriptors.
    fn add_pads(
        &self,
        edges: &mut Vec<Edge>,
        site: u32,
        unwinding: &EntrySummary,
        descs: Descs,
    ) -> Result<(), AllocError>
        ensures { OnOk result (edges.new.items ≡ edges.old.items ++ pad_edges self.now site unwinding.now false descs.entry) }
    {
        let mut resumed = false;
        for item in descs {
            resumed = self.add_pad(edges, site, unwinding, resumed, item)?;
        }
        Ok(())
    }

    /// As `add_pads`, for a list of items.
    fn add_listed_pads(
        &self,
        edges: &mut Vec<Edge>,
        site: u32,
        unwinding: &EntrySummary,
        items: &[Result<Desc, DescFault>],
    ) -> Result<(), AllocError>
        ensures { OnOk result (edges.new.items ≡ edges.old.items ++ pad_edges self.now site unwinding.now false items.now) }
    {
        let mut resumed = false;
        for item in items {
            resumed = self.add_pad(edges, site, unwinding, resumed, *item)?;
        }
        Ok(())
    }

    /// As `add_listed_pads`, for the descriptors `items` of the entry `e`.
    #[tactic(auto, using(crate::proofs::Kept::kept_unwinding))]
    pub(crate) fn add_pads_under(
        &self,
        edges: &mut Vec<Edge>,
        site: u32,
        e: &Entry,
        items: &[Result<Desc, DescFault>],
    ) -> Result<(), AllocError>
        ensures { OnOk result (edges.new.items ≡ edges.old.items ++ pad_edges self.now site (summary_of_body e.now.body (table_of self.now.image e.now)) false items.now) }
    {
        if is_entry(self.entry, e) {
            self.add_listed_pads(edges, site, &self.unwinding, items)
        } else {
            self.add_listed_pads(edges, site, &summary_of_entry(self.index, e), items)
        }
    }

    /// As `add_pads`, for all descriptors of an entry.
    #[tactic(auto, using(crate::proofs::Kept::kept_items))]
    fn add_pads_by(
        &self,
        edges: &mut Vec<Edge>,
        site: u32,
        unwinding: &EntrySummary,
        e: &Entry,
    ) -> Result<(), AllocError>
        ensures { OnOk result (edges.new.items ≡ edges.old.items ++ pad_edges self.now site unwinding.now false (items_of e.now (table_of self.now.image e.now))) }
    {
        if is_entry(self.entry, e) {
            self.add_listed_pads(edges, site, unwinding, self.items)
        } else {
            self.add_pads(edges, site, unwinding, Descs::of(self.index, e))
        }
    }

    /// Adds the edges from a site to its landing pads.
    #[tactic(auto, unfolding(crate::specs::Sites::items_at))]
    fn add_landings(&self, edges: &mut Vec<Edge>, site: u32) -> Result<(), AllocError>
        ensures { OnOk result (edges.new.items ≡ edges.old.items ++ edges_from self.now (Some site)) }
    {
        let unwinding = self.unwinding_at(site);
        match self.entry_at(site) {
            None => Ok(()),
            Some(e) => self.add_pads_by(edges, site, &unwinding, &e),
        }
    }

    /// The edges from the site of a place to its landing pads; none if the place has no site. Err if memory runs out.
    pub fn landings(&self, alloc: Global, place: u32) -> Result<Vec<Edge>, AllocError>
        requires { self.now.start + 2 * place < 2 ^ 32 }
        ensures { IfOk result (λ edges. edges.items ≡ edges_from self.now (site_at self.now place)) }
    {
        let mut edges = Vec::new(alloc);
        if let Some(site) = self.site_at(place) {
            self.add_landings(&mut edges, site)?;
        }
        Ok(edges)
    }

    /// The edges of a place: to the next instruction, to the target of a branch, and from a site to the landing pads of the descriptors
    /// in scope. Err if memory runs out.
    #[tactic(auto, unfolding(crate::specs::Sites::edges_of))]
    pub fn edges_of(&self, alloc: Global, place: u32) -> Result<Vec<Edge>, AllocError>
        requires { self.now.start + 2 * place < 2 ^ 32 }
        ensures { IfOk result (λ edges. edges.items ≡ edges_of self.now place) }
    {
        let mut edges = self.straight_edges(alloc, place)?;
        if let Some(site) = self.site_at(place) {
            self.add_landings(&mut edges, site)?;
        }
        Ok(edges)
    }
}
