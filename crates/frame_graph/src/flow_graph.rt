//! A function of an image, as a value. docs/rules/acceptance.md, "Places".
ghost use Rattle.std.specs.Prelude.{◌≡◌};
ghost use Rattle.run_images.specs.Profiles.{profile_of};
ghost use Rattle.frame_graph.specs.FlowGraph.{FlowGraph as Parts};

use crate::entry_cache::EntryCache;
use crate::kept_places::KeptPlace;
use crate::site_cache::AddressRange;
use eh_desc::{Desc, DescFault};
use eh_index::{Entry, Index};
use frame_entries::EntrySummary;
use std::marker::Model;
use thumb_isa::profile::Profile;

/// A function of an image whose index was read, given by its first address and the first one after it. It borrows an `EntryCache`, if
/// it has one, and allocates nothing. In contracts, it is the image and the two addresses.
#[derive(Drop)]
pub struct FlowGraph<'s, 'i, 'a> {
    /// The index table of the image.
    pub(crate) index: &'s Index<'i, 'a>,
    /// The instruction set profile of the image.
    pub(crate) profile: Profile,
    /// The first address of the function.
    pub(crate) start: u32,
    /// The first address after the function.
    pub(crate) end: u32,
    /// The cached entry.
    pub(crate) entry: Option<Entry>,
    /// How the cached entry unwinds.
    pub(crate) unwinding: EntrySummary,
    /// All descriptors of the cached entry.
    pub(crate) items: &'s [Result<Desc, DescFault>],
    /// Whether one of these descriptors can't be read.
    pub(crate) faulty: bool,
    /// The addresses for which `near` has all descriptors in scope; None if none were chosen.
    pub(crate) span: Option<AddressRange>,
    /// The descriptors whose scope overlaps `span`.
    pub(crate) near: &'s [Result<Desc, DescFault>],
    /// The decoded first places of this function; empty if the cache has those of another.
    pub(crate) places: &'s [KeptPlace],
    /// The last address of the function, if the cached entry covers it.
    pub(crate) last: Option<u32>,
}

impl<'s, 'i, 'a> Model for FlowGraph<'s, 'i, 'a> {
    ghost use Rattle.std.specs.Prelude.{◌≡◌};
    ghost use Rattle.run_images.specs.Profiles.{profile_of};
    ghost use Rattle.frame_graph.specs.FlowGraph.{FlowGraph as Parts};
    ghost use Rattle.frame_graph.specs.EntryCaching.{IsKept, CoversTo};
    ghost use Rattle.frame_graph.specs.SiteCaching.{AreAtHand};
    ghost use Rattle.frame_graph.specs.KeptPlaces.{ArePlaces};

    ghost Value = { Parts };

    ghost view = { λ s. record { image = s.index.now; start = s.start; end = s.end } };

    ghost invariant = { λ s. IsKept s.index.now s.entry s.unwinding s.items.now s.faulty × AreAtHand s.index.now s.entry s.span s.near.now × ArePlaces (record { image = s.index.now; start = s.start; end = s.end }) s.places.now × CoversTo s.index.now s.entry s.last × (s.profile ≡ profile_of s.index.now) };
}

impl<'s, 'i, 'a> FlowGraph<'s, 'i, 'a> {
    /// The function from `start` to below `end`, without a cache: every question reads the image. `profile` must be that of the image.
    pub fn new(
        index: &'s Index<'i, 'a>,
        profile: Profile,
        start: u32,
        end: u32,
    ) -> FlowGraph<'s, 'i, 'a>
        requires { profile ≡ profile_of index.now }
        ensures { result ≡ record { image = index.entry.now; start = start; end = end } }
    {
        FlowGraph {
            index,
            profile,
            start,
            end,
            entry: None,
            unwinding: EntrySummary::Refused,
            items: &[],
            faulty: false,
            span: None,
            near: &[],
            places: &[],
            last: None,
        }
    }

    /// The function from `start` to below `end`, with a cache. Questions are answered from the cache if it has the entry, and the
    /// places of this function; else they read the image.
    pub fn with_cache(
        cover: &'s EntryCache<'s, 'i, 'a>,
        start: u32,
        end: u32,
    ) -> FlowGraph<'s, 'i, 'a>
        ensures { result ≡ record { image = cover.entry.now; start = start; end = end } }
    {
        FlowGraph {
            index: cover.index,
            profile: cover.profile,
            start,
            end,
            entry: cover.entry,
            unwinding: cover.unwinding,
            items: &cover.items,
            faulty: cover.faulty,
            span: cover.span,
            near: &cover.near,
            places: cover.kept.places_of(cover.index, start, end),
            last: cover.last,
        }
    }

    /// The instruction set profile of its image, by which instructions are decoded.
    pub fn profile(&self) -> Profile
        ensures { result ≡ profile_of self.now.image }
    {
        self.profile
    }

    /// The first address of the function.
    pub fn start(&self) -> u32
        ensures { result ≡ self.now.start }
    {
        self.start
    }

    /// The first address after the function.
    pub fn end(&self) -> u32
        ensures { result ≡ self.now.end }
    {
        self.end
    }
}
