//! The decoded first places of a function, each read once. docs/rules/acceptance.md, "Places".
ghost use Rattle.std.specs.Prelude.{◌≡◌, ℕ, true, ◌+◌, ◌-◌, ◌*◌, ◌^◌, ◌<◌, ◌/◌, ◌==◌, ◌&&◌, [], length, min, OnOk, if◌then◌else◌};
ghost use Rattle.run_images.specs.Profiles.{profile_of};
ghost use Rattle.frame_graph.specs.declared.kept_places.TheConstants.{MOST_KEPT};
ghost use Rattle.elf_image.specs.Image.{is_code_in};
ghost use Rattle.frame_graph.specs.KeptPlaces.{ArePlaces};
ghost use Rattle.frame_graph.specs.Places.{is_place, halfword_of};

use crate::flow_graph::FlowGraph;
use crate::places::PlaceHalfword;
use eh_index::Index;
use frame_code::standing::{Standing, halfword_at, standing_by};
use std::alloc::{AllocError, Global};
use thumb_isa::profile::Profile;

/// The most places of a function that are cached. Later ones are decoded when asked for. A function without a known end may go on over
/// all code after it, and should cost little more than the code that it reaches.
pub const MOST_KEPT: u32 = 4_096;

/// What is cached of a place.
#[derive(Clone, Copy)]
pub struct KeptPlace {
    /// Whether it is code of the function.
    pub code: bool,
    /// The instruction at the place, if there is one.
    pub standing: Standing,
}

/// The decoded first places of a function; of no place if nothing is cached.
#[derive(Drop)]
pub struct KeptPlaces {
    /// The first address of the function.
    pub(crate) start: u32,
    /// The first address after the function.
    pub(crate) end: u32,
    /// The places from the function's entry on, one a halfword.
    pub(crate) places: Vec<KeptPlace>,
}

impl KeptPlaces {
    /// An empty cache of places.
    pub(crate) fn none(alloc: Global, index: &Index) -> KeptPlaces
        ensures { ArePlaces (record { image = index.now; start = result.start; end = result.end }) result.places.items }
    {
        KeptPlaces {
            start: 0,
            end: 0,
            places: Vec::new(alloc),
        }
    }

    /// Decodes the first places of a function, each once and in order, in place of those cached before. `profile` must be that of the
    /// image.
    pub(crate) fn turn(
        &mut self,
        index: &Index,
        profile: Profile,
        start: u32,
        end: u32,
    ) -> Result<(), AllocError>
        requires { profile ≡ profile_of index.now }
        ensures start { self.new.start ≡ start }
        ensures end { self.new.end ≡ end }
        ensures places { ArePlaces (record { image = index.now; start = self.new.start; end = self.new.end }) self.new.places.items }
        ensures all { OnOk result (length self.new.places.items ≡ min ((end - start + 1) / 2) MOST_KEPT) }
    {
        self.start = start;
        self.end = end;
        FlowGraph::new(index, profile, start, end).put_places(&mut self.places)
    }

    /// The cached places, if they are those of this function; else none.
    pub(crate) fn places_of(&self, index: &Index, start: u32, end: u32) -> &[KeptPlace]
        requires { ArePlaces (record { image = index.now; start = self.now.start; end = self.now.end }) self.now.places.items }
        ensures lent { result.now ≡ (if self.now.start == start && self.now.end == end then self.now.places.items else []) }
        ensures places { ArePlaces (record { image = index.now; start = start; end = end }) result.now }
    {
        if self.start == start && self.end == end {
            &self.places
        } else {
            &[]
        }
    }
}

impl<'s, 'i, 'a> FlowGraph<'s, 'i, 'a> {
    /// Replaces the contents of a list by the decoded first places, each read once and in order.
    #[tactic(auto, using(crate::proofs::KeptPlaces::none_kept, crate::proofs::KeptPlaces::read_more))]
    fn put_places(&self, places: &mut Vec<KeptPlace>) -> Result<(), AllocError>
        ensures places { ArePlaces self.now places.new.items }
        ensures all { OnOk result (length places.new.items ≡ min ((self.now.end - self.now.start + 1) / 2) MOST_KEPT) }
    {
        places.clear();
        let count = self.end.saturating_sub(self.start).div_ceil(2);
        let kept = count.min(MOST_KEPT);
        let profile = self.profile();
        let until = self.index.image().code_end(self.start);
        let mut here = self.fetch_below(until, 0);
        for place in 0..kept {
            let next = self.fetch_below(until, u64::from(place) + 1);
            places.push(KeptPlace {
                code: here.code,
                standing: standing_by(profile, here.halfword, next.halfword),
            })?;
            here = next;
        }
        Ok(())
    }

    /// Reads the halfword of a place. Below the address `until` all places are known to be code, so the image isn't asked.
    #[inline(always)]
    fn fetch_below(&self, until: u32, place: u64) -> PlaceHalfword
        requires place { place < 2 ^ 33 }
        requires until { (k : ℕ) → self.now.start + 2 * k < until → is_code_in self.now.image (self.now.start + 2 * k) ≡ true }
        ensures code { result.code ≡ is_place self.now place }
        ensures halfword { result.halfword ≡ halfword_of self.now place }
    {
        let a = u64::from(self.start) + 2 * place;
        if a < u64::from(until) && a < u64::from(self.end) {
            PlaceHalfword {
                code: true,
                halfword: halfword_at(self.index.image(), a as u32),
            }
        } else {
            self.fetch(place)
        }
    }
}
