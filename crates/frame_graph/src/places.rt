//! The places of a function and their instructions. docs/rules/acceptance.md, "Places".
ghost use Rattle.std.specs.Prelude.{◌≡◌, ◌+◌, ◌*◌, ◌-◌, ◌<◌, ◌^◌, slice_index};
ghost use Rattle.thumb_isa.specs.declared.instr.Decoded.{Decoded as Row};
ghost use Rattle.frame_code.specs.Standing.{halfword_in, halfword_at, standing_of_decoded, standing_by};
ghost use Rattle.frame_graph.specs.Places.{is_code_of, place_of, is_place, halfword_of, standing_at};

use crate::flow_graph::FlowGraph;
use elf_image::image::Image;
use elf_image::segment::Segment;
use frame_code::standing::{Standing, halfword_at, standing_by};
use thumb_isa::decode::{decode_for, is_wide};
use thumb_isa::instr::{Decoded, Instr};
use thumb_isa::profile::Profile;

/// The halfword of a place, as it is read.
#[derive(Clone, Copy)]
pub(crate) struct PlaceHalfword {
    /// Whether the place is code of the function.
    pub(crate) code: bool,
    /// The halfword; None if the place isn't code.
    pub(crate) halfword: Option<u16>,
}

impl<'s, 'i, 'a> FlowGraph<'s, 'i, 'a> {
    /// Whether an address is code of the function, read from the image.
    fn is_code_in_image(&self, a: u32) -> bool
        ensures { result ≡ is_code_of self.now a }
    {
        self.start <= a && a < self.end && (a == self.start || self.index.image().is_code(a))
    }

    /// Whether an address is code of the function. It is the entry, or an even address between the entry and the end that the mapping
    /// symbols mark as code.
    pub fn is_code(&self, a: u32) -> bool
        ensures { result ≡ is_code_of self.now a }
    {
        if a < self.start {
            return false;
        }
        let after = (a - self.start) as usize;
        if after % 2 == 0 && after / 2 < self.places.len() {
            self.places[after / 2].code
        } else {
            self.is_code_in_image(a)
        }
    }

    /// The place of an address: its distance from the entry in halfwords. None if and only if the address isn't code of the function.
    pub fn place_of(&self, a: u32) -> Option<u32>
        ensures { result ≡ place_of self.now a }
    {
        if self.is_code(a) {
            Some((a - self.start) / 2)
        } else {
            None
        }
    }

    /// Whether a place is code of the function.
    pub fn is_place(&self, place: u32) -> bool
        ensures { result ≡ is_place self.now place }
    {
        let a = u64::from(self.start) + 2 * u64::from(place);
        a < u64::from(self.end) && self.is_code(a as u32)
    }

    /// The address of a place, in bytes.
    pub fn address_of(&self, place: u32) -> u32
        requires { self.now.start + 2 * place < 2 ^ 32 }
        ensures { result ≡ self.now.start + 2 * place }
    {
        self.start + 2 * place
    }

    /// Reads the halfword of a place.
    pub(crate) fn fetch(&self, place: u64) -> PlaceHalfword
        requires { place < 2 ^ 33 }
        ensures code { result.code ≡ is_place self.now place }
        ensures halfword { result.halfword ≡ halfword_of self.now place }
    {
        let a = u64::from(self.start) + 2 * place;
        if a < u64::from(self.end) && self.is_code_in_image(a as u32) {
            PlaceHalfword {
                code: true,
                halfword: halfword_at(self.index.image(), a as u32),
            }
        } else {
            PlaceHalfword {
                code: false,
                halfword: None,
            }
        }
    }

    /// What is at a place: an instruction, UDF, or nothing.
    pub fn standing_at(&self, place: u32) -> Standing
        ensures { result ≡ standing_at self.now place }
    {
        if (place as usize) < self.places.len() {
            return self.places[place as usize].standing;
        }
        self.standing_in_image(place)
    }

    /// As `standing_at`, read from the image. It isn't inlined, so that the cached case stays short.
    #[inline(never)]
    #[tactic(auto, unfolding(crate::specs::Places::standing_at))]
    fn standing_in_image(&self, place: u32) -> Standing
        ensures { result ≡ standing_at self.now place }
    {
        let place = u64::from(place);
        standing_by(
            self.profile(),
            self.fetch(place).halfword,
            self.fetch(place + 1).halfword,
        )
    }
}
