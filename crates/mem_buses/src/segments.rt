//! The segments of a bus in a vector, searched in order.
ghost use Rattle.std.specs.Prelude.{◌≡◌, ℕ, ◌+◌, ◌-◌, ◌%◌, ◌^◌, ◌<◌, ◌≤◌, ◌∷◌, [], length, take, map, ◌++◌, slice_index_or, Option, Some, IfSome, IfNone, IfOk, All};
ghost use Rattle.std.specs.List.{position_from};
ghost use Rattle.eh_bus.specs.Segment.{Segment as Bytes, AreBytes, holds};
ghost use Rattle.eh_bus.specs.Memory.{fault_in, store_number};
ghost use Rattle.eh_bus.specs.Built.{CanBuild, initial_memory};
ghost use Rattle.eh_bus.specs.Map.{AreApart, AreSegments};
ghost use Rattle.eh_bus.specs.declared.segment.SegmentSpec.{SegmentSpec as Spec};
ghost use Rattle.eh_bus.specs.Place.{IsPlace};
ghost use Rattle.eh_bus.specs.declared.fault.BusFault.{BusFault};
ghost use Rattle.eh_bus.specs.declared.fault.BusFault.TheVariants.{Unmapped};

use crate::segment::BusSegment;
use eh_bus::map::{POOL_SIZE, POOL_START, STACK_SIZE, STACK_START};
use eh_bus::segment::SegmentSpec;
use std::alloc::{AllocError, Global};
use std::marker::Model;

/// The segments of a bus: the stack, the pool, and those of the image.
#[derive(Drop)]
pub(crate) struct Segments {
    all: Vec<BusSegment>,
}

impl Model for Segments {
    ghost use Rattle.std.specs.Prelude.{List};
    ghost use Rattle.eh_bus.specs.Segment.{Segment as Bytes};

    ghost Value = { List Bytes };

    ghost view = { λ s. s.all.items };
}

impl Segments {
    /// The stack and the pool, both zeros, and the segments of these descriptions.
    pub(crate) fn build(alloc: Global, specs: &[SegmentSpec]) -> Result<Self, AllocError>
        requires { CanBuild specs.now }
        ensures built { IfOk result (λ segments. segments ≡ (initial_memory specs.now).segments) }
        ensures bytes { IfOk result (λ segments. All (λ (spec : Spec). AreBytes spec.bytes.now) specs.now) }
    {
        let mut all = Vec::new(alloc);
        all.push(BusSegment::zeros(alloc, STACK_START, STACK_SIZE)?)?;
        all.push(BusSegment::zeros(alloc, POOL_START, POOL_SIZE)?)?;
        for spec in specs {
            all.push(BusSegment::of(alloc, spec)?)?;
        }
        Ok(Segments { all })
    }

    /// The segment with an index.
    pub(crate) fn get(&self, i: usize) -> &BusSegment
        requires { i < length self.now }
        ensures { result.now ≡ slice_index_or self.now i result.now }
    {
        &self.all[i]
    }

    /// The index of the first segment that contains the `n` bytes from `a` on.
    #[tactic(auto, using(crate::proofs::Places::unmapped))]
    pub(crate) fn segment_holding(&self, a: u32, n: u32) -> Option<usize>
        ensures place { IfSome result (IsPlace n self.now a) }
        ensures unmapped { IfNone result ((f : Bytes → Option BusFault) → fault_in f n self.now a ≡ Some (Unmapped a)) }
    {
        self.position(a, n)
    }

    /// The index of the segment that contains the halfword of code at `a`. The image's segments are searched first.
    #[tactic(auto, using(crate::proofs::Places::by_holding, crate::proofs::Places::unmapped))]
    pub(crate) fn segment_holding_code(&self, a: u32) -> Option<usize>
        requires { AreApart self.now }
        ensures place { IfSome result (IsPlace 2 self.now a) }
        ensures unmapped { IfNone result ((f : Bytes → Option BusFault) → fault_in f 2 self.now a ≡ Some (Unmapped a)) }
    {
        for i in 2..self.all.len() {
            if self.all[i].holds(a, 2) {
                return Some(i);
            }
        }
        self.segment_holding(a, 2)
    }

    /// The index of the first segment that contains the `n` bytes from `a` on, searching all.
    fn position(&self, a: u32, n: u32) -> Option<usize>
        ensures { result ≡ position_from (λ s. holds s a n) 0 self.now }
    {
        for (i, s) in self.all.iter().enumerate() {
            if s.holds(a, n) {
                return Some(i);
            }
        }
        None
    }

    /// Stores a byte in segment `i`.
    #[tactic(auto, using(eh_bus::proofs::Kept::kept))]
    pub(crate) fn write8(&mut self, i: usize, a: u32, v: u8)
        requires { IsPlace 1 self.old a i }
        ensures written { self.new ≡ store_number 1 self.old a v }
        ensures kept { AreSegments self.old → AreSegments self.new }
    {
        let segment = &mut self.all[i];
        segment.store8(a, v);
    }

    /// Stores a halfword in segment `i`.
    #[tactic(auto, using(eh_bus::proofs::Kept::kept))]
    pub(crate) fn write16(&mut self, i: usize, a: u32, v: u16)
        requires { IsPlace 2 self.old a i }
        ensures written { self.new ≡ store_number 2 self.old a v }
        ensures kept { AreSegments self.old → AreSegments self.new }
    {
        let segment = &mut self.all[i];
        segment.store16(a, v);
    }

    /// Stores a word in segment `i`.
    #[tactic(auto, using(eh_bus::proofs::Kept::kept))]
    pub(crate) fn write32(&mut self, i: usize, a: u32, v: u32)
        requires { IsPlace 4 self.old a i }
        ensures written { self.new ≡ store_number 4 self.old a v }
        ensures kept { AreSegments self.old → AreSegments self.new }
    {
        let segment = &mut self.all[i];
        segment.store32(a, v);
    }
}
