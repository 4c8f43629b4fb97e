//! A memory that keeps its segments in a list (docs/rules/memory.md).
ghost use Rattle.std.specs.Prelude.{◌≡◌, ℕ, ◌+◌, ◌*◌, ◌%◌, ◌^◌, ◌<◌, ◌≤◌, length, Some, None, IfOk};
ghost use Rattle.eh_bus.specs.Map.{AreSegments, flat_home};
ghost use Rattle.eh_bus.specs.Guards.{AreGuards, AreGuards-prop};
ghost use Rattle.eh_bus.specs.Built.{CanBuild, GivesImage, initial_memory};
ghost use Rattle.eh_bus.specs.Memory.{store, store_run, host_store};

use crate::access::{
    fetch_place, load_place, read_word, run_fault, run_write, store_place, write_word,
};
use crate::segments::Segments;
use eh_bus::bus::Bus;
use eh_bus::fault::{BusFault, BusMemory};
use eh_bus::map::{STACK_END, STACK_START};
use eh_bus::segment::SegmentSpec;
use mem_guards::guards::Guards;
use std::alloc::Global;

/// A memory that keeps its segments in a list: the stack, the pool, and those of the image.
#[derive(Drop)]
pub struct FlatBus {
    segments: Segments,
    guards: Guards,
    ghost mapped: { AreSegments segments },
    ghost rising: { AreGuards guards } by { AreGuards-prop guards },
}

impl FlatBus {
    ghost use Rattle.mem_buses.specs.Flat.{memory_of};

    /// A memory of these segments, the pool and the stack, without guards. All memory is allocated here; Err if it runs
    /// out.
    pub fn build(alloc: Global, segments: &[SegmentSpec]) -> Result<FlatBus, BusMemory>
        requires { CanBuild segments.now }
        ensures memory { IfOk result (λ bus. memory_of bus ≡ initial_memory segments.now) }
        ensures gives { IfOk result (λ bus. GivesImage segments.now (memory_of bus)) }
    {
        let guards = Guards::new(alloc)?;
        let segments = Segments::build(alloc, segments)?;
        Ok(FlatBus { segments, guards })
    }

    /// Stores a byte.
    fn put8(&mut self, a: u32, v: u8) -> Result<(), BusFault>
        ensures { (result, memory_of self.new) ≡ store 1 (memory_of self.old) a v }
    {
        let i = store_place(&self.segments, &self.guards, a, 1)?;
        self.segments.write8(i, a, v);
        Ok(())
    }

    /// Stores a halfword.
    fn put16(&mut self, a: u32, v: u16) -> Result<(), BusFault>
        ensures { (result, memory_of self.new) ≡ store 2 (memory_of self.old) a v }
    {
        let i = store_place(&self.segments, &self.guards, a, 2)?;
        self.segments.write16(i, a, v);
        Ok(())
    }

    /// Stores a word.
    fn put32(&mut self, a: u32, v: u32) -> Result<(), BusFault>
        ensures { (result, memory_of self.new) ≡ store 4 (memory_of self.old) a v }
    {
        let i = store_place(&self.segments, &self.guards, a, 4)?;
        self.segments.write32(i, a, v);
        Ok(())
    }

    /// Stores words at ascending addresses, or none of them.
    fn put_run(&mut self, a: u32, words: &[u32]) -> Result<(), BusFault>
        ensures { (result, memory_of self.new) ≡ store_run (memory_of self.old) a words.now }
    {
        if let Some(fault) = run_fault(&self.segments, &self.guards, a, words) {
            return Err(fault);
        }
        run_write(&mut self.segments, a, words);
        Ok(())
    }

    /// Stores a word of the pool.
    fn put_host(&mut self, a: u32, v: u32)
        ensures { memory_of self.new ≡ host_store (memory_of self.old) a v }
    {
        write_word(&mut self.segments, a, v);
    }
}

impl Bus for FlatBus {
    ghost use Rattle.mem_buses.specs.Flat.{memory_of};

    ghost memory = { memory_of };

    fn load8(&self, a: u32) -> Result<u8, BusFault> {
        Ok(load_place(&self.segments, a, 1)?.load8(a))
    }

    fn load16(&self, a: u32) -> Result<u16, BusFault> {
        Ok(load_place(&self.segments, a, 2)?.load16(a))
    }

    fn load32(&self, a: u32) -> Result<u32, BusFault> {
        Ok(load_place(&self.segments, a, 4)?.load32(a))
    }

    fn store8(&mut self, a: u32, v: u8) -> Result<(), BusFault> {
        self.put8(a, v)
    }

    fn store16(&mut self, a: u32, v: u16) -> Result<(), BusFault> {
        self.put16(a, v)
    }

    fn store32(&mut self, a: u32, v: u32) -> Result<(), BusFault> {
        self.put32(a, v)
    }

    fn store_run(&mut self, a: u32, words: &[u32]) -> Result<(), BusFault> {
        self.put_run(a, words)
    }

    fn fetch16(&self, a: u32) -> Result<u16, BusFault> {
        Ok(fetch_place(&self.segments, a)?.load16(a))
    }

    fn guard(&mut self, a: u32) {
        self.guards.insert(a);
    }

    fn release_below(&mut self, a: u32) {
        self.guards.release_from(STACK_START, a);
    }

    fn host_load32(&self, a: u32) -> u32 {
        read_word(&self.segments, a)
    }

    fn host_store32(&mut self, a: u32, v: u32) {
        self.put_host(a, v);
    }

    fn home(&self) -> (u32, u32) {
        (STACK_START, STACK_END)
    }

    ghost is_map = { λ bus. record { segments = bus.mapped; guards = bus.rising; home = flat_home } };
}
