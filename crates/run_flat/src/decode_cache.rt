//! The decode cache of a run of raw code: the last decoded instruction of each line (docs/rules/memory.md, "Raw code").
ghost use Rattle.std.specs.Prelude.{◌<◌, IfSome};
ghost use Rattle.run_flat.specs.Cached.{IsCache, IsInstrAt, IsOfLine};

use eh_bus::bus::Bus;
use thumb_core::halfwords::{Halfwords, are_unchanged, halfwords_at};
use thumb_isa::instr::Instr;

/// The number of lines of a cache.
pub(crate) const LINES: usize = 1024;

/// A cache line: an instruction, its size in bytes, and the halfwords from which it was decoded.
#[derive(Clone, Copy)]
pub(crate) struct RawCacheLine {
    halfwords: Halfwords,
    /// The instruction.
    pub(crate) instr: Instr,
    /// Its size in bytes.
    pub(crate) size: u32,
}

/// The last decoded instruction of each line. What halfwords mean doesn't depend on memory, so a line is valid as long
/// as its halfwords are still at the address.
#[derive(Drop)]
pub(crate) struct RawDecodeCache {
    lines: [Option<RawCacheLine>; LINES],
}

/// The line of an address.
#[inline(always)]
fn line_of(address: u32) -> usize
    ensures { result < LINES }
{
    (address / 2) as usize % LINES
}

impl RawDecodeCache {
    /// An empty cache.
    pub(crate) fn new() -> RawDecodeCache
        ensures { IsCache result }
    {
        RawDecodeCache {
            lines: [None; LINES],
        }
    }

    /// The line of an address, if it is filled.
    #[inline(always)]
    fn line(&self, address: u32) -> Option<&RawCacheLine>
        requires { IsCache self.now }
        ensures { IfSome result (λ line. IsOfLine line.now) }
    {
        match &self.lines[line_of(address)] {
            Some(line) => Some(line),
            None => None,
        }
    }

    /// The instruction at an address, if its line has it. It is borrowed, so that an event copies only what it needs.
    #[inline(always)]
    pub(crate) fn find<B: Bus>(&self, address: u32, bus: &B) -> Option<&RawCacheLine>
        requires { IsCache self.now }
        ensures { IfSome result (λ line. IsInstrAt (B.memory bus.now) address line.now.instr line.now.size) }
    {
        let Some(line) = self.line(address) else {
            return None;
        };
        if !are_unchanged(&line.halfwords, address, bus) {
            return None;
        }
        Some(line)
    }

    /// Replaces the line of an address.
    fn put(&mut self, address: u32, line: RawCacheLine)
        requires cache { IsCache self.old }
        requires of { IsOfLine line }
        ensures { IsCache self.new }
    {
        self.lines[line_of(address)] = Some(line);
    }

    /// Stores the instruction at an address in its line.
    pub(crate) fn insert<B: Bus>(&mut self, address: u32, instr: Instr, size: u32, bus: &B)
        requires cache { IsCache self.old }
        requires there { IsInstrAt (B.memory bus.now) address instr size }
        ensures { IsCache self.new }
    {
        let Some(halfwords) = halfwords_at(address, bus) else {
            return;
        };
        self.put(
            address,
            RawCacheLine {
                halfwords,
                instr,
                size,
            },
        );
    }
}
