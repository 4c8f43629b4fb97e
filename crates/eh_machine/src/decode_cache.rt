//! The decode cache of a run. It keeps the instruction fetched at an address and what the checker says there, so neither is looked up again
//! (docs/rules/machine.md, "An event").
ghost use Rattle.std.specs.Prelude.{◌≡◌, ◌<◌, ◌≤◌, true, false, IfSome};
ghost use Rattle.eh_bus.specs.Memory.{Memory};
ghost use Rattle.sim_machines.specs.Checked.{program_of};
ghost use Rattle.sim_machines.specs.Program.{Program};
ghost use Rattle.eh_machine.specs.Cached.{IsCache, IsLine, IsConfirmed, IsCounting, IsOfRound, StandFast};
ghost use Rattle.eh_machine.specs.Passes.{IsFetched};
ghost use Rattle.eh_machine.specs.declared.decode_cache.TheConstants.{NO_ROUND};

use crate::pass::CheckedInstr;
use crate::read_only::are_read_only;
use eh_bus::bus::Bus;
use frame_check::Accepted;
use thumb_core::halfwords::{Halfwords, are_unchanged, halfwords_at};
use thumb_isa::instr::Instr;

/// The number of lines of a cache.
pub(crate) const LINES: usize = 4096;

/// One line: the instruction at an address, with the halfwords that it was decoded from.
#[derive(Clone, Copy)]
pub(crate) struct CacheLine {
    address: u32,
    halfwords: Halfwords,
    fetched: CheckedInstr,
    /// The round in which its halfwords were found to be unchangeable; 0 if they were not.
    confirmed: u32,
    /// Whether an instruction was kept here. A line without one is never confirmed, so an event needn't ask.
    is_kept: bool,
    /// Whether a function begins at the address.
    begins: bool,
}

/// The instruction fetched last for each line. What a line says of the program holds whatever the memory holds, but a line is used only
/// while its halfwords still stand at its address. Either they are compared with memory, or the line was confirmed in this round. A
/// confirmed line's halfwords stand where nothing may be written, so no event since has changed them.
#[derive(Drop)]
pub(crate) struct DecodeCache {
    lines: [CacheLine; LINES],
    /// The number of the current round, counted from 1.
    round: u32,
}

/// The number of the first round.
const FIRST_ROUND: u32 = 1;

/// The round of a line that isn't confirmed.
const NO_ROUND: u32 = 0;

/// The index of the line for an address.
#[inline(always)]
fn line_of(address: u32) -> usize
    ensures { result < LINES }
{
    (address / 2) as usize % LINES
}

/// A line that keeps nothing.
fn empty_line() -> CacheLine
    ensures kept { result.is_kept ≡ false }
    ensures confirmed { result.confirmed ≡ NO_ROUND }
{
    CacheLine {
        address: 0,
        halfwords: Halfwords {
            first: 0,
            second: 0,
        },
        fetched: CheckedInstr {
            instr: Instr::Hint { n: 0 },
            size: 2,
            lowers: false,
            meets_function: false,
            saves: 0,
        },
        confirmed: NO_ROUND,
        is_kept: false,
        begins: false,
    }
}

impl DecodeCache {
    /// An empty cache.
    pub(crate) fn new() -> DecodeCache
        ensures cache { (p : Program) → IsCache p result }
        ensures confirmed { (m : Memory) → IsConfirmed m result }
        ensures counting { IsCounting result }
    {
        DecodeCache {
            lines: [empty_line(); LINES],
            round: FIRST_ROUND,
        }
    }

    /// The line for an address, if it keeps that address and no other.
    #[inline(always)]
    fn line(&self, address: u32) -> Option<&CacheLine>
        ensures address { IfSome result (λ line. line.now.address ≡ address) }
        ensures cache { (p : Program) → IsCache p self.now → IfSome result (λ line. IsLine p line.now) }
        ensures confirmed { (m : Memory) → IsConfirmed m self.now → IfSome result (λ line. IsOfRound self.now.round m line.now) }
    {
        let line = &self.lines[line_of(address)];
        if line.address != address {
            return None;
        }
        Some(line)
    }

    /// The instruction kept for an address, if the memory still has its halfwords there. It is lent, so an event reads only what it needs.
    #[inline(always)]
    pub(crate) fn find<B: Bus>(&self, address: u32, bus: &B) -> Option<&CheckedInstr>
        ensures { (p : Program) → IsCache p self.now → IfSome result (λ at. IsFetched p address (B.memory bus.now) at.now) }
    {
        let Some(line) = self.line(address) else {
            return None;
        };
        if !line.is_kept {
            return None;
        }
        if !are_unchanged(&line.halfwords, address, bus) {
            return None;
        }
        Some(&line.fetched)
    }

    /// The instruction kept for an address, if its line was confirmed in this round. Memory isn't read.
    #[inline(always)]
    pub(crate) fn find_confirmed(&self, address: u32) -> Option<&CheckedInstr>
        ensures { (p : Program) (m : Memory) → IsCache p self.now → IsConfirmed m self.now → IfSome result (λ at. IsFetched p address m at.now) }
    {
        let Some(line) = self.line(address) else {
            return None;
        };
        if line.confirmed != self.round {
            return None;
        }
        Some(&line.fetched)
    }

    /// Whether a function begins at an address. The checker is asked only if the cache has no line for the address.
    #[inline(always)]
    pub(crate) fn begins_at(&self, a: &Accepted, address: u32) -> bool
        ensures { IsCache (program_of a.now) self.now → result ≡ ((program_of a.now).look address).is_function }
    {
        match self.line(address) {
            Some(line) if line.is_kept => line.begins,
            _ => a.is_function(address),
        }
    }

    /// Stores a line at its index, in place of the one there.
    fn put(&mut self, line: CacheLine)
        ensures cache { (p : Program) → IsCache p self.old → IsLine p line → IsCache p self.new }
        ensures confirmed { (m : Memory) → IsConfirmed m self.old → IsOfRound self.old.round m line → IsConfirmed m self.new }
    {
        self.lines[line_of(line.address)] = line;
    }

    /// The current round for halfwords that nothing can change; no round for others.
    fn round_of(&self, is_fast: bool) -> u32
        ensures within { 0 < self.now.round → result ≤ self.now.round }
        ensures fast { 0 < self.now.round → result ≡ self.now.round → is_fast ≡ true }
    {
        if is_fast { self.round } else { NO_ROUND }
    }

    /// Keeps the instruction fetched at an address, and whether a function begins there. The line is confirmed if nothing can change its
    /// halfwords.
    pub(crate) fn keep<B: Bus>(
        &mut self,
        address: u32,
        fetched: CheckedInstr,
        begins: bool,
        bus: &mut B,
    )
        ensures same { B.memory bus.new ≡ B.memory bus.old }
        ensures cache { (p : Program) → IsCache p self.old → IsFetched p address (B.memory bus.old) fetched → begins ≡ (p.look address).is_function → IsCache p self.new }
        ensures confirmed { IsConfirmed (B.memory bus.old) self.old → IsConfirmed (B.memory bus.old) self.new }
    {
        let Some(halfwords) = halfwords_at(address, bus) else {
            return;
        };
        let is_fast = are_read_only(&halfwords, address, bus);
        let confirmed = self.round_of(is_fast);
        self.put(CacheLine {
            address,
            halfwords,
            fetched,
            confirmed,
            is_kept: true,
            begins,
        });
    }

    /// Begins a new round, in which no line is confirmed yet.
    pub(crate) fn doubt(&mut self)
        ensures cache { (p : Program) → IsCache p self.old → IsCache p self.new }
        ensures confirmed { (n : Memory) → IsCounting self.old → IsConfirmed n self.new }
        ensures counting { IsCounting self.old → IsCounting self.new }
    {
        match self.round.checked_add(1) {
            Some(round) => self.round = round,
            None => *self = DecodeCache::new(),
        }
    }
}
