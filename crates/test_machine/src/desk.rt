//! A machine whose state can be changed between runs, with its output. No function here has a contract on runs.
use eh_bus::bus::Bus;
use eh_cxa::layout::{SLOT_WORDS, SLOTS};
use eh_cxa::pool;
use eh_machine::{Core, Machine, Turned, start_parts, turn};
use eh_port::{Bytes, CallNumbers, MemSink, SureSource};
use frame_check::Accepted;
use mem_buses::paged::PagedBus;
use std::alloc::{AllocError, Global};
use test_rows::Unanswered;
use thumb_core::ends::End;

/// A machine, how its last run ended, and its registers and heads before that run.
#[derive(Drop)]
pub struct Desk<'c> {
    /// The machine.
    pub machine: Machine<'c, PagedBus>,
    /// Its output.
    pub out: MemSink,
    /// How its last run ended; `Budget` if it could go on.
    pub end: End,
    /// Its registers and heads before the last run.
    pub before: Core,
}

/// An empty input.
pub fn source(alloc: Global) -> SureSource {
    SureSource {
        left: Bytes::of_vec(Vec::new(alloc)),
    }
}

/// An output that never fails.
pub fn sink(alloc: Global) -> MemSink {
    MemSink {
        written: Bytes::of_vec(Vec::new(alloc)),
        next: 1,
        failing: CallNumbers::of_vec(Vec::new(alloc)),
        faults: 0,
    }
}

/// Does one event of a machine.
fn turn_once(machine: &mut Machine<PagedBus>, input: &mut SureSource, out: &mut MemSink) -> Turned {
    turn(
        machine.accepted,
        &mut machine.core,
        &mut machine.shared,
        &mut machine.events,
        input,
        out,
    )
}

impl<'c> Desk<'c> {
    /// A machine in its present state, with no output.
    pub fn of(alloc: Global, machine: Machine<'c, PagedBus>) -> Desk<'c> {
        let before = machine.core;
        Desk {
            machine,
            out: sink(alloc),
            end: End::Budget,
            before,
        }
    }

    /// A machine at the start of a run.
    pub fn start(alloc: Global, code: &'c Accepted<'c>) -> Result<Desk<'c>, Unanswered> {
        match Machine::start(alloc, code, 0) {
            Ok(machine) => Ok(Desk::of(alloc, machine)),
            Err(_fault) => Err(Unanswered::from(AllocError)),
        }
    }

    /// A machine assembled from the parts of its start.
    pub fn from_parts(alloc: Global, code: &'c Accepted<'c>) -> Result<Desk<'c>, Unanswered> {
        let Ok((core, shared, _events)) = start_parts(alloc, code) else {
            return Err(Unanswered::from(AllocError));
        };
        match Machine::from_parts(alloc, code, core, shared, 0) {
            Ok(machine) => Ok(Desk::of(alloc, machine)),
            Err(_fault) => Err(Unanswered::from(AllocError)),
        }
    }

    /// Runs at most `budget` events.
    pub fn go(&mut self, alloc: Global, budget: u64) {
        let mut input = source(alloc);
        self.before = self.machine.core;
        self.machine.left = budget;
        self.end = self.machine.run(&mut input, &mut self.out);
    }

    /// Does one event.
    pub fn turn(&mut self, alloc: Global) -> Turned {
        let mut input = source(alloc);
        turn_once(&mut self.machine, &mut input, &mut self.out)
    }

    /// A register by its number; pc from 15 on.
    pub fn reg(&self, number: u32) -> u32 {
        let regs = &self.machine.core.regs;
        if number < 15 {
            regs.r[number as usize]
        } else {
            regs.pc
        }
    }

    /// Sets a register; pc from 15 on.
    pub fn set_reg(&mut self, number: u32, value: u32) {
        let regs = &mut self.machine.core.regs;
        if number < 15 {
            regs.r[number as usize] = value;
        } else {
            regs.pc = value;
        }
    }

    /// Word `k` of a slot; 0 if there is none.
    pub fn word(&self, slot: u32, k: u32) -> u32 {
        if slot < SLOTS && k < SLOT_WORDS {
            pool::get(&self.machine.shared.bus, slot, k)
        } else {
            0
        }
    }

    /// Writes word `k` of a slot, if it exists.
    pub fn put(&mut self, slot: u32, k: u32, value: u32) {
        if slot < SLOTS && k < SLOT_WORDS {
            pool::set(&mut self.machine.shared.bus, slot, k, value);
        }
    }

    /// Writes words of the stack, given as pairs of address and word.
    pub fn put_stack(&mut self, words: &[(u32, u32)]) {
        for (at, value) in words {
            let _done = self.machine.shared.bus.store32(*at, *value);
        }
    }

    /// Releases all guarded words.
    pub fn release(&mut self) {
        self.machine.shared.bus.release_below(0x4000_0000);
    }
}
