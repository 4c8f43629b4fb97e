//! The initial state of a run (docs/rules/machine.md, "The start").
ghost use Rattle.std.specs.Prelude.{◌≡◌, IfOk, IsSome};
ghost use Rattle.mem_buses.specs.Paged.{memory_of};
ghost use Rattle.eh_cxa.specs.Words.{block_slot};
ghost use Rattle.eh_gates.specs.State.{state_of};
ghost use Rattle.eh_gates.specs.Throwing.{throw_to};
ghost use Rattle.eh_trace.specs.Trace.{no_events};
ghost use Rattle.sim_machines.specs.Checked.{program_of};
ghost use Rattle.sim_machines.specs.Program.{program_tables};
ghost use Rattle.sim_machines.specs.Start.{start_of};
ghost use Rattle.eh_machine.specs.Follows.{StartsAlike, FollowsFlight};

use crate::accepted::{holds, tables};
use crate::event::Shared;
use crate::memory::MachineMemory;
use crate::run::Machine;
use eh_bus::bus::Bus;
use eh_cxa::Globals;
use eh_gates::{Core, Turned};
use eh_phase::Barrier;
use eh_trace::Events;
use frame_check::Accepted;
use mem_buses::paged::PagedBus;
use run_images::{image_memory, start_regs};
use std::alloc::Global;

/// The initial state. Memory has the image's segments, the stack and the pool; sp is the end of the stack, pc the entry. There are no
/// exceptions and no events, and room for all events that are kept is reserved. `OutOfMemory` if there was none.
pub fn start_parts(
    alloc: Global,
    a: &Accepted,
) -> Result<(Core, Shared<PagedBus>, Events), MachineMemory>
    ensures state { IfOk result (λ parts. state_of parts.0 (memory_of parts.1.bus) parts.2 ≡ start_of (program_of a.now)) }
    ensures recorded { IfOk result (λ parts. StartsAlike a.now (state_of parts.0 (memory_of parts.1.bus) parts.2)) }
{
    holds(a);
    let image = a.image();
    let bus = image_memory(alloc, image)?;
    let core = Core {
        regs: start_regs(image.entry()),
        globals: Globals::start(),
    };
    let events = Events::reserve(alloc)?;
    Ok((core, Shared { bus }, events))
}

impl<'a> Machine<'a, PagedBus> {
    /// A run from the initial state, of at most `budget` events. `OutOfMemory` if there was no memory for it.
    pub fn start(alloc: Global, a: &'a Accepted<'a>, budget: u64) -> Result<Self, MachineMemory>
        ensures state { IfOk result (λ m. state_of m.core (memory_of m.shared.bus) m.events ≡ start_of (program_of a.now)) }
        ensures recorded { IfOk result (λ m. StartsAlike a.now (state_of m.core (memory_of m.shared.bus) m.events)) }
        ensures budget { IfOk result (λ m. m.left ≡ budget) }
        ensures program { IfOk result (λ m. m.accepted.now ≡ a.now) }
    {
        let (core, shared, events) = start_parts(alloc, a)?;
        Ok(Machine {
            accepted: a,
            core,
            shared,
            events,
            left: budget,
        })
    }
}

impl<'a, B: Bus + Drop> Machine<'a, B> {
    /// A run from any registers, globals and memory, of at most `budget` events. `OutOfMemory` if there was no memory for the trace.
    pub fn from_parts(
        alloc: Global,
        a: &'a Accepted<'a>,
        core: Core,
        shared: Shared<B>,
        budget: u64,
    ) -> Result<Self, MachineMemory>
        ensures state { IfOk result (λ m. state_of m.core (B.memory m.shared.bus) m.events ≡ state_of core (B.memory shared.bus) no_events) }
        ensures budget { IfOk result (λ m. m.left ≡ budget) }
        ensures program { IfOk result (λ m. m.accepted.now ≡ a.now) }
    {
        let events = Events::reserve(alloc)?;
        Ok(Machine {
            accepted: a,
            core,
            shared,
            events,
            left: budget,
        })
    }
}

/// Takes an exception that has begun to fly to its barrier, as a throw and a rethrow do. `ucb` is the address of its control block; the
/// registers are those of the frame at `site`. See `eh_gates::throw_to`.
pub fn throw_to<B: Bus>(
    a: &Accepted,
    core: &mut Core,
    shared: &mut Shared<B>,
    events: &mut Events,
    site: u32,
    ucb: u32,
    b: &Barrier,
) -> Turned
    requires { IsSome (block_slot ucb) }
    ensures told { (result, state_of core.new (B.memory shared.new.bus) events.new) ≡ throw_to (program_tables (program_of a.now)) (state_of core.old (B.memory shared.old.bus) events.old) site ucb b.now }
    ensures recorded { FollowsFlight a.now (state_of core.old (B.memory shared.old.bus) events.old) site ucb b.now result (state_of core.new (B.memory shared.new.bus) events.new) }
{
    holds(a);
    eh_gates::throw_to(&tables(a), core, &mut shared.bus, events, site, ucb, b)
}
