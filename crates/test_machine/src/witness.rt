//! A run from its start to a state that stands for one with recorded activations (docs/inside/simulation.md).
ghost use Rattle.std.specs.Prelude.{◌≡◌, [], IfOk};
ghost use Rattle.mem_buses.specs.Paged.{memory_of};
ghost use Rattle.eh_gates.specs.State.{state_of};
ghost use Rattle.test_machine.specs.Stood.{StandsAfter};

use crate::answers;
use crate::desk::Desk;
use eh_bus::bus::Bus;
use eh_bus::fault::BusFault;
use eh_bus::map::STACK_END;
use eh_machine::{Machine, MachineMemory};
use eh_port::{Bytes, SureSink, SureSource};
use frame_check::Accepted;
use mem_buses::paged::PagedBus;
use std::alloc::{AllocError, Global};
use test_rows::Unanswered;

/// An input without bytes.
fn nothing(alloc: Global) -> SureSource
    ensures { result.left ≡ [] }
{
    SureSource {
        left: Bytes::of_vec(Vec::new(alloc)),
    }
}

/// A run of at most so many events from the start, without input. Its state then stands for the state of the same run with recorded
/// activations.
fn machine_after<'c>(
    alloc: Global,
    code: &'c Accepted<'c>,
    events: u64,
) -> Result<Machine<'c, PagedBus>, MachineMemory>
    ensures { IfOk result (λ m. StandsAfter code.now events (state_of m.core (memory_of m.shared.bus) m.events)) }
{
    let mut machine = Machine::start(alloc, code, events)?;
    let mut input = nothing(alloc);
    let mut out = SureSink { taken: 0 };
    let _end = machine.run(&mut input, &mut out);
    Ok(machine)
}

/// `stands EVENTS`: takes a machine that has run so many events from its start, and stands for a state with recorded activations.
pub fn stands(alloc: Global, desk: &mut Desk, given: &[u32]) -> Result<String, Unanswered> {
    let [events] = given else {
        return Err(Unanswered::NoWord);
    };
    match machine_after(alloc, desk.machine.accepted, u64::from(*events)) {
        Ok(machine) => {
            *desk = Desk::of(alloc, machine);
            Ok(answers::nothing(alloc))
        }
        Err(_fault) => Err(Unanswered::from(AllocError)),
    }
}

/// `saved`: the guarded words of the stack from sp up, the lowest first.
pub fn saved_words(alloc: Global, desk: &mut Desk) -> Result<String, Unanswered> {
    let mut words = Vec::new(alloc);
    let sp = desk.reg(13);
    let bus = &mut desk.machine.shared.bus;
    for k in 0..STACK_END.saturating_sub(sp) / 4 {
        let at = sp.wrapping_add(k.wrapping_mul(4));
        let Ok(word) = bus.load32(at) else {
            continue;
        };
        if bus.store32(at, word) == Err(BusFault::SavedSlot(at)) {
            words.push(at)?;
        }
    }
    Ok(answers::words(alloc, words.as_slice())?)
}
