//! Calls on the exceptions of threads that share one pool.
use crate::threads::memory::{FlatThreadBus, say_part, say_word};
use eh_cxa::layout::{SLOTS, STATE};
use eh_cxa::{CxaFault, Globals, allocate, begin_catch, free, pool, start_throw};
use test_rows::{Text, Unanswered};
use thread_memory::{Holding, Owners};

fn name_of(fault: CxaFault) -> &'static str {
    match fault {
        CxaFault::PoolFull => "PoolFull",
        CxaFault::TooBig => "TooBig",
        CxaFault::BadObject => "BadObject",
        CxaFault::BadUcb => "BadUcb",
        CxaFault::CaughtOrder => "CaughtOrder",
        CxaFault::NoCaught => "NoCaught",
        CxaFault::NoCleanup => "NoCleanup",
        CxaFault::CleanupElsewhere => "CleanupElsewhere",
    }
}

/// Appends the address that a call gives, or why it is refused.
fn say_given(text: &mut Text, given: Result<u32, CxaFault>) {
    match given {
        Ok(address) => say_word(text, address),
        Err(fault) => say_part(text, name_of(fault)),
    }
}

/// `free OBJECT`: gives back an object; whether it may be.
fn say_freed(text: &mut Text, bus: &mut FlatThreadBus, object: u32) {
    match free(bus, object) {
        Ok(()) => say_part(text, "done"),
        Err(fault) => say_part(text, name_of(fault)),
    }
}

/// Appends what a slot holds: the thread that has it, or nobody, and its state.
fn say_holding(text: &mut Text, holding: Holding) {
    match holding.owner {
        Some(thread) => {
            say_part(text, "");
            text.say_count(thread);
        }
        None => say_part(text, "nobody"),
    }
    text.say(" ");
    text.say_hex(holding.state);
}

/// `state SLOT`: the state word of a slot, as the entered thread reads it. `owner SLOT`: the thread that the slot belongs to, and its
/// state. `make SLOT STATE`: writes the state word of a slot as the runtime does.
fn say_slot(
    text: &mut Text,
    bus: &mut FlatThreadBus,
    owners: &Owners,
    what: &str,
    slot: u32,
    words: &str,
) {
    if slot >= SLOTS {
        return text.refuse(Unanswered::NotKnown);
    }
    match what {
        "state" => say_word(text, pool::get(bus, slot, STATE)),
        "owner" => say_holding(text, owners.slots[slot as usize]),
        _ => {
            let state = text.hex(words);
            pool::set(bus, slot, STATE, state);
        }
    }
}

/// Appends the answer to a call on exceptions. `allocate SIZE`: the object of a new exception; `throw OBJECT`: its control block; `catch
/// BLOCK`: what its handler is given.
pub fn say_exception(
    text: &mut Text,
    bus: &mut FlatThreadBus,
    owners: &Owners,
    globals: &mut Globals,
    what: &str,
    words: &str,
) {
    let (number, words) = text.first_hex(words);
    match what {
        "state" | "owner" | "make" => say_slot(text, bus, owners, what, number, words),
        "allocate" => say_given(text, allocate(bus, number)),
        "free" => say_freed(text, bus, number),
        "throw" => say_given(text, start_throw(bus, globals, number, 0, 0)),
        "catch" => say_given(text, begin_catch(bus, globals, number)),
        _ => text.refuse(Unanswered::NotKnown),
    }
}
