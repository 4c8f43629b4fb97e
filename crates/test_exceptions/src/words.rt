//! A pool and its words, by slot and number or by address, and what the guest may do with them.
use crate::answers;
use eh_bus::bus::Bus;
use eh_bus::fault::BusFault;
use eh_bus::map::{POOL_END, POOL_START};
use eh_cxa::layout::{COUNT, NEXT_CAUGHT, NEXT_CLEANUP, SLOT_WORDS, SLOTS, STATE};
use eh_cxa::{Globals, pool};
use mem_buses::flat::FlatBus;
use std::alloc::{AllocError, Global};
use test_rows::faults::name_of;
use test_rows::{Text, Unanswered};

/// A memory with a stack and a pool of zeros and no image, and the runtime's words beside the pool.
#[derive(Drop)]
pub struct PoolState {
    /// The memory.
    pub bus: FlatBus,
    /// The heads of both chains of exceptions, and the number of uncaught ones.
    pub globals: Globals,
}

impl PoolState {
    /// A pool in which every slot is free. `AllocError` if there was no memory.
    pub fn empty(alloc: Global) -> Result<PoolState, AllocError> {
        match FlatBus::build(alloc, &[]) {
            Ok(bus) => Ok(PoolState {
                bus,
                globals: Globals::start(),
            }),
            Err(_fault) => Err(AllocError),
        }
    }

    /// Word `k` of a slot; 0 if there is none.
    pub fn word(&self, slot: u32, k: u32) -> u32 {
        if slot < SLOTS && k < SLOT_WORDS {
            pool::get(&self.bus, slot, k)
        } else {
            0
        }
    }

    /// Writes word `k` of a slot, if it exists.
    pub fn put(&mut self, slot: u32, k: u32, value: u32) {
        if slot < SLOTS && k < SLOT_WORDS {
            pool::set(&mut self.bus, slot, k, value);
        }
    }
}

/// The slots of a chain of control blocks, whose links are word `link` of each slot; at most 64 of them.
pub fn chain(
    alloc: Global,
    pool: &PoolState,
    head: u32,
    link: u32,
) -> Result<Vec<u32>, AllocError> {
    let mut slots = Vec::new(alloc);
    let mut at = head;
    for _ in 0..64 {
        if at < 0x3800_0028 || at >= 0x3800_8000 {
            return Ok(slots);
        }
        let slot = (at - 0x3800_0028) / 512;
        slots.push(slot)?;
        at = pool.word(slot, link);
    }
    Ok(slots)
}

/// `word SLOT K`: word K of a slot.
pub fn word(text: &mut Text, pool: &PoolState, given: &[u32]) {
    match given {
        [slot, k] => answers::word(text, pool.word(*slot, *k)),
        _ => text.refuse(Unanswered::NoWord),
    }
}

/// `put SLOT K VALUE`: writes word K of a slot.
pub fn put_word(text: &mut Text, pool: &mut PoolState, given: &[u32]) {
    match given {
        [slot, k, value] => pool.put(*slot, *k, *value),
        _ => text.refuse(Unanswered::NoWord),
    }
}

/// `slot STATE COUNT LINK`: writes the state, the count and both links of the first slot.
pub fn slot(text: &mut Text, pool: &mut PoolState, given: &[u32]) {
    let [state, count, link] = given else {
        return text.refuse(Unanswered::NoWord);
    };
    pool.put(0, STATE, *state);
    pool.put(0, COUNT, *count);
    pool.put(0, NEXT_CAUGHT, *link);
    pool.put(0, NEXT_CLEANUP, *link);
}

/// The word at an address of the pool.
fn at(bus: &FlatBus, a: u32) -> Option<u32> {
    if a % 4 == 0 && a >= POOL_START && a < POOL_END {
        Some(bus.host_load32(a))
    } else {
        None
    }
}

/// Appends the word at an address of the pool, after a separator.
fn say_at(text: &mut Text, pool: &PoolState, between: &str, a: u32) {
    match at(&pool.bus, a) {
        Some(word) => {
            text.say_between(between);
            text.say_hex(word);
        }
        None => text.refuse(Unanswered::NotKnown),
    }
}

/// `at ADDRESSES..`: the words at these addresses.
pub fn all_at(text: &mut Text, pool: &PoolState, given: &[u32]) {
    let mut between = "; ";
    for a in given {
        say_at(text, pool, between, *a);
        between = " ";
    }
}

fn fault(text: &mut Text, fault: BusFault) {
    let (name, a) = name_of(fault);
    answers::say(text, name);
    text.say(" ");
    text.say_hex(a);
}

/// The answer to a load by the guest at an address.
fn load_at(text: &mut Text, pool: &PoolState, a: u32) {
    match pool.bus.load32(a) {
        Ok(word) => answers::word(text, word),
        Err(why) => fault(text, why),
    }
}

/// `load A`: the answer to a load by the guest at A.
pub fn load(text: &mut Text, pool: &PoolState, given: &[u32]) {
    match given {
        [a] => load_at(text, pool, *a),
        _ => text.refuse(Unanswered::NoWord),
    }
}

/// Whether the guest may store a word at an address.
fn store_at(text: &mut Text, pool: &mut PoolState, a: u32, value: u32) {
    match pool.bus.store32(a, value) {
        Ok(()) => answers::say(text, "done"),
        Err(why) => fault(text, why),
    }
}

/// `store A VALUE`: whether the guest may store the value there.
pub fn store(text: &mut Text, pool: &mut PoolState, given: &[u32]) {
    match given {
        [a, value] => store_at(text, pool, *a, *value),
        _ => text.refuse(Unanswered::NoWord),
    }
}

/// `heads CAUGHT CLEANUP`: sets the heads of the caught stack and of the cleanups in progress, with nothing uncaught.
pub fn heads(text: &mut Text, pool: &mut PoolState, given: &[u32]) {
    let [caught, cleanup] = given else {
        return text.refuse(Unanswered::NoWord);
    };
    pool.globals = Globals {
        caught: *caught,
        cleanup: *cleanup,
        uncaught: 0,
    };
}

/// `globals`: the heads of the caught stack and of the cleanups in progress, and the number of uncaught exceptions.
pub fn globals(text: &mut Text, pool: &PoolState) {
    let globals = pool.globals;
    answers::words(text, &[globals.caught, globals.cleanup, globals.uncaught]);
}
