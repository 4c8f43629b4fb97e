//! Calls over one memory that threads share, separated by `; `, each with its answer.
use crate::threads::exceptions::say_exception;
use eh_bus::bus::Bus;
use eh_bus::fault::BusFault;
use eh_bus::map::{STACK_END, STACK_START};
use eh_cxa::Globals;
use mem_buses::flat::FlatBus;
use std::alloc::Global;
use test_rows::faults::name_of;
use test_rows::{Pieces, Telling, Text, Unanswered, first_word};
use thread_memory::{Owners, THREADS, ThreadBus, home_of};

/// Calls over a memory without image segments, guarded words and exceptions.
pub struct InMemory;

/// The memory of the threads.
pub type FlatThreadBus = ThreadBus<FlatBus>;

/// The memory, what each slot holds, and the runtime's words of exceptions beside the pool.
#[derive(Drop)]
struct Shared {
    bus: FlatThreadBus,
    owners: Owners,
    globals: Globals,
}

/// Thread 0 is entered, and nothing is guarded; None if there was no memory.
fn start(alloc: Global) -> Option<Shared> {
    let inner = FlatBus::build(alloc, &[]).ok()?;
    let owners = Owners::unowned(&inner);
    let bus = ThreadBus::over(alloc, inner).ok()?;
    Some(Shared {
        bus,
        owners,
        globals: Globals::start(),
    })
}

/// Appends the answer of a call, after those of the calls before it.
pub fn say_part(text: &mut Text, part: &str) {
    text.say_between("; ");
    text.say(part);
}

/// Appends a word that a call gives.
pub fn say_word(text: &mut Text, word: u32) {
    say_part(text, "");
    text.say_hex(word);
}

fn say_fault(text: &mut Text, fault: BusFault) {
    let (name, a) = name_of(fault);
    say_part(text, name);
    text.say(" ");
    text.say_hex(a);
}

/// Appends whether a store is done.
fn say_stored(text: &mut Text, done: Result<(), BusFault>) {
    match done {
        Ok(()) => say_part(text, "done"),
        Err(fault) => say_fault(text, fault),
    }
}

/// `enter THREAD`: switches to another thread.
fn enter(text: &mut Text, bus: &mut FlatThreadBus, owners: &mut Owners, words: &str) {
    let thread = text.hex(words) as usize;
    if thread < THREADS {
        let ran = bus.thread();
        bus.enter(owners, ran, thread);
    } else {
        text.refuse(Unanswered::NotKnown);
    }
}

fn say_home(text: &mut Text, home: (u32, u32)) {
    let (low, high) = home;
    say_word(text, low);
    text.say(" ");
    text.say_hex(high);
}

/// `home-of THREAD`: the home of a thread.
fn say_home_of(text: &mut Text, words: &str) {
    let thread = text.hex(words) as usize;
    if thread < THREADS {
        say_home(text, home_of(thread));
    } else {
        text.refuse(Unanswered::NotKnown);
    }
}

/// Guards a word of the stack.
fn guard(text: &mut Text, bus: &mut FlatThreadBus, a: u32) {
    if a % 4 == 0 && STACK_START <= a && a < STACK_END {
        bus.guard(a);
    } else {
        text.refuse(Unanswered::NotKnown);
    }
}

/// `guard A..`: guards these words of the stack.
fn guard_all(text: &mut Text, bus: &mut FlatThreadBus, words: &str) {
    for word in words.split(' ') {
        let a = text.hex(word);
        guard(text, bus, a);
    }
}

/// `release A`: releases guards as if sp had risen to A.
fn release(text: &mut Text, bus: &mut FlatThreadBus, words: &str) {
    let a = text.hex(words);
    bus.release_below(a);
}

/// `store8 A BYTE`, `store16 A HALFWORD` and `store A WORD`: stores 1, 2 or 4 bytes.
fn store(text: &mut Text, bus: &mut FlatThreadBus, size: u32, words: &str) {
    let (a, words) = text.first_hex(words);
    let word = text.hex(words);
    let done = match size {
        1 => bus.store8(a, (word % 0x100) as u8),
        2 => bus.store16(a, (word % 0x1_0000) as u16),
        _ => bus.store32(a, word),
    };
    say_stored(text, done);
}

/// `run A WORDS..`: stores words upwards.
fn store_run(text: &mut Text, bus: &mut FlatThreadBus, words: &str) {
    let (a, words) = text.first_hex(words);
    let words = text.numbers(words);
    say_stored(text, bus.store_run(a, &words));
}

/// `load A`: the word at A.
fn load(text: &mut Text, bus: &FlatThreadBus, words: &str) {
    let a = text.hex(words);
    match bus.load32(a) {
        Ok(word) => say_word(text, word),
        Err(fault) => say_fault(text, fault),
    }
}

/// Appends the answer to a call.
fn say_call(text: &mut Text, shared: &mut Shared, call: &str) {
    let (what, words) = first_word(call);
    let Shared {
        bus,
        owners,
        globals,
    } = shared;
    match what {
        "enter" => enter(text, bus, owners, words),
        "home" => say_home(text, bus.home()),
        "home-of" => say_home_of(text, words),
        "guard" => guard_all(text, bus, words),
        "release" => release(text, bus, words),
        "store8" => store(text, bus, 1, words),
        "store16" => store(text, bus, 2, words),
        "store" => store(text, bus, 4, words),
        "run" => store_run(text, bus, words),
        "load" => load(text, bus, words),
        _ => say_exception(text, bus, owners, globals, what, words),
    }
}

impl Telling for InMemory {
    fn tell(&self, text: &mut Text, question: &str) {
        match start(text.alloc()) {
            Some(mut shared) => text.tell_pieces(&mut shared, question, "; "),
            None => text.want_memory(),
        }
    }
}

impl Pieces for Shared {
    fn tell_piece(&mut self, text: &mut Text, piece: &str) {
        say_call(text, self, piece);
    }
}
