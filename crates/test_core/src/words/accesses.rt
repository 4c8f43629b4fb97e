//! Accesses of a memory one after the other, each with its answer (docs/rules/memory.md): `load8 ADDRESS`, `store8 ADDRESS VALUE`, the same
//! of 16 and 32 bits, `fetch ADDRESS`, `run ADDRESS WORDS`, `guard ADDRESS`, `release ADDRESS`, `pool_load ADDRESS`, `pool_store ADDRESS
//! VALUE` and `home`. A guard, a release and a store of the pool have no answer.
use eh_bus::bus::Bus;
use eh_bus::fault::BusFault;
use eh_bus::map::{POOL_END, POOL_START, STACK_END, STACK_START};
use std::fmt::Radix;
use test_rows::faults::why;
use test_rows::{Text, Unanswered, first_word};

/// Appends why an access is refused, and its address.
fn say_fault(text: &mut Text, fault: BusFault) {
    let (words, address) = why(fault);
    write!(text, "{words} {address:X};");
}

fn say_loaded<N: Radix + Copy>(text: &mut Text, loaded: Result<N, BusFault>) {
    match loaded {
        Ok(number) => write!(text, "{number:X};"),
        Err(fault) => say_fault(text, fault),
    }
}

fn say_stored(text: &mut Text, stored: Result<(), BusFault>) {
    match stored {
        Ok(()) => text.say("done;"),
        Err(fault) => say_fault(text, fault),
    }
}

/// Appends what is loaded at an address.
fn say_load<B: Bus>(text: &mut Text, bus: &B, what: &str, a: u32) {
    match what {
        "load8" => say_loaded(text, bus.load8(a)),
        "load16" => say_loaded(text, bus.load16(a)),
        "load32" => say_loaded(text, bus.load32(a)),
        _ => say_loaded(text, bus.fetch16(a)),
    }
}

/// Stores the lowest bits of a value.
fn say_store<B: Bus>(text: &mut Text, bus: &mut B, what: &str, a: u32, value: u32) {
    match what {
        "store8" => say_stored(text, bus.store8(a, (value % 256) as u8)),
        "store16" => say_stored(text, bus.store16(a, (value % 65_536) as u16)),
        "store32" => say_stored(text, bus.store32(a, value)),
        _ => text.refuse(Unanswered::NotKnown),
    }
}

/// Stores words at rising addresses.
fn say_run<B: Bus>(text: &mut Text, bus: &mut B, a: u32, words: &str) {
    let run = text.numbers(words);
    say_stored(text, bus.store_run(a, &run));
}

/// Guards a word of the stack.
fn guard<B: Bus>(text: &mut Text, bus: &mut B, a: u32) {
    if a % 4 == 0 && a >= STACK_START && a < STACK_END {
        bus.guard(a);
    } else {
        text.refuse(Unanswered::Because("no word of the stack"));
    }
}

/// Loads or stores a word of the pool, as the machine itself does.
fn say_pool<B: Bus>(text: &mut Text, bus: &mut B, what: &str, a: u32, words: &str) {
    if a % 4 != 0 || a < POOL_START || a >= POOL_END {
        return text.refuse(Unanswered::Because("no word of the pool"));
    }
    if what == "pool_load" {
        let loaded = bus.host_load32(a);
        write!(text, "{loaded:X};");
    } else {
        bus.host_store32(a, text.hex(words));
    }
}

fn say_home<B: Bus>(text: &mut Text, bus: &B) {
    let (start, end) = bus.home();
    write!(text, "{start:X} to {end:X};");
}

/// Appends the answer to an access at an address.
fn say_at<B: Bus>(text: &mut Text, bus: &mut B, what: &str, a: u32, words: &str) {
    match what {
        "load8" | "load16" | "load32" | "fetch" => say_load(text, bus, what, a),
        "run" => say_run(text, bus, a, words),
        "guard" => guard(text, bus, a),
        "release" => bus.release_below(a),
        "pool_load" | "pool_store" => say_pool(text, bus, what, a, words),
        _ => {
            let value = text.hex(words);
            say_store(text, bus, what, a, value);
        }
    }
}

/// Appends the answer to an access.
pub fn say_access<B: Bus>(text: &mut Text, bus: &mut B, access: &str) {
    let (what, words) = first_word(access);
    if what == "home" {
        say_home(text, bus);
    } else {
        let (a, words) = text.first_hex(words);
        say_at(text, bus, what, a, words);
    }
}
