//! What a core does: from registers and a program to registers (docs/rules/instructions.md).
ghost use Rattle.std.specs.Prelude.{◌≤◌, length};
ghost use Rattle.test_core.specs.declared.instructions.steps.TheConstants.{MOST_BYTES};

use crate::instructions::start::{CoreStart, PROGRAM, start_of};
use eh_bus::bus::Bus;
use eh_bus::fault::{BusFault, BusMemory};
use eh_bus::segment::SegmentSpec;
use mem_buses::flat::FlatBus;
use std::alloc::Global;
use test_rows::faults::why;
use test_rows::{Telling, Text};
use thumb_core::regs::{CoreTrap, Regs, Stepped};
use thumb_core::step::step_for;
use thumb_isa::profile::Profile;

/// The greatest number of bytes of a program.
const MOST_BYTES: usize = 64;

/// `PROGRAM SETTINGS`: the result of each step by the rows of a profile, the registers that have changed, the flags, and the words that are
/// asked for.
#[derive(Clone, Copy)]
pub struct Steps {
    /// The profile whose rows are used.
    pub profile: Profile,
}

/// A memory with this code at its address.
fn bus_of(alloc: Global, code: &[u8]) -> Result<FlatBus, BusMemory>
    requires { length code.now ≤ MOST_BYTES }
{
    let code = SegmentSpec {
        start: PROGRAM,
        bytes: code,
        size: code.len() as u32,
        write: false,
        exec: true,
    };
    FlatBus::build(alloc, &[code])
}

/// One step. It has no contract, so that its callers are proved without looking into a step.
fn go(profile: Profile, regs: &mut Regs, bus: &mut FlatBus) -> Stepped {
    step_for(profile, regs, bus)
}

/// Appends why nothing was done, and a number.
fn say_trapped(text: &mut Text, why: &str, what: u32) {
    text.say("trap ");
    text.say(why);
    text.say(" ");
    text.say_hex(what);
}

/// Appends why memory refuses an access, and the address.
fn say_fault(text: &mut Text, fault: BusFault) {
    let (words, address) = why(fault);
    say_trapped(text, words, address);
}

/// Appends why nothing was done.
fn say_trap(text: &mut Text, trap: CoreTrap) {
    match trap {
        CoreTrap::Undefined(first) => say_trapped(text, "undefined", first),
        CoreTrap::Unpredictable(first) => say_trapped(text, "unpredictable", first),
        CoreTrap::NotInProfile(first) => say_trapped(text, "not in profile", first),
        CoreTrap::EvenTarget(target) => say_trapped(text, "even target", target),
        CoreTrap::Memory(fault) => say_fault(text, fault),
    }
}

/// Appends a word, and a number after it.
fn say_number(text: &mut Text, word: &str, number: u32) {
    text.say(word);
    text.say_hex(number);
}

/// Adds a call.
fn say_call(text: &mut Text, target: u32, ret: u32) {
    say_number(text, "call ", target);
    say_number(text, " from ", ret);
}

/// Appends the result of a step.
fn say_step(text: &mut Text, stepped: Stepped) {
    match stepped {
        Stepped::Done => text.say("done"),
        Stepped::Call { target, ret } => say_call(text, target, ret),
        Stepped::Return { to } => say_number(text, "return to ", to),
        Stepped::Gate(gate) => write!(text, "gate {gate}"),
        Stepped::Trap(trap) => say_trap(text, trap),
    }
}

/// Appends the results of so many steps.
fn say_steps(text: &mut Text, profile: Profile, regs: &mut Regs, bus: &mut FlatBus, steps: u32) {
    for _ in 0..steps {
        say_step(text, go(profile, regs, bus));
        text.say("; ");
    }
}

/// Appends a register, if it has changed.
fn say_changed(text: &mut Text, register: usize, old: u32, new: u32) {
    if old != new {
        write!(text, "r{register}={new:X} ");
    }
}

/// Appends the registers that have changed.
fn say_registers(text: &mut Text, old: &Regs, new: &Regs) {
    for register in 0..old.r.len() {
        say_changed(text, register, old.r[register], new.r[register]);
    }
}

/// Appends a flag as 0 or 1.
fn say_flag(text: &mut Text, flag: bool) {
    text.say(if flag { "1" } else { "0" });
}

/// Appends pc, and N, Z, C and V as four bits.
fn say_flags(text: &mut Text, regs: &Regs) {
    say_number(text, "pc=", regs.pc);
    text.say(" flags=");
    say_flag(text, regs.n);
    say_flag(text, regs.z);
    say_flag(text, regs.c);
    say_flag(text, regs.v);
}

/// Adds a word of a memory.
fn say_word(text: &mut Text, bus: &FlatBus, address: u32) {
    match bus.load32(address) {
        Ok(word) => {
            say_number(text, " ", address);
            say_number(text, "=", word);
        }
        Err(fault) => say_fault(text, fault),
    }
}

fn say_words(text: &mut Text, bus: &FlatBus, asked: &[u32]) {
    for address in asked {
        say_word(text, bus, *address);
    }
}

/// Appends what a core does on a memory.
fn say_done(text: &mut Text, profile: Profile, start: &CoreStart, bus: &mut FlatBus) {
    let mut regs = start.regs;
    say_steps(text, profile, &mut regs, bus, start.steps);
    say_registers(text, &start.regs, &regs);
    say_flags(text, &regs);
    say_words(text, bus, &start.asked);
}

/// Adds the result of a run.
fn say_run(text: &mut Text, profile: Profile, start: &CoreStart) {
    if start.code.len() > MOST_BYTES {
        return text.say("the program is too long");
    }
    match bus_of(text.alloc(), &start.code) {
        Ok(mut bus) => say_done(text, profile, start, &mut bus),
        Err(_wanting) => text.want_memory(),
    }
}

impl Telling for Steps {
    fn tell(&self, text: &mut Text, question: &str) {
        let start = start_of(text, question);
        say_run(text, self.profile, &start);
    }
}
