//! The gate that starts a thread (docs/guide/walks-and-threads.md, "Starting a thread").
ghost use Rattle.std.specs.Prelude.{◌≡◌, ◌<◌, ◌+◌, ◌%◌, ◌^◌, length, IfSome};
ghost use Rattle.sim_machines.specs.Checked.{program_of};
ghost use Rattle.thread_memory.specs.declared.homes.TheConstants.{THREADS};
ghost use Rattle.eh_threads.specs.Threads.{put_thread};
ghost use Rattle.eh_threads.specs.Starting.{next_pc, target_refusal, start_refusal, first_unstarted, new_core, start_thread, with_gate_answer, start_gate};

use crate::thread::{Thread, put_thread};
use eh_cxa::Globals;
use eh_gates::{Core, Turned};
use frame_check::Accepted;
use run_gates::NO_CALLER;
use thread_memory::{THREADS, home_of};
use thumb_core::ends::{End, TrapKind};
use thumb_core::regs::Regs;

/// The number of the gate that starts a thread.
pub const START_GATE: u32 = 32;

/// What the gate answers if all threads were started.
pub const NO_THREAD: u32 = 0xFFFF_FFFF;

/// The address after the gate's instruction.
fn next_pc(regs: &Regs) -> u32
    ensures { result ≡ next_pc regs.now }
{
    regs.pc.wrapping_add(2)
}

/// The end if r0 isn't a function's start with bit 0 set.
fn target_refusal(a: &Accepted, pc: u32, target: u32) -> Option<End>
    ensures { result ≡ target_refusal (program_of a.now) pc target }
{
    if target % 2 == 0 {
        return Some(End::Trap(TrapKind::EvenTarget, target, pc));
    }
    let start = target - 1;
    if a.is_function(start) {
        None
    } else {
        Some(End::Trap(TrapKind::BadCallTarget, start, pc))
    }
}

/// The end if no thread can be started: a function begins after the gate, or r0 is no function's start.
fn start_refusal(a: &Accepted, regs: &Regs) -> Option<End>
    ensures { result ≡ start_refusal (program_of a.now) regs.now }
{
    let next = next_pc(regs);
    if a.is_function(next) {
        return Some(End::Trap(TrapKind::FellOff, next, regs.pc));
    }
    target_refusal(a, regs.pc, regs.r[0])
}

/// The lowest number of a thread that was never started.
fn first_unstarted(threads: &[Option<Thread>]) -> Option<usize>
    ensures is { result ≡ first_unstarted 0 threads.now }
    ensures within { IfSome result (λ number. number < length threads.now) }
{
    for (number, thread) in threads.iter().enumerate() {
        if thread.is_none() {
            return Some(number);
        }
    }
    None
}

/// The core of a new thread: it begins at a function with one argument and no exceptions, and sp is the end of its home.
fn new_core(number: usize, target: u32, argument: u32) -> Core
    requires { number < THREADS }
    ensures { result ≡ new_core number target argument }
{
    let (_, end) = home_of(number);
    Core {
        regs: Regs {
            r: [argument, 0, 0, 0, 0, 0, 0, 0, 0, 0, 0, 0, 0, end, NO_CALLER],
            pc: target,
            n: false,
            z: false,
            c: false,
            v: false,
        },
        globals: Globals::start(),
    }
}

/// Starts the first thread that was never started, and gives the gate's answer.
fn start_thread(threads: &mut [Option<Thread>; THREADS], target: u32, argument: u32) -> u32
    ensures { (result, threads.new) ≡ start_thread target argument threads.old (first_unstarted 0 threads.old) }
{
    match first_unstarted(threads) {
        None => NO_THREAD,
        Some(number) => {
            put_thread(threads, number, &new_core(number, target, argument), None);
            number as u32
        }
    }
}

/// A core after the gate, with its answer in r0.
fn with_gate_answer(core: &Core, answer: u32) -> Core
    ensures { result ≡ with_gate_answer core.now answer }
{
    let mut after = *core;
    after.regs.r[0] = answer;
    after.regs.pc = next_pc(&core.regs);
    after
}

/// The gate, for a thread with the registers before its instruction.
pub(crate) fn start_gate(
    a: &Accepted,
    threads: &mut [Option<Thread>; THREADS],
    thread: usize,
    core: &Core,
) -> Turned
    requires { thread < THREADS }
    ensures { (result, threads.new) ≡ start_gate (program_of a.now) thread core.now threads.old }
{
    if let Some(end) = start_refusal(a, &core.regs) {
        put_thread(threads, thread, core, None);
        return Turned::Ended(end);
    }
    let target = core.regs.r[0].saturating_sub(1);
    let answer = start_thread(threads, target, core.regs.r[1]);
    put_thread(threads, thread, &with_gate_answer(core, answer), None);
    Turned::Went
}
