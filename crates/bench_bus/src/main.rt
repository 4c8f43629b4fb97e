//! Runs a loop of six instructions over an image of many segments, in a memory of either kind, so that the cost of an event can be counted
//! (bench/bus_cost.sh). Its three words are the kind, `flat` or `paged`, the number of segments (2 to 1,024) and the number of events. It
//! prints how many events were done. For other words it prints nothing and ends with status 2.
//!
//! The code is the first segment, 64 bytes from 0x8000 on; the others follow in steps of 64 bytes. The loop loads a word of the second
//! segment, stores one in the last, pushes and pops a register, adds, and branches back.
#![tactic(auto)]

ghost use Rattle.std.specs.Prelude.{◌≡◌, ◌+◌, ◌*◌, ◌≤◌, length, IfOk};
ghost use Rattle.eh_bus.specs.Built.{CanBuild};

use eh_bus::bus::Bus;
use eh_bus::fault::BusMemory;
use eh_bus::segment::SegmentSpec;
use mem_buses::flat::FlatBus;
use mem_buses::paged::PagedBus;
use std::alloc::{AllocError, Global};
use std::env;
use std::process::ExitCode;
use thumb_core::regs::{Regs, SP, Stepped};
use thumb_core::step::step;

/// The status for words that name no loop.
const USAGE: u8 = 2;
/// The status if there is no memory, a step is refused, or the count can't be written.
const FAILED: u8 = 1;

/// The greatest number of segments.
pub const MOST: u32 = 1024;
/// The address of the code.
pub const FIRST: u32 = 0x8000;
/// The distance in bytes from a segment's address to the next one's, and its size.
pub const STEP: u32 = 64;

/// ldr r0, [r1]; str r0, [r2]; push {r4}; pop {r4}; adds r0, #1; b to the first.
const LOOP: [u8; 12] = [
    0x08, 0x68, 0x10, 0x60, 0x10, 0xb4, 0x10, 0xbc, 0x01, 0x30, 0xf9, 0xe7,
];

/// The address of the segment with a number.
fn start_of(number: u32) -> u32
    requires { number ≤ MOST }
    ensures { result ≡ FIRST + number * STEP }
{
    FIRST + number * STEP
}

/// The segments: the code, then writable zeros.
fn segments<'a>(
    alloc: Global,
    code: &'a [u8],
    count: u32,
) -> Result<Vec<SegmentSpec<'a>>, AllocError>
    requires few { count ≤ MOST }
    requires fits { length code.now ≤ STEP }
    ensures { IfOk result (λ all. CanBuild all.items) }
{
    let mut all = Vec::new(alloc);
    for number in 0..count {
        let is_code = number == 0;
        all.push(SegmentSpec {
            start: start_of(number),
            bytes: if is_code { code } else { &[] },
            size: STEP,
            write: !is_code,
            exec: is_code,
        })?;
    }
    Ok(all)
}

/// Runs so many events of the loop; whether each was done.
fn run_loop<B: Bus>(bus: &mut B, count: u32, events: u64) -> bool
    requires { count ≤ MOST }
{
    let mut r = [0; 15];
    r[1] = start_of(1);
    r[2] = start_of(count.saturating_sub(1));
    r[SP as usize] = 0x4000_0000;
    let mut regs = Regs {
        r,
        pc: FIRST,
        n: false,
        z: false,
        c: false,
        v: false,
    };
    for _event in 0..events {
        match step(&mut regs, bus) {
            Stepped::Done => {}
            Stepped::Call { .. } | Stepped::Return { .. } | Stepped::Gate(_) | Stepped::Trap(_) =>
                return false,
        }
    }
    true
}

/// The kinds of memory.
#[derive(Clone, Copy)]
enum Kind {
    Flat,
    Paged,
}

impl Kind {
    fn from_name(name: &str) -> Option<Kind> {
        match name {
            "flat" => Some(Kind::Flat),
            "paged" => Some(Kind::Paged),
            _ => None,
        }
    }
}

/// Runs so many events of the loop in a memory of this kind with so many segments; whether each was done.
fn run(alloc: Global, kind: Kind, count: u32, events: u64) -> Result<bool, BusMemory>
    requires { count ≤ MOST }
{
    let all = segments(alloc, &LOOP, count)?;
    match kind {
        Kind::Flat => {
            let mut bus = FlatBus::build(alloc, &all)?;
            Ok(run_loop(&mut bus, count, events))
        }
        Kind::Paged => {
            let mut bus = PagedBus::build(alloc, &all)?;
            Ok(run_loop(&mut bus, count, events))
        }
    }
}

/// What the three words after the program's name ask for; None for other words.
fn parse_arguments(host: &HostRuntime) -> Option<(Kind, u32, u64)> {
    let mut args = env::args(host).ok()?;
    let _name = args.next()?;
    let kind = Kind::from_name(args.next()?.as_str())?;
    let count = args.next()?.as_str().parse().ok()?;
    let events = args.next()?.as_str().parse().ok()?;
    if args.next().is_none() {
        Some((kind, count, events))
    } else {
        None
    }
}

fn status(host: &HostRuntime) -> u8 {
    let Some((kind, count, events)) = parse_arguments(host) else {
        return USAGE;
    };
    if count < 2 || count > MOST {
        return USAGE;
    }
    match run(host.alloc(), kind, count, events) {
        Ok(true) if print!(host; "{events} events\n").is_ok() => 0,
        Ok(_) | Err(BusMemory::OutOfMemory) => FAILED,
    }
}

fn main(host: HostRuntime) -> ExitCode {
    ExitCode::from(status(&host))
}
