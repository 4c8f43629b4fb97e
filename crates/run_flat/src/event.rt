//! One event of a run of raw code (docs/rules/memory.md, "Raw code").
ghost use Rattle.std.specs.Prelude.{◌≡◌, ◌≤◌, Some, IfSome, IfOk, IfErr, MatchOption, true};
ghost use Rattle.eh_port.specs.Causes.{Rose};
ghost use Rattle.run_events.specs.Runs.{GoesOn, EndsBy};
ghost use Rattle.run_gates.specs.Given.{OnGiven};
ghost use Rattle.run_gates.specs.Ends.{is_fault};
ghost use Rattle.run_images.specs.Start.{State};
ghost use Rattle.run_flat.specs.Cached.{IsCache, IsInstrAt};
ghost use Rattle.run_flat.specs.Machine.{flat_event, may_fail};
ghost use Rattle.run_flat.specs.Returning.{may_return};
ghost use Rattle.thumb_core.specs.Step.{step_of};
ghost use Rattle.thumb_core.specs.declared.regs.Stepped.TheVariants.{Trap};

use crate::decode_cache::RawDecodeCache;
use eh_bus::bus::Bus;
use eh_port::{Sink, Source};
use run_gates::given::gate;
use run_gates::{NO_CALLER, trap_end};
use thumb_core::ends::End;
use thumb_core::regs::{CoreTrap, Regs, Stepped};
use thumb_core::step::{execute, fetch};
use thumb_isa::instr::Instr;

/// Performs one event. If it ends the run, registers and memory are left as before it. Decoded instructions are kept in
/// the cache. `before` is room for a copy of the registers, which is made only if the instruction may return.
#[inline(always)]
pub(crate) fn turn<B: Bus, I: Source, O: Sink>(
    cache: &mut RawDecodeCache,
    before: &mut Regs,
    regs: &mut Regs,
    bus: &mut B,
    input: &mut I,
    out: &mut O,
) -> Option<End>
    requires { IsCache cache.old }
    ensures cache { IsCache cache.new }
    ensures told { IfSome (I.left input.old) (λ bytes.
        let old : State = record { regs = regs.old; memory = B.memory bus.old } in
        let new : State = record { regs = regs.new; memory = B.memory bus.new } in
        MatchOption result (GoesOn (flat_event old bytes) new (I.left input.new) (O.written out.old) (O.written out.new))
        (λ end. EndsBy is_fault (may_fail old) (flat_event old bytes) end old new bytes (I.left input.new) (O.written out.old) (O.written out.new))) }
    ensures given { OnGiven (λ bytes left.
        let old : State = record { regs = regs.old; memory = B.memory bus.old } in
        let new : State = record { regs = regs.new; memory = B.memory bus.new } in
        MatchOption result (GoesOn (flat_event old bytes) new left (O.written out.old) (O.written out.new))
        (λ end. EndsBy is_fault (may_fail old) (flat_event old bytes) end old new bytes left (O.written out.old) (O.written out.new))) }
    ensures read { result ≡ Some End.ReadFault → Rose (I.faults input.old) (I.faults input.new) }
    ensures write { result ≡ Some End.WriteFault → Rose (O.faults out.old) (O.faults out.new) }
    ensures input_later { I.faults input.old ≤ I.faults input.new }
    ensures out_later { O.faults out.old ≤ O.faults out.new }
{
    let (instr, size) = match cache.find(regs.pc, bus) {
        Some(line) => (line.instr, line.size),
        None => match decode_anew(cache, regs, bus) {
            Ok(at) => at,
            Err(trap) => return Some(trap_end(trap, regs.pc)),
        },
    };
    turn_at(instr, size, before, regs, bus, input, out)
}

/// Decodes the instruction at pc after a cache miss. It is a separate function so that other events don't pay for it.
#[inline(never)]
fn decode_anew<B: Bus>(
    cache: &mut RawDecodeCache,
    regs: &Regs,
    bus: &B,
) -> Result<(Instr, u32), CoreTrap>
    requires { IsCache cache.old }
    ensures cache { IsCache cache.new }
    ensures there { IfOk result (λ at. IsInstrAt (B.memory bus.now) regs.now.pc at.0 at.1) }
    ensures trap { IfErr result (λ trap. step_of regs.now (B.memory bus.now) ≡ (Trap trap, regs.now, B.memory bus.now)) }
{
    match fetch(regs, bus) {
        Ok((instr, size)) => {
            cache.insert(regs.pc, instr, size, bus);
            Ok((instr, size))
        }
        Err(trap) => Err(trap),
    }
}

/// Copies the registers if the instruction may return. Other events don't pay for a copy.
#[inline(always)]
fn keep_registers(instr: &Instr, regs: &Regs, before: &mut Regs)
    ensures { may_return instr.now ≡ true → before.new ≡ regs.now }
{
    if matches!(instr, Instr::Bx { .. } | Instr::Pop { .. }) {
        *before = *regs;
    }
}

/// Performs the event of the instruction at pc.
#[inline(always)]
fn turn_at<B: Bus, I: Source, O: Sink>(
    instr: Instr,
    size: u32,
    before: &mut Regs,
    regs: &mut Regs,
    bus: &mut B,
    input: &mut I,
    out: &mut O,
) -> Option<End>
    requires { IsInstrAt (B.memory bus.old) regs.old.pc instr size }
    ensures told { IfSome (I.left input.old) (λ bytes.
        let old : State = record { regs = regs.old; memory = B.memory bus.old } in
        let new : State = record { regs = regs.new; memory = B.memory bus.new } in
        MatchOption result (GoesOn (flat_event old bytes) new (I.left input.new) (O.written out.old) (O.written out.new))
        (λ end. EndsBy is_fault (may_fail old) (flat_event old bytes) end old new bytes (I.left input.new) (O.written out.old) (O.written out.new))) }
    ensures given { OnGiven (λ bytes left.
        let old : State = record { regs = regs.old; memory = B.memory bus.old } in
        let new : State = record { regs = regs.new; memory = B.memory bus.new } in
        MatchOption result (GoesOn (flat_event old bytes) new left (O.written out.old) (O.written out.new))
        (λ end. EndsBy is_fault (may_fail old) (flat_event old bytes) end old new bytes left (O.written out.old) (O.written out.new))) }
    ensures read { result ≡ Some End.ReadFault → Rose (I.faults input.old) (I.faults input.new) }
    ensures write { result ≡ Some End.WriteFault → Rose (O.faults out.old) (O.faults out.new) }
    ensures input_later { I.faults input.old ≤ I.faults input.new }
    ensures out_later { O.faults out.old ≤ O.faults out.new }
{
    let pc = regs.pc;
    keep_registers(&instr, regs, before);
    let what = execute(instr, size, regs, bus);
    match what {
        Stepped::Done | Stepped::Call { .. } => None,
        Stepped::Return { to } => {
            if to != NO_CALLER {
                return None;
            }
            let number = regs.r[0];
            *regs = *before;
            Some(End::Exit(number))
        }
        Stepped::Gate(number) => gate(number, pc, regs, input, out),
        Stepped::Trap(trap) => Some(trap_end(trap, pc)),
    }
}
