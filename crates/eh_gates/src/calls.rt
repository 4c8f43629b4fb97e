//! The gates (SVCs that the runtime handles) that only call on exceptions (docs/rules/machine.md, "Gates"). A refused call ends the run and
//! changes nothing. Otherwise its results are in r0 and r1, and the run goes on after the gate, at `next`.
ghost use Rattle.std.specs.Prelude.{◌≡◌};
ghost use Rattle.eh_trace.specs.Trace.{Trace};
ghost use Rattle.eh_gates.specs.State.{state_of};
ghost use Rattle.eh_gates.specs.CallGates.{fault_end, allocate_gate, free_gate, begin_catch_gate, end_catch_gate, uncaught_gate};

use crate::state::{Core, Turned};
use eh_bus::bus::Bus;
use eh_cxa::{CxaFault, allocate, begin_catch, end_catch, free};
use thumb_core::ends::{Cause, End, TrapKind};

/// How a refused call ends the run, from the call's argument and the address of the gate.
pub(crate) fn fault_end(fault: CxaFault, given: u32, pc: u32) -> End
    ensures { result ≡ fault_end fault given pc }
{
    match fault {
        CxaFault::PoolFull => End::Terminate(Cause::PoolFull),
        CxaFault::TooBig => End::Trap(TrapKind::TooBig, given, pc),
        CxaFault::BadObject => End::Trap(TrapKind::BadObject, given, pc),
        CxaFault::BadUcb => End::Trap(TrapKind::BadUcb, given, pc),
        CxaFault::CaughtOrder => End::Trap(TrapKind::CaughtOrder, given, pc),
        CxaFault::NoCaught => End::Trap(TrapKind::NoCaught, 0, pc),
        CxaFault::NoCleanup => End::Trap(TrapKind::NoCleanup, 0, pc),
        CxaFault::CleanupElsewhere => End::Trap(TrapKind::CleanupElsewhere, given, pc),
    }
}

/// Allocates an exception of r0 bytes; r0 becomes its object's address. Trap `TooBig` with r0; terminates with `PoolFull`.
pub(crate) fn allocate_gate<B: Bus>(next: u32, core: &mut Core, bus: &mut B) -> Turned
    ensures { (events : Trace) → (result, state_of core.new (B.memory bus.new) events) ≡ allocate_gate next (state_of core.old (B.memory bus.old) events) }
{
    let size = core.regs.r[0];
    match allocate(bus, size) {
        Ok(object) => {
            core.regs.pc = next;
            core.regs.r[0] = object;
            Turned::Went
        }
        Err(fault) => Turned::Ended(fault_end(fault, size, core.regs.pc)),
    }
}

/// Frees the exception whose object is at r0. Trap `BadObject` with r0.
pub(crate) fn free_gate<B: Bus>(next: u32, core: &mut Core, bus: &mut B) -> Turned
    ensures { (events : Trace) → (result, state_of core.new (B.memory bus.new) events) ≡ free_gate next (state_of core.old (B.memory bus.old) events) }
{
    let object = core.regs.r[0];
    match free(bus, object) {
        Ok(()) => {
            core.regs.pc = next;
            Turned::Went
        }
        Err(fault) => Turned::Ended(fault_end(fault, object, core.regs.pc)),
    }
}

/// Begins the catch of the exception whose control block is at r0; r0 becomes the address that the handler is given. Traps `BadUcb` and
/// `CaughtOrder` with r0.
pub(crate) fn begin_catch_gate<B: Bus>(next: u32, core: &mut Core, bus: &mut B) -> Turned
    ensures { (events : Trace) → (result, state_of core.new (B.memory bus.new) events) ≡ begin_catch_gate next (state_of core.old (B.memory bus.old) events) }
{
    let block = core.regs.r[0];
    match begin_catch(bus, &mut core.globals, block) {
        Ok(object) => {
            core.regs.pc = next;
            core.regs.r[0] = object;
            Turned::Went
        }
        Err(fault) => Turned::Ended(fault_end(fault, block, core.regs.pc)),
    }
}

/// Ends the handler of the exception on top of the caught stack. r0 and r1 become an object to destroy and its destructor, or zeros.
/// Trap `NoCaught` with 0.
pub(crate) fn end_catch_gate<B: Bus>(next: u32, core: &mut Core, bus: &mut B) -> Turned
    ensures { (events : Trace) → (result, state_of core.new (B.memory bus.new) events) ≡ end_catch_gate next (state_of core.old (B.memory bus.old) events) }
{
    match end_catch(bus, &mut core.globals) {
        Ok((object, destructor)) => {
            core.regs.pc = next;
            core.regs.r[0] = object;
            core.regs.r[1] = destructor;
            Turned::Went
        }
        Err(fault) => Turned::Ended(fault_end(fault, 0, core.regs.pc)),
    }
}

/// r0 becomes the number of uncaught exceptions.
pub(crate) fn uncaught_gate<B: Bus>(next: u32, core: &mut Core, bus: &B) -> Turned
    ensures { (events : Trace) → (result, state_of core.new (B.memory bus.now) events) ≡ uncaught_gate next (state_of core.old (B.memory bus.now) events) }
{
    core.regs.pc = next;
    core.regs.r[0] = core.globals.uncaught;
    Turned::Went
}
