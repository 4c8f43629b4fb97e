//! The gates 0 to 2: exit, output and input of a byte. A gate is an SVC that the runtime handles.
ghost use Rattle.std.specs.Prelude.{◌≡◌, ◌≢◌, ◌≤◌, Some, IfSome, OnOk, OnErr, MatchOption, MatchResult};
ghost use Rattle.eh_port.specs.Causes.{Rose};
ghost use Rattle.run_events.specs.Runs.{GoesOn, EndsBy};
ghost use Rattle.run_gates.specs.Ends.{is_fault};
ghost use Rattle.run_gates.specs.Gates.{gate_event, gate_may_fail, Takes, byte_or_end};

use eh_port::{Failed, Sink, Source, put_all};
use thumb_core::ends::{End, TrapKind};
use thumb_core::regs::Regs;

/// The return address of the function in which a run starts. A return to it ends the run.
pub const NO_CALLER: u32 = 0xFFFF_FFFF;

/// The number of the gate that ends the run; r0 is the exit number.
pub const EXIT_GATE: u8 = 0;
/// The number of the gate that writes the low byte of r0.
pub const OUTPUT_GATE: u8 = 1;
/// The number of the gate that reads a byte into r0.
pub const INPUT_GATE: u8 = 2;

/// The value of r0 after an input gate at the end of the input.
pub const END_OF_INPUT: u32 = 0xFFFF_FFFF;

/// The value of r0 after an input gate.
fn byte_or_end(byte: Option<u8>) -> u32
    ensures { result ≡ byte_or_end byte }
{
    match byte {
        None => END_OF_INPUT,
        Some(byte) => u32::from(byte),
    }
}

/// Reads one byte of the input; None at its end. Nothing is read ahead.
fn next_byte<I: Source>(input: &mut I) -> Result<Option<u8>, Failed>
    ensures told { IfSome (I.left input.old) (λ bytes. MatchResult result
        (λ byte. Takes bytes byte (I.left input.new)) (λ _. I.left input.new ≡ Some bytes)) }
    ensures fault { OnErr result (Rose (I.faults input.old) (I.faults input.new)) }
    ensures kept { OnOk result (I.faults input.new ≡ I.faults input.old) }
    ensures later { I.faults input.old ≤ I.faults input.new }
{
    let mut buf = [0];
    match input.take(&mut buf) {
        Ok(0) => Ok(None),
        Ok(_) => Ok(Some(buf[0])),
        Err(fault) => Err(fault),
    }
}

/// Performs a gate whose instruction is at `pc`, and gives the end of the run, or None if the run goes on. An end sets
/// pc back to the instruction. `ReadFault` comes only from the input gate, `WriteFault` only from the output gate.
pub fn gate<I: Source, O: Sink>(
    number: u8,
    pc: u32,
    regs: &mut Regs,
    input: &mut I,
    out: &mut O,
) -> Option<End>
    ensures told { IfSome (I.left input.old) (λ bytes.
        let before : Regs = record regs.old { pc = pc } in
        MatchOption result (GoesOn (gate_event number before regs.old bytes) regs.new (I.left input.new) (O.written out.old) (O.written out.new))
        (λ end. EndsBy is_fault (gate_may_fail number) (gate_event number before regs.old bytes) end before regs.new bytes (I.left input.new) (O.written out.old) (O.written out.new))) }
    ensures read { result ≡ Some End.ReadFault → Rose (I.faults input.old) (I.faults input.new) }
    ensures write { result ≡ Some End.WriteFault → Rose (O.faults out.old) (O.faults out.new) }
    ensures input_later { I.faults input.old ≤ I.faults input.new }
    ensures out_later { O.faults out.old ≤ O.faults out.new }
    ensures input_kept { result ≢ Some End.ReadFault → I.faults input.new ≡ I.faults input.old }
    ensures out_kept { result ≢ Some End.WriteFault → O.faults out.new ≡ O.faults out.old }
{
    let end = match number {
        EXIT_GATE => End::Exit(regs.r[0]),
        OUTPUT_GATE => match put_all(out, &[(regs.r[0] % 256) as u8]) {
            Ok(()) => return None,
            Err(_) => End::WriteFault,
        },
        INPUT_GATE => match next_byte(input) {
            Ok(byte) => {
                regs.r[0] = byte_or_end(byte);
                return None;
            }
            Err(_) => End::ReadFault,
        },
        _ => End::Trap(TrapKind::UnknownGate, u32::from(number), pc),
    };
    regs.pc = pc;
    Some(end)
}
