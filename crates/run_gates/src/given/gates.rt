//! The gates 0 to 2, described by the byte that the source gave.
ghost use Rattle.std.specs.Prelude.{◌≡◌, ◌≢◌, ◌≤◌, ℕ, List, Some, IfOk, IfSome, OnOk, OnErr, MatchOption, MatchResult};
ghost use Rattle.eh_bus.specs.Segment.{AreBytes};
ghost use Rattle.eh_port.specs.Causes.{Rose};
ghost use Rattle.run_events.specs.Runs.{GoesOn, EndsBy};
ghost use Rattle.run_gates.specs.Ends.{is_fault};
ghost use Rattle.run_gates.specs.Gates.{gate_event, gate_may_fail, Takes};
ghost use Rattle.run_gates.specs.Given.{OnGiven, given_bytes};

use crate::INPUT_GATE;
use crate::given::source::OneByteSource;
use eh_port::{Failed, Sink, Source};
use thumb_core::ends::End;
use thumb_core::regs::Regs;

/// Reads the next byte of the source; None at its end.
fn next_byte<I: Source>(input: &mut I) -> Result<Option<u8>, Failed>
    ensures told { IfSome (I.left input.old) (λ bytes. MatchResult result
        (λ byte. Takes bytes byte (I.left input.new)) (λ _. I.left input.new ≡ Some bytes)) }
    ensures small { IfOk result (λ byte. AreBytes (given_bytes byte)) }
    ensures fault { OnErr result (Rose (I.faults input.old) (I.faults input.new)) }
    ensures kept { OnOk result (I.faults input.new ≡ I.faults input.old) }
    ensures later { I.faults input.old ≤ I.faults input.new }
{
    let mut buf = [0];
    match input.take(&mut buf) {
        Ok(0) => Ok(None),
        Ok(_) => {
            let byte = buf[0];
            Ok(Some(byte))
        }
        Err(fault) => Err(fault),
    }
}

/// Performs a gate whose source gave this byte, or none.
fn gate_on<O: Sink>(
    number: u8,
    byte: Option<u8>,
    pc: u32,
    regs: &mut Regs,
    out: &mut O,
) -> Option<End>
    ensures given { (left : List ℕ) × (let before : Regs = record regs.old { pc = pc } in
        MatchOption result (GoesOn (gate_event number before regs.old (given_bytes byte)) regs.new (Some left) (O.written out.old) (O.written out.new))
        (λ end. EndsBy is_fault (gate_may_fail number) (gate_event number before regs.old (given_bytes byte)) end before regs.new (given_bytes byte) (Some left) (O.written out.old) (O.written out.new))) }
    ensures read { result ≢ Some End.ReadFault }
    ensures write { result ≡ Some End.WriteFault → Rose (O.faults out.old) (O.faults out.new) }
    ensures out_later { O.faults out.old ≤ O.faults out.new }
    ensures out_kept { result ≢ Some End.WriteFault → O.faults out.new ≡ O.faults out.old }
{
    crate::gate(number, pc, regs, &mut OneByteSource { byte }, out)
}

/// Performs a gate as `crate::gate` does. The contract also covers a source that doesn't know its bytes: it then speaks
/// of bytes that the source gave.
pub fn gate<I: Source, O: Sink>(
    number: u8,
    pc: u32,
    regs: &mut Regs,
    input: &mut I,
    out: &mut O,
) -> Option<End>
    ensures told { IfSome (I.left input.old) (λ bytes.
        let before : Regs = record regs.old { pc = pc } in
        MatchOption result (GoesOn (gate_event number before regs.old bytes) regs.new (I.left input.new) (O.written out.old) (O.written out.new))
        (λ end. EndsBy is_fault (gate_may_fail number) (gate_event number before regs.old bytes) end before regs.new bytes (I.left input.new) (O.written out.old) (O.written out.new))) }
    ensures given { OnGiven (λ bytes left.
        let before : Regs = record regs.old { pc = pc } in
        MatchOption result (GoesOn (gate_event number before regs.old bytes) regs.new left (O.written out.old) (O.written out.new))
        (λ end. EndsBy is_fault (gate_may_fail number) (gate_event number before regs.old bytes) end before regs.new bytes left (O.written out.old) (O.written out.new))) }
    ensures read { result ≡ Some End.ReadFault → Rose (I.faults input.old) (I.faults input.new) }
    ensures write { result ≡ Some End.WriteFault → Rose (O.faults out.old) (O.faults out.new) }
    ensures input_later { I.faults input.old ≤ I.faults input.new }
    ensures out_later { O.faults out.old ≤ O.faults out.new }
    ensures input_kept { result ≢ Some End.ReadFault → I.faults input.new ≡ I.faults input.old }
    ensures out_kept { result ≢ Some End.WriteFault → O.faults out.new ≡ O.faults out.old }
{
    if number != INPUT_GATE {
        return gate_on(number, None, pc, regs, out);
    }
    match next_byte(input) {
        Ok(byte) => gate_on(number, byte, pc, regs, out),
        Err(_) => {
            regs.pc = pc;
            Some(End::ReadFault)
        }
    }
}
