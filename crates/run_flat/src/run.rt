//! A run of raw code within a budget of events (docs/rules/memory.md, "Raw code").
ghost use Rattle.std.specs.Prelude.{◌≡◌, ◌≤◌, IfSome};
ghost use Rattle.eh_port.specs.Causes.{Rose};
ghost use Rattle.run_images.specs.Start.{State};
ghost use Rattle.run_flat.specs.Machine.{FlatRuns, FlatRunsGiven};

use crate::decode_cache::RawDecodeCache;
use crate::event::turn;
use eh_bus::bus::Bus;
use eh_port::{Sink, Source};
use thumb_core::ends::End;
use thumb_core::regs::Regs;

/// Runs at most `budget` instructions of raw code from these registers and this memory, and gives the end of the run.
///
/// A trap, an exit or a fault leaves registers and memory as before its instruction. `ReadFault` comes only from the
/// input gate, `WriteFault` only from the output gate, and only if the count of faults of the source or sink rose in
/// this call. The contract also covers a source that doesn't know its bytes: it then speaks of bytes that the source
/// gave (`given`).
pub fn flat_run<B: Bus, I: Source, O: Sink>(
    regs: &mut Regs,
    bus: &mut B,
    budget: u64,
    input: &mut I,
    out: &mut O,
) -> End
    ensures told { IfSome (I.left input.old) (λ bytes.
        let old : State = record { regs = regs.old; memory = B.memory bus.old } in
        let new : State = record { regs = regs.new; memory = B.memory bus.new } in
        FlatRuns budget old bytes result new (I.left input.new) (O.written out.old) (O.written out.new)) }
    ensures given { let old : State = record { regs = regs.old; memory = B.memory bus.old } in
        let new : State = record { regs = regs.new; memory = B.memory bus.new } in
        FlatRunsGiven budget old result new (O.written out.old) (O.written out.new) }
    ensures read { result ≡ End.ReadFault → Rose (I.faults input.old) (I.faults input.new) }
    ensures write { result ≡ End.WriteFault → Rose (O.faults out.old) (O.faults out.new) }
    ensures input_later { I.faults input.old ≤ I.faults input.new }
    ensures out_later { O.faults out.old ≤ O.faults out.new }
{
    let mut cache = RawDecodeCache::new();
    let mut before = *regs;
    let mut left = budget;
    while left > 0 {
        left -= 1;
        match turn(&mut cache, &mut before, regs, bus, input, out) {
            None => {}
            Some(end) => return end,
        }
    }
    End::Budget
}
