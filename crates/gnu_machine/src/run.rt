//! Runs of at most a given number of events, which give GNU C++ code what it expects at its landing pads (docs/rules/gnu-tables.md).
ghost use Rattle.std.specs.Prelude.{◌≡◌, IfSome};
ghost use Rattle.std.specs.List.Sorted.{IsStrictlySortedBy};
ghost use Rattle.std.specs.Ordering.{nat_cmp};
ghost use Rattle.std.specs.Map.{keys_of};
ghost use Rattle.run_events.specs.Runs.{Runs};
ghost use Rattle.eh_gates.specs.State.{State, state_of};
ghost use Rattle.run_gates.specs.Given.{OnGiven};
ghost use Rattle.run_gates.specs.Runs.{RunsGiven};
ghost use Rattle.sim_machines.specs.Checked.{program_of};
ghost use Rattle.eh_machine.specs.Turns.{CountsFaults};
ghost use Rattle.gnu_machine.specs.GnuMachine.{gnu_machine_of};
ghost use Rattle.gnu_machine.specs.Done.{TurnedGnu, FollowsGnuRun};

use crate::handing::{give_pad_arguments, totals_of};
use crate::laws::gnu_turns_same;
use eh_bus::bus::Bus;
use eh_machine::{Core, Machine, Shared, Turned, turn};
use eh_port::{Sink, Source};
use eh_trace::Events;
use frame_check::Accepted;
use thumb_core::ends::End;

/// One event of the machine; if it enters a landing pad, the pad is given what its code expects. The filters are sorted by the addresses of
/// their descriptors.
fn gnu_turn<B: Bus, I: Source, O: Sink>(
    a: &Accepted,
    filters: &[(u32, u32)],
    core: &mut Core,
    shared: &mut Shared<B>,
    events: &mut Events,
    input: &mut I,
    out: &mut O,
) -> Turned
    requires { IsStrictlySortedBy nat_cmp (keys_of filters.now) }
    ensures told { IfSome (I.left input.old) (λ bytes.
        let old : State = state_of core.old (B.memory shared.old.bus) events.old in
        let new : State = state_of core.new (B.memory shared.new.bus) events.new in
        TurnedGnu (program_of a.now) filters.now old bytes result new (I.left input.new) (O.written out.old) (O.written out.new)) }
    ensures given { OnGiven (λ bytes left.
        let old : State = state_of core.old (B.memory shared.old.bus) events.old in
        let new : State = state_of core.new (B.memory shared.new.bus) events.new in
        TurnedGnu (program_of a.now) filters.now old bytes result new left (O.written out.old) (O.written out.new)) }
    ensures faults { CountsFaults (λ end. result ≡ Turned.Ended end) (I.faults input.old) (I.faults input.new) (O.faults out.old) (O.faults out.new) }
{
    let before = totals_of(events);
    match turn(a, core, shared, events, input, out) {
        Turned::Went => {
            give_pad_arguments(a, filters, before, core, &mut shared.bus, events);
            Turned::Went
        }
        Turned::Ended(end) => Turned::Ended(end),
    }
}

/// Runs an image whose tables were rewritten from GNU's until an event ends the run or the budget (`left`) is spent. The event that ends
/// the run counts too. Each event is that of `Machine::run`, and each landing pad is given what its code expects. `filters` pairs the
/// address of a catch descriptor with its filter, in rising order of the addresses. A further call goes on where this one stopped. If the
/// source doesn't tell what it holds, each event is one on bytes that it gave (`given`). The machine with recorded activations makes the
/// same run. Takes no memory.
pub fn gnu_run<B: Bus, I: Source, O: Sink>(
    machine: &mut Machine<B>,
    filters: &[(u32, u32)],
    input: &mut I,
    out: &mut O,
) -> End
    requires { IsStrictlySortedBy nat_cmp (keys_of filters.now) }
    ensures told { IfSome (I.left input.old) (λ bytes.
        let old : State = state_of machine.old.core (B.memory machine.old.shared.bus) machine.old.events in
        let new : State = state_of machine.new.core (B.memory machine.new.shared.bus) machine.new.events in
        Runs (gnu_machine_of (program_of machine.old.accepted.now) filters.now) machine.old.left old bytes result new machine.new.left (I.left input.new) (O.written out.old) (O.written out.new)) }
    ensures given { let old : State = state_of machine.old.core (B.memory machine.old.shared.bus) machine.old.events in
        let new : State = state_of machine.new.core (B.memory machine.new.shared.bus) machine.new.events in
        RunsGiven (gnu_machine_of (program_of machine.old.accepted.now) filters.now) machine.old.left old result new machine.new.left (O.written out.old) (O.written out.new) }
    ensures recorded { IfSome (I.left input.old) (λ bytes.
        let old : State = state_of machine.old.core (B.memory machine.old.shared.bus) machine.old.events in
        let new : State = state_of machine.new.core (B.memory machine.new.shared.bus) machine.new.events in
        FollowsGnuRun machine.old.accepted.now filters.now machine.old.left old bytes result new machine.new.left (I.left input.new) (O.written out.old) (O.written out.new)) }
    ensures faults { CountsFaults (λ end. result ≡ end) (I.faults input.old) (I.faults input.new) (O.faults out.old) (O.faults out.new) }
    ensures accepted { machine.new.accepted ≡ machine.old.accepted }
{
    let accepted = machine.accepted;
    accepted.holds();
    let _ = accepted.image().functions();
    gnu_turns_same(filters);
    while machine.left > 0 {
        match gnu_turn(
            accepted,
            filters,
            &mut machine.core,
            &mut machine.shared,
            &mut machine.events,
            input,
            out,
        ) {
            Turned::Went => machine.left -= 1,
            Turned::Ended(end) => {
                machine.left -= 1;
                return end;
            }
        }
    }
    End::Budget
}
