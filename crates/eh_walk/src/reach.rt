//! A run that goes on until it is at a site (docs/guide/walks-and-threads.md, "Sites").
ghost use Rattle.std.specs.Prelude.{◌≡◌, ◌-◌, ◌&&◌, nat_le, is_some, IfSome};
ghost use Rattle.eh_gates.specs.State.{State, state_of};
ghost use Rattle.sim_machines.specs.Checked.{program_of};
ghost use Rattle.eh_machine.specs.Turns.{CountsFaults};
ghost use Rattle.eh_walk.specs.Reaching.{RunsToSite, most_events};
ghost use Rattle.eh_walk.specs.Sites.{site_state};

use crate::sites::site;
use eh_bus::bus::Bus;
use eh_machine::{Core, Machine, Shared, Turned, turn};
use eh_port::{Sink, Source};
use frame_check::Accepted;
use thumb_core::ends::End;

/// The most events that a run may go on after its budget to reach a site.
pub const MOST_FURTHER: u64 = 1_000_000;

/// A run to a site that has ended.
#[derive(Clone, Copy)]
pub struct SiteRun {
    /// Why it ended.
    pub end: End,
    /// How many events were done. An event that ended the run isn't counted.
    pub done: u128,
}

/// The most events that a run of this budget does.
fn most_events(budget: u64) -> u128
    ensures { result ≡ most_events budget }
{
    u128::from(budget) + u128::from(MOST_FURTHER)
}

/// The budget after an event.
fn budget_after_event(left: u64) -> u64
    ensures { result ≡ left - 1 }
{
    left.saturating_sub(1)
}

/// Whether the budget is spent and the state stands at a site.
fn stands_there<B: Bus>(
    a: &Accepted,
    budget: u64,
    done: u128,
    core: &Core,
    shared: &Shared<B>,
) -> bool
    ensures { result ≡ (nat_le budget done && is_some (site_state (program_of a.now) core.now.regs (B.memory shared.now.bus))) }
{
    u128::from(budget) <= done && site(a, core, shared).is_some()
}

/// Spends the budget, and then goes on until the state stands at a site, for at most `MOST_FURTHER` events. If no event ends the run on the
/// way, its end is `Budget`. Takes no memory.
pub fn run_to_site<B: Bus, I: Source, O: Sink>(
    machine: &mut Machine<B>,
    input: &mut I,
    out: &mut O,
) -> SiteRun
    ensures told { IfSome (I.left input.old) (λ bytes.
        let old : State = state_of machine.old.core (B.memory machine.old.shared.bus) machine.old.events in
        let new : State = state_of machine.new.core (B.memory machine.new.shared.bus) machine.new.events in
        RunsToSite (program_of machine.old.accepted.now) machine.old.left old bytes result.end result.done new (I.left input.new) (O.written out.old) (O.written out.new)) }
    ensures faults { CountsFaults (λ end. result.end ≡ end) (I.faults input.old) (I.faults input.new) (O.faults out.old) (O.faults out.new) }
    ensures accepted { machine.new.accepted ≡ machine.old.accepted }
    ensures left { machine.new.left ≡ machine.old.left - result.done }
{
    let accepted = machine.accepted;
    let budget = machine.left;
    let most = most_events(budget);
    let mut done = 0u128;
    while done < most {
        if stands_there(accepted, budget, done, &machine.core, &machine.shared) {
            return SiteRun {
                end: End::Budget,
                done,
            };
        }
        match turn(
            accepted,
            &mut machine.core,
            &mut machine.shared,
            &mut machine.events,
            input,
            out,
        ) {
            Turned::Went => {
                machine.left = budget_after_event(machine.left);
                done += 1;
            }
            Turned::Ended(end) => return SiteRun { end, done },
        }
    }
    SiteRun {
        end: End::Budget,
        done,
    }
}
