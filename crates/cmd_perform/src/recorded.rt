//! An accepted image runs the same over bytes as with recorded activations (docs/rules/machine.md, "With recorded activations").
ghost use Rattle.std.specs.Prelude.{◌≡◌};
ghost use Rattle.sim_machines.specs.Checked.{program_of};
ghost use Rattle.sim_machines.specs.Start.{start_of};
ghost use Rattle.cmd_perform.specs.BothRuns.{RunSame, SlotsStay};
ghost use Rattle.cmd_perform.specs.ForceReport.{ForcesSame};
ghost use Rattle.cmd_perform.specs.GnuReport.{GnuSame};
ghost use Rattle.cmd_perform.specs.ThreadsReport.{ThreadsSame};
ghost use Rattle.cmd_perform.specs.WalkReport.{WalkSame};

use crate::force::forced_type;
use eh_bus::bus::Bus;
use eh_walk::laws::{
    forcings_same, going_on_same, reaches_leave_bytes, reaches_same, walks_same as all_walks_same,
};
use frame_check::Accepted;
use gnu_machine::laws::gnu_runs_same;
use sim_runs::{runs_guard, runs_same as all_runs_same};
use thread_laws::schedules_same;

/// From the start of an accepted image, over any bus with the start's memory, both machines make the same run. No store of it overwrites a
/// saved word of a live activation.
pub(crate) fn runs_same<B: Bus>(accepted: &Accepted, bus: &B)
    requires start { B.memory bus.now ≡ (start_of (program_of accepted.now)).memory }
    ensures same { RunSame accepted.now }
    ensures guarded { SlotsStay accepted.now }
{
    accepted.holds();
    let _ = accepted.image().functions();
    let _ = bus;
    all_runs_same();
    runs_guard();
}

/// From that start, the run to a site is the same in both machines, and so are the walks from where it stops.
pub(crate) fn walks_same<B: Bus>(accepted: &Accepted, bus: &B)
    requires start { B.memory bus.now ≡ (start_of (program_of accepted.now)).memory }
    ensures { WalkSame accepted.now }
{
    accepted.holds();
    let _ = accepted.image().functions();
    let _ = bus;
    reaches_same();
    all_walks_same();
}

/// From that start, the run to a site is the same in both machines. So are a forced unwinding from there and the run after it.
pub(crate) fn forces_same<B: Bus>(accepted: &Accepted, bus: &B)
    requires start { B.memory bus.now ≡ (start_of (program_of accepted.now)).memory }
    ensures { ForcesSame accepted.now }
{
    accepted.holds();
    let _ = accepted.image().functions();
    let _ty = forced_type(accepted.image());
    let _ = bus;
    reaches_same();
    reaches_leave_bytes();
    forcings_same();
    going_on_same();
}

/// From that start, the run that gives landing pads what GNU code expects is the same in both machines, whatever the filters are.
pub(crate) fn gnu_same<B: Bus>(accepted: &Accepted, filters: &[(u32, u32)], bus: &B)
    requires start { B.memory bus.now ≡ (start_of (program_of accepted.now)).memory }
    ensures { GnuSame filters.now accepted.now }
{
    accepted.holds();
    let _ = accepted.image().functions();
    let _ = bus;
    gnu_runs_same(filters);
}

/// From the start of an accepted image, over any bus with its segments, a run of threads is the same in both machines.
pub(crate) fn threads_same<B: Bus>(accepted: &Accepted, bus: &B)
    requires start { (B.memory bus.now).segments ≡ (start_of (program_of accepted.now)).memory.segments }
    ensures { ThreadsSame accepted.now }
{
    accepted.holds();
    let _ = accepted.image().functions();
    let _ = bus;
    schedules_same();
}
