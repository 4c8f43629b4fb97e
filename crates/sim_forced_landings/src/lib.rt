//! The landing pads of a forced unwinding, along a run of an accepted image (docs/guide/walks-and-threads.md, "What is proved").
#![tactic(auto)]

ghost use Rattle.sim_forced_landings.specs.Forcings.{ForcingsLandInOrder};

use sim_landings::flights_land_in_order;

/// A forced unwinding and its resumes enter the cleanups on the way to its stop, in order, and then the stop's pad, as far as the run goes.
/// This is said of the pads and of the sp at each.
pub fn forcings_land_in_order()
    ensures { ForcingsLandInOrder }
{
    flights_land_in_order();
}
