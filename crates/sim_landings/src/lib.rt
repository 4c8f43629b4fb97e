//! The landing pads of one throw, along a run of an accepted image: its cleanups in order, and then its barrier (docs/inside/simulation.md).
#![tactic(auto)]

ghost use Rattle.sim_landings.specs.LandingLaws.{DueGoesOn, ThrowsLandInOrder, FlightsLandInOrder, ResumesLand, RunsLandInOrder, LandingsSame};

/// The end of a cleanup enters the landing pad that is due next for its exception. Every other event except a throw of that exception
/// leaves the pads that are due.
pub fn due_goes_on()
    ensures { DueGoesOn }
{}

/// The pads that a throw and its resumes enter, with the sp of each, are the throw's cleanups in order and then its barrier, as far as the
/// run goes.
pub fn throws_land_in_order()
    ensures { ThrowsLandInOrder }
{}

/// The same for any exception that flies to a barrier within reach, and for its resumes in a run from where it landed.
pub fn flights_land_in_order()
    ensures { FlightsLandInOrder }
{}

/// The end of a cleanup terminates a run only by an exception specification without a landing pad.
pub fn resumes_land()
    ensures { ResumesLand }
{}

/// All this holds in every state of a run of an accepted image, for every input and any number of events.
pub fn runs_land_in_order()
    ensures { RunsLandInOrder }
{}

/// The machine that unwinds the bytes of the stack lands at the same pads, with the same sp.
pub fn landings_same()
    ensures { LandingsSame }
{}
