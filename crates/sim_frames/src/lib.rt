//! Unwinding the bytes of the stack gives the frames of the recorded activations. A landing is in one of them, at its landing pad
//! (docs/inside/simulation.md).
#![tactic(auto)]

ghost use Rattle.sim_frames.specs.Frames.{FramesSame, ThrowsSeeAlike};
ghost use Rattle.sim_frames.specs.LandingLaws.{LandingsAreFound, PadsAreStoodAt};

/// At a site of a state that stands for a recorded one, unwinding the bytes gives the frames of the recorded activations. This holds with
/// and without the limit by the innermost cleanup in progress.
pub fn frames_same()
    ensures { FramesSame }
{}

/// A throw and a rethrow at a gate see the same frames in both machines.
pub fn throws_see_alike()
    ensures { ThrowsSeeAlike }
{}

/// The frame that phase 2 enters is that of one activation, and the saved words of those inside it lie below its sp.
pub fn landings_are_found()
    ensures { LandingsAreFound }
{}

/// The activation that a throw enters stands at the landing pad, and a state of facts there holds of its registers.
pub fn pads_are_stood_at()
    ensures { PadsAreStoodAt }
{}
