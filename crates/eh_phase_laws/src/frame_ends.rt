//! Why the frames of a throw end (docs/rules/phases-and-exceptions.md, "Frames").
ghost use Rattle.eh_phase_laws.specs.FrameEnds.{FramesEnd, UncoveredEnds};

/// The reasons in order: there are no unwind instructions, or they don't finish; the stack pointer can't be a frame's; it is above the
/// limit; the return address is FFFFFFFF. If none holds, the frames of the caller follow.
pub fn frames_end_by_cause()
    ensures uncovered { UncoveredEnds }
    ensures covered { FramesEnd }
{}
