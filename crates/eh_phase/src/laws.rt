//! What the two phases guarantee each other, as laws of lists of frames (docs/rules/phases-and-exceptions.md, "Laws").
ghost use Rattle.eh_phase.specs.Laws.{FramesAreWhole, SitesStandInCalls, FramesRise, SpecificationsNameTypes, VerdictsAreFirst, InnermostDecides, RegistersAreHandedOn, BarriersAreReached, BarriersStandOutside, CleanupsGoOn, PadsAreInOrder};

/// The bound on the number of frames never cuts a list of frames short: the frames outside a frame are those that its registers give
/// under the same bound.
pub fn frames_are_whole()
    ensures { FramesAreWhole }
{}

/// The site of a frame that has called lies inside its call instruction, not after it.
pub fn sites_stand_in_calls()
    ensures { SitesStandInCalls }
{}

/// Each frame's stack pointer is above that of the frame inside it, and none is above the stack's end or the limit. The second frame
/// may have the same stack pointer as the innermost.
pub fn frames_rise()
    ensures { FramesRise }
{}

/// An exception specification stops an object if and only if none of its types matches. It passes an object of a type that it names.
pub fn specifications_name_types()
    ensures { SpecificationsNameTypes }
{}

/// The verdict of a frame is that of its first descriptor that has one. A frame has none if none of its descriptors has one.
pub fn verdicts_are_first()
    ensures { VerdictsAreFirst }
{}

/// The innermost frame with a verdict decides what phase 1 finds. If there is none, the reason why the frames end decides.
pub fn innermost_decides()
    ensures { InnermostDecides }
{}

/// The phases choose a frame by sites, stack pointers and descriptors alone, and return the registers of the frame that they choose.
pub fn registers_are_handed_on()
    ensures { RegistersAreHandedOn }
{}

/// From the barrier that phase 1 found, phase 2 enters the first of the throw's cleanups, or the barrier. It never terminates the
/// throw, and it looks at no frame outside the barrier's.
pub fn barriers_are_reached()
    ensures { BarriersAreReached }
{}

/// A barrier that can be reached is in the first frame or outside it. What phase 2 enters on the way is in the barrier's frame or
/// inside it.
pub fn barriers_stand_outside()
    ensures { BarriersStandOutside }
{}

/// After phase 2 entered a cleanup, the rest of the throw goes on in that frame, from the descriptor after the cleanup's. A barrier
/// that could be reached before still can.
pub fn cleanups_go_on()
    ensures { CleanupsGoOn }
{}

/// Suppose that phase 1 found a barrier, phase 2 is repeated from each cleanup that it enters, and nothing changes in between. Then it
/// enters these landing pads in order: the cleanups in scope of the frames inside the barrier's; those of the barrier's frame before
/// the barrier; the barrier.
pub fn pads_are_in_order()
    ensures { PadsAreInOrder }
{}
