//! Walks, forced unwinding and the run up to them are the same with recorded activations (docs/guide/walks-and-threads.md, "What is proved").
ghost use Rattle.eh_walk.specs.Laws.{WalksSame, ForcingsSame, ReachesSame, ReachesLeaveBytes, GoingOnSame};

/// On an accepted image, states of both machines that stand for each other have the same walks.
pub fn walks_same()
    ensures { WalksSame }
{}

/// On an accepted image, forced unwinding does the same from states of both machines that stand for each other, and leaves states that do.
pub fn forcings_same()
    ensures { ForcingsSame }
{}

/// On an accepted image and an input of bytes, the run from the start to a site is the same in both machines. The states that it leaves
/// stand for each other.
pub fn reaches_same()
    ensures { ReachesSame }
{}

/// What such a run leaves of its input are bytes.
pub fn reaches_leave_bytes()
    ensures { ReachesLeaveBytes }
{}

/// On an accepted image and an input of bytes, runs of any length from states of both machines that stand for each other are the same.
pub fn going_on_same()
    ensures { GoingOnSame }
{}
