//! Laws of the marks and the prologue of every function. docs/rules/acceptance.md, "Reached places"; docs/rules/acceptance.md, "The prologue".
ghost use Rattle.frame_reach.specs.Laws.{MarksExist, MarksAgree, PlacesAreCounted, TargetsAreReached, OthersAreAfter, PrologueIsTheLongestRun, RunsAreReached, NoTargetInThePrologue, NoLoweringInThePrologue};

/// Every function has marks, however large it is.
pub fn marks_exist()
    ensures { MarksExist }
{}

/// The marks of a function are unique, and so is its prologue.
pub fn marks_agree()
    ensures { MarksAgree }
{}

/// More places are reached than a function may have if and only if there is a list of reached places, each once, that is longer than
/// the limit.
pub fn places_are_counted()
    ensures { PlacesAreCounted }
{}

/// Every target of a reached branch, and every landing pad, is reached.
pub fn targets_are_reached()
    ensures { TargetsAreReached }
{}

/// A reached place is the entry, or a target, or follows a reached instruction that can go on to it.
pub fn others_are_after()
    ensures { OthersAreAfter }
{}

/// The prologue is a run of consecutive instructions from the entry on, all of them allowed in a prologue and none of them a target.
/// The next instruction isn't allowed, or is a target, or doesn't exist.
pub fn prologue_is_the_longest_run()
    ensures { PrologueIsTheLongestRun }
{}

/// Every instruction of a prologue is reached.
pub fn runs_are_reached()
    ensures { RunsAreReached }
{}

/// No target of a reached branch and no landing pad lies in the prologue.
pub fn no_target_in_the_prologue()
    ensures { NoTargetInThePrologue }
{}

/// No instruction of a prologue is a lowering place: the prologue ends before the first one.
pub fn no_lowering_in_the_prologue()
    ensures { NoLoweringInThePrologue }
{}
