//! The checker's report of an accepted image is unique, and so is the program that a run sees (docs/rules/acceptance.md, "Laws").

ghost use Rattle.sim_runs.specs.OneReport.{AnswersAreOne, ProgramsAreOne};

use eh_types::laws::roots_mean_one_graph;
use frame_reach::laws::marks_exist;

/// Two reports of one image have the same types, and the same answers at every address.
pub fn answers_are_one()
    ensures { AnswersAreOne }
{
    roots_mean_one_graph();
    marks_exist();
}

/// All runs of an accepted image see the same program.
pub fn programs_are_one()
    ensures { ProgramsAreOne }
{
    answers_are_one();
}
