//! The report of an accepted image's run is unique; what reports say last; what the report of each command consists of; and the limits and
//! statuses of the command line, in digits (docs/guide/command-line.md).
#![tactic(auto)]

ghost use Rattle.cmd_report_laws.specs.Commands.{CommandsAreTold};
ghost use Rattle.cmd_report_laws.specs.Numbers.{CommandNumbers};
ghost use Rattle.cmd_report_laws.specs.OneReport.{ReportsAreOne, ThreadsAreOne, CountsAreOne, RefusalsAreOne};
ghost use Rattle.cmd_report_laws.specs.Written.{ReportsAreWritten};

use sim_runs::one_report::programs_are_one;

/// `run`, `walk` and `force` each have exactly one report for an accepted image, a budget and an input.
pub fn reports_are_one()
    ensures { ReportsAreOne }
{
    programs_are_one();
}

/// `threads` has exactly one report for an accepted image, a schedule, a number of elements and an input.
pub fn threads_are_one()
    ensures { ThreadsAreOne }
{
    programs_are_one();
}

/// `gen` has exactly one report for the image that it builds.
pub fn counts_are_one()
    ensures { CountsAreOne }
{
    programs_are_one();
}

/// Whether the unwinding of `force` is refused depends only on the accepted image, the budget and the input.
pub fn refusals_are_one()
    ensures { RefusalsAreOne }
{
    programs_are_one();
}

/// The last line and the status of each report, in letters and digits: of a run, a walk, a forced unwinding, a run of threads, raw code and
/// a generated program, by how it ended. Also of words of no form, of missing and too long files, of a built image and of an accepted one.
/// Those of an accepted image hold for the machine over bytes and, on an input of bytes, for the one with recorded activations.
pub fn reports_are_written()
    ensures { ReportsAreWritten }
{}

/// What the report of each command says, given its files and the bytes that it works on: bytes that are no image, an image that isn't
/// accepted, and an accepted one.
pub fn commands_are_told()
    ensures { CommandsAreTold }
{
    reports_are_written();
}

/// The limits of files, of the budget and of the words, and the statuses, in digits.
pub fn command_numbers()
    ensures { CommandNumbers }
{}
