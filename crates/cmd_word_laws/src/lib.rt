//! Which words form which command, the lines of refusals, how sources are built, what a call answers, and what every call has done
//! (docs/guide/command-line.md), in letters and digits.
#![tactic(auto)]

ghost use Rattle.cmd_word_laws.specs.Answers.{AnswersAreReports};
ghost use Rattle.cmd_word_laws.specs.Builds.{BuildsAreInOrder};
ghost use Rattle.cmd_word_laws.specs.Calls.{CallsAreTold};
ghost use Rattle.cmd_word_laws.specs.Lines.{RefusalsAreWritten};
ghost use Rattle.cmd_word_laws.specs.Words.{WordsAreCommands};

/// Words form a command exactly if they have its form: its name, its files, and numbers in decimal digits within their bounds.
pub fn words_are_commands()
    ensures { WordsAreCommands }
{}

/// The line of each refusal, letter by letter: of sources, objects, links, images, indexes, functions and types.
pub fn refusals_are_written()
    ensures { RefusalsAreWritten }
{}

/// Sources are read, assembled, linked with `_start` and written. Each step is done for all of them, with the stubs last; the first refusal
/// of a step gives the line.
pub fn builds_are_in_order()
    ensures { BuildsAreInOrder }
{}

/// A call whose status isn't 7, 8 or 9 wrote a whole report of its words, returned its status, and left of the input what the report says.
pub fn answers_are_reports()
    ensures { AnswersAreReports }
{}

/// However a call ended, it wrote nothing or the first bytes of a report. Statuses 7, 8 and 9 have their causes; if nothing failed, all was
/// done or memory was lacking. Status 10 comes of a named file that is missing or too long, and 3 of one that is refused, whatever the
/// input is. Each file was asked for once, in the order of the names.
pub fn calls_are_told()
    ensures { CallsAreTold }
{}
