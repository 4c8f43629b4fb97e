//! The commands of `ehabi_run`, over any files, input and output (docs/guide/command-line.md).
#![tactic(auto)]

ghost use Rattle.cmd_perform.specs.Report.{Does};
ghost use Rattle.cmd_answers.specs.Words.{texts};
ghost use Rattle.cmd_input.specs.Words.{command_of};
ghost use Rattle.cmd_answers.specs.Files.{file_state};
ghost use Rattle.cmd_perform.specs.Yields.{streams};

mod answer;
mod build;
mod check;
mod flat;
mod force;
mod generated;
mod gnu;
mod recorded;
mod run;
mod summary;
mod threads;
mod walk;

use build::build;
use check::{check_file, check_sources};
use cmd_answers::Stop;
use cmd_answers::answer::answer_text;
use cmd_answers::status::USAGE;
use cmd_input::words::{CommandForm, form_of};
use eh_port::{Files, Sink, Source};
use flat::flat;
use generated::count_program;
use gnu::gnu;
use run::{run, run_sources};
pub use run_flat::flat_run;
use std::alloc::Global;
use threads::threads;
pub use walk::MOST_FRAMES;

/// Does what the words ask for. What it writes is the report of their command, or a first part of it together with the cause why it
/// stopped.
pub fn perform<F: Files, I: Source, O: Sink>(
    alloc: Global,
    words: &[&str],
    files: &mut F,
    input: &mut I,
    out: &mut O,
) -> Result<u8, Stop>
    ensures { Does (command_of (texts words.now)) (file_state (F.held files.old) (F.faults files.old) (F.asked files.old) F.with_name) (file_state (F.held files.new) (F.faults files.new) (F.asked files.new) F.with_name)
        (streams (I.left input.old) (I.faults input.old) (O.written out.old) (O.faults out.old))
        (streams (I.left input.new) (I.faults input.new) (O.written out.new) (O.faults out.new)) result }
{
    match form_of(words) {
        None => answer_text(
            out,
            b"usage: ehabi_run flat FILE N | build FILE.. | check FILE.. | run FILE.. N | gen K M | walk FILE.. N | force FILE.. N K | gnu FILE N | threads FILE.. SCHED N\n",
            USAGE,
        ),
        Some(CommandForm::Flat(name, budget)) => flat(alloc, name, budget, files, input, out),
        Some(CommandForm::Build(names)) => build(alloc, names, files, out),
        Some(CommandForm::Check(name)) => check_file(alloc, name, files, out),
        Some(CommandForm::CheckSources(names)) => check_sources(alloc, names, files, out),
        Some(CommandForm::Run(name, request)) => run(alloc, name, request, files, input, out),
        Some(CommandForm::RunSources(names, request)) => {
            run_sources(alloc, names, request, files, input, out)
        }
        Some(CommandForm::Gnu(name, budget)) => gnu(alloc, name, budget, files, input, out),
        Some(CommandForm::Threads(names, budget)) => threads(
            alloc, names, budget, files, input, out,
        ),
        Some(CommandForm::Generate(number, functions)) => count_program(
            alloc, number, functions, out,
        ),
    }
}
