//! The grammar of the command line's words.
ghost use Rattle.std.specs.Borrow.{Bor};
ghost use Rattle.std.specs.Prelude.{◌≡◌, ◌≤◌, ◌&&◌, ℕ, List, option_map};
ghost use Rattle.cmd_input.specs.Words.{command, number_of, budget_of, program_number, program_functions, is_source, are_sources, flat_command, build_command, image_name, check_command, files_command, run_command, frame_number, force_command, gnu_command, is_schedule, are_program, thread_files, threads_command, gen_command, command_of};
ghost use Rattle.cmd_answers.specs.Words.{texts};

use eh_kit::MAX_FUNCTIONS;

/// The greatest budget of instructions for a run.
pub const MOST_INSTRUCTIONS: u64 = 1_000_000_000;

/// The greatest number of sources of a command.
pub const MOST_SOURCES: usize = 16;

/// The greatest number of digits in a number.
pub const MOST_DIGITS: usize = 10;

/// The greatest number of a generated program.
pub const MOST_NUMBER: u64 = 4_294_967_295;

/// The greatest number of digits in the number of functions of a generated program.
pub const MOST_FUNCTION_DIGITS: usize = 4;

/// The greatest number of digits in the number of a frame.
pub const MOST_FRAME_DIGITS: usize = 4;

/// What an accepted image is run for.
#[derive(Clone, Copy)]
pub enum Task {
    /// `run`: only run it.
    Run,
    /// `walk`: run it on to a site, and write the frames from there.
    Walk,
    /// `force`: run it on to a site, unwind it by force to the frame of this number (0 is the innermost), and go on.
    Force(usize),
}

/// A request on an accepted image.
#[derive(Clone, Copy)]
pub struct Request {
    /// What it is run for.
    pub task: Task,
    /// How many instructions may run. For `walk` and `force`: how many run before it goes on to a site.
    pub budget: u64,
}

/// The command that the words ask for.
#[derive(Clone, Copy)]
pub enum CommandForm<'a> {
    /// `flat FILE N`: the file name and the budget.
    Flat(&'a str, u64),
    /// `build FILE..`: the names of the sources.
    Build(&'a [&'a str]),
    /// `check FILE`: the name of the image.
    Check(&'a str),
    /// `check FILE..`: the names of the sources.
    CheckSources(&'a [&'a str]),
    /// `run FILE N`, `walk FILE N` and `force FILE N K`: the name of the image and the request.
    Run(&'a str, Request),
    /// `run FILE.. N`, `walk FILE.. N` and `force FILE.. N K`: the names of sources, and what is asked of the image built from them.
    RunSources(&'a [&'a str], Request),
    /// `gnu FILE N`: the name of an image with GNU C++ unwind tables, and how many instructions may run.
    Gnu(&'a str, u64),
    /// `threads FILE.. SCHED N`: the names of a program's files and, last, of a schedule; and how many elements of it may be done.
    Threads(&'a [&'a str], u64),
    /// `gen K M`: the number of the generated program, and how many functions it shall have.
    Generate(u32, u32),
}

// The number that decimal digits give: at least one digit, and at most `most`.
#[tactic(auto, unfolding(crate::specs::Words::number_of))]
fn number_of(most: usize, word: &str) -> Option<u64>
    requires { most ≤ MOST_DIGITS }
    ensures { result ≡ number_of most word.now }
{
    let digits = word.as_bytes();
    if digits.is_empty() || digits.len() > most {
        return None;
    }
    let mut number = 0u64;
    for digit in digits {
        if !digit.is_ascii_digit() {
            return None;
        }
        number = number * 10 + u64::from(*digit - b'0');
    }
    Some(number)
}

#[tactic(auto, unfolding(crate::specs::Words::budget_of))]
fn budget_of(word: &str) -> Option<u64>
    ensures { result ≡ budget_of word.now }
{
    let budget = number_of(MOST_DIGITS, word)?;
    if budget < 1 || budget > MOST_INSTRUCTIONS {
        return None;
    }
    Some(budget)
}

// `flat FILE N`, without the first word.
#[tactic(auto, unfolding(crate::specs::Words::flat_command))]
fn flat_form<'a>(words: &[&'a str]) -> Option<CommandForm<'a>>
    ensures { option_map command result ≡ flat_command (texts words.now) }
{
    match words {
        [name, number] => {
            if name.is_empty() {
                return None;
            }
            Some(CommandForm::Flat(name, budget_of(number)?))
        }
        _ => None,
    }
}

/// Whether a name is that of a source: it ends in `.s`.
pub fn is_source(name: &str) -> bool
    ensures { result ≡ is_source name.now }
{
    name.as_bytes().ends_with(b".s")
}

// Whether these are 1 to 16 names of sources.
#[tactic(auto, unfolding(crate::specs::Words::are_sources))]
fn are_sources(names: &[&str]) -> bool
    ensures { result ≡ are_sources (texts names.now) }
{
    if names.is_empty() || names.len() > MOST_SOURCES {
        return false;
    }
    for name in names {
        if !is_source(name) {
            return false;
        }
    }
    true
}

// `build FILE..`, without the first word.
#[tactic(auto, unfolding(crate::specs::Words::build_command))]
fn build_form<'a>(words: &'a [&'a str]) -> Option<CommandForm<'a>>
    ensures { option_map command result ≡ build_command (texts words.now) }
{
    if !are_sources(words) {
        return None;
    }
    Some(CommandForm::Build(words))
}

// The only name, if there is one and it isn't empty.
fn image_name<'a>(names: &[&'a str]) -> Option<&'a str>
    ensures { option_map (λ (name : Bor (List ℕ)). name.now) result ≡ image_name (texts names.now) }
{
    match names {
        [name] if !name.is_empty() => Some(*name),
        _ => None,
    }
}

// `check FILE..`, without the first word: sources, or one image.
#[tactic(auto, unfolding(crate::specs::Words::check_command))]
fn check_form<'a>(names: &'a [&'a str]) -> Option<CommandForm<'a>>
    ensures { option_map command result ≡ check_command (texts names.now) }
{
    if are_sources(names) {
        return Some(CommandForm::CheckSources(names));
    }
    Some(CommandForm::Check(image_name(names)?))
}

// The files of a run: sources, or one image.
#[tactic(auto, unfolding(crate::specs::Words::files_command))]
fn files_form<'a>(names: &'a [&'a str], request: Request) -> Option<CommandForm<'a>>
    ensures { option_map command result ≡ files_command (texts names.now) request }
{
    if are_sources(names) {
        return Some(CommandForm::RunSources(names, request));
    }
    Some(CommandForm::Run(image_name(names)?, request))
}

// `run FILE.. N` and `walk FILE.. N` without the first word, and `force FILE.. N K` without the first and the last. `task` says which.
#[tactic(auto, unfolding(crate::specs::Words::run_command))]
fn run_form<'a>(task: Task, words: &'a [&'a str]) -> Option<CommandForm<'a>>
    ensures { option_map command result ≡ run_command task (texts words.now) }
{
    let (number, names) = words.split_last()?;
    let budget = budget_of(number)?;
    files_form(names, Request { task, budget })
}

// The number of a frame.
#[tactic(auto, unfolding(crate::specs::Words::frame_number))]
fn frame_number(word: &str) -> Option<usize>
    ensures { result ≡ frame_number word.now }
{
    let number = number_of(MOST_FRAME_DIGITS, word)?;
    Some(number as usize)
}

// `force FILE.. N K`, without the first word.
#[tactic(auto, unfolding(crate::specs::Words::force_command))]
fn force_form<'a>(words: &'a [&'a str]) -> Option<CommandForm<'a>>
    ensures { option_map command result ≡ force_command (texts words.now) }
{
    let (word, rest) = words.split_last()?;
    let number = frame_number(word)?;
    run_form(Task::Force(number), rest)
}

// `gnu FILE N`, without the first word.
#[tactic(auto, unfolding(crate::specs::Words::gnu_command))]
fn gnu_form<'a>(words: &[&'a str]) -> Option<CommandForm<'a>>
    ensures { option_map command result ≡ gnu_command (texts words.now) }
{
    match words {
        [name, number] => {
            if name.is_empty() || is_source(name) {
                return None;
            }
            Some(CommandForm::Gnu(name, budget_of(number)?))
        }
        _ => None,
    }
}

// Whether a name is that of a schedule: it ends in `.sched`.
fn is_schedule(name: &str) -> bool
    ensures { result ≡ is_schedule name.now }
{
    name.as_bytes().ends_with(b".sched")
}

// Whether these are the names of a program's files: of sources, or of one image.
#[tactic(auto, unfolding(crate::specs::Words::are_program))]
fn are_program(names: &[&str]) -> bool
    ensures { result ≡ are_program (texts names.now) }
{
    are_sources(names) || image_name(names).is_some()
}

// Whether these are the name of a schedule and the names of a program's files.
fn are_thread_files(schedule: &str, program: &[&str]) -> bool
    ensures { result ≡ (is_schedule schedule.now && are_program (texts program.now)) }
{
    is_schedule(schedule) && are_program(program)
}

// The files of `threads`: those of a program, and last a schedule.
#[tactic(auto, unfolding(crate::specs::Words::thread_files))]
fn threads_files_form<'a>(names: &'a [&'a str], budget: u64) -> Option<CommandForm<'a>>
    ensures { option_map command result ≡ thread_files (texts names.now) budget }
{
    let (schedule, program) = names.split_last()?;
    if are_thread_files(schedule, program) {
        Some(CommandForm::Threads(names, budget))
    } else {
        None
    }
}

// `threads FILE.. SCHED N`, without the first word.
#[tactic(auto, unfolding(crate::specs::Words::threads_command))]
fn threads_form<'a>(words: &'a [&'a str]) -> Option<CommandForm<'a>>
    ensures { option_map command result ≡ threads_command (texts words.now) }
{
    let (number, names) = words.split_last()?;
    let budget = budget_of(number)?;
    threads_files_form(names, budget)
}

// The number of a generated program.
#[tactic(auto, unfolding(crate::specs::Words::program_number))]
fn program_number(word: &str) -> Option<u32>
    ensures { result ≡ program_number word.now }
{
    let number = number_of(MOST_DIGITS, word)?;
    if number > MOST_NUMBER {
        return None;
    }
    Some(number as u32)
}

// The number of functions of a generated program.
#[tactic(auto, unfolding(crate::specs::Words::program_functions))]
fn program_functions(word: &str) -> Option<u32>
    ensures { result ≡ program_functions word.now }
{
    let functions = number_of(MOST_FUNCTION_DIGITS, word)?;
    if functions < 1 || functions > MAX_FUNCTIONS as u64 {
        return None;
    }
    Some(functions as u32)
}

// `gen K M`, without the first word.
#[tactic(auto, unfolding(crate::specs::Words::gen_command))]
fn gen_form<'a>(words: &[&'a str]) -> Option<CommandForm<'a>>
    ensures { option_map command result ≡ gen_command (texts words.now) }
{
    match words {
        [number, functions] => {
            let program = program_number(number)?;
            Some(CommandForm::Generate(program, program_functions(functions)?))
        }
        _ => None,
    }
}

/// The command that these words form. None if they form none.
#[tactic(auto, unfolding(crate::specs::Words::command_of))]
pub fn form_of<'a>(words: &'a [&'a str]) -> Option<CommandForm<'a>>
    ensures { option_map command result ≡ command_of (texts words.now) }
{
    let (first, rest) = words.split_first()?;
    match *first {
        "flat" => flat_form(rest),
        "build" => build_form(rest),
        "check" => check_form(rest),
        "run" => run_form(Task::Run, rest),
        "gen" => gen_form(rest),
        "walk" => run_form(Task::Walk, rest),
        "force" => force_form(rest),
        "gnu" => gnu_form(rest),
        "threads" => threads_form(rest),
        _ => None,
    }
}
