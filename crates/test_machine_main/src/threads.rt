//! Threads that are started and run by schedules, with their output (docs/guide/walks-and-threads.md). In a row `|` stands for a line feed.
use eh_port::MemSink;
use eh_threads::{Thread, Threads};
use eh_trace::trace_lines;
use frame_check::Accepted;
use mem_buses::paged::PagedBus;
use std::alloc::{AllocError, Global};
use test_machine::desk::{sink, source};
use test_machine::{Commanded, answers};
use test_rows::{Unanswered, decimal, first_word};
use thread_memory::THREADS;
use thread_schedule::{ScheduleFault, read_schedule, tag_lines};
use thumb_core::ends::End;

/// The byte that stands for a line feed.
const BAR: u8 = b'|';

/// The bytes of a text, with bars replaced by line feeds.
fn with_line_feeds(alloc: Global, text: &str) -> Result<Vec<u8>, Unanswered> {
    let mut bytes = Vec::new(alloc);
    for byte in text.as_bytes() {
        bytes.push(if *byte == BAR { b'\n' } else { *byte })?;
    }
    Ok(bytes)
}

/// A text with line feeds replaced by bars.
fn with_bars(alloc: Global, bytes: &[u8]) -> Result<String, Unanswered> {
    let mut text = String::new(alloc);
    for byte in bytes {
        text.push(if *byte == b'\n' {
            '|'
        } else {
            char::from(*byte)
        })?;
    }
    Ok(text)
}

/// How a run ended; an exit status is decimal.
fn end_text(alloc: Global, end: End) -> Result<String, AllocError> {
    match end {
        End::Exit(number) => format!(in alloc; "exit {number}"),
        End::Budget => format!(in alloc; "budget"),
        End::Terminate(_) | End::Trap(..) | End::ReadFault | End::WriteFault => answers::end(
            alloc, end,
        ),
    }
}

/// A thread's pc, sp, lr and r0, and whether it runs or which number it ended with.
fn thread_text(alloc: Global, thread: &Option<Thread>) -> Result<String, AllocError> {
    let Some(thread) = thread else {
        return format!(in alloc; "never started");
    };
    let regs = thread.core.regs;
    let pc = regs.pc;
    let sp = regs.r[13];
    let lr = regs.r[14];
    let r0 = regs.r[0];
    match thread.ended {
        None => format!(in alloc; "{pc:X} sp {sp:X} lr {lr:X} r0 {r0:X}, runs"),
        Some(number) => format!(in alloc;
            "{pc:X} sp {sp:X} lr {lr:X} r0 {r0:X}, ended with {number}"
        ),
    }
}

/// Threads of an accepted image, and their output.
#[derive(Drop)]
struct Turns<'c> {
    threads: Threads<'c, PagedBus>,
    out: MemSink,
}

impl<'c> Turns<'c> {
    /// The start of a run.
    fn start(alloc: Global, accepted: &'c Accepted<'c>) -> Result<Turns<'c>, Unanswered> {
        match Threads::start(alloc, accepted) {
            Ok(threads) => Ok(Turns {
                threads,
                out: sink(alloc),
            }),
            Err(_fault) => Err(Unanswered::from(AllocError)),
        }
    }

    /// Runs at most so many elements of a schedule, with an empty input.
    fn run(&mut self, alloc: Global, text: &str, budget: u32) -> Result<End, Unanswered> {
        let bytes = with_line_feeds(alloc, text)?;
        let schedule = match read_schedule(alloc, bytes.as_slice()) {
            Ok(schedule) => schedule,
            Err(ScheduleFault::BadSchedule(_)) => {
                return Err(Unanswered::Because("no schedule"));
            }
            Err(ScheduleFault::OutOfMemory) => return Err(Unanswered::from(AllocError)),
        };
        let mut input = source(alloc);
        let budget = u64::from(budget);
        Ok(
            self.threads
                .run_schedule(schedule.as_slice(), budget, &mut input, &mut self.out),
        )
    }

    /// The lines of the trace, each with its thread in front.
    fn trace(&self, alloc: Global) -> Result<String, Unanswered> {
        let accepted = self.threads.accepted;
        let text = match trace_lines(
            alloc,
            accepted.image(),
            accepted.types(),
            &self.threads.events,
        ) {
            Ok(text) => text,
            Err(_fault) => return Err(Unanswered::from(AllocError)),
        };
        let tags = self.threads.tags.as_slice();
        if tags.iter().any(|tag| *tag >= 10) {
            return Err(Unanswered::NotNumber);
        }
        match tag_lines(alloc, text.as_slice(), tags) {
            Ok(lines) => with_bars(alloc, lines.as_slice()),
            Err(_fault) => Err(Unanswered::from(AllocError)),
        }
    }

    /// The output, a line feed, the trace, and how the last run ended.
    fn report(&self, alloc: Global, end: End) -> Result<String, Unanswered> {
        let mut text = with_bars(alloc, self.out.written.as_slice())?;
        text.push('|')?;
        text.push_str(self.trace(alloc)?.as_str())?;
        text.push_str(end_text(alloc, end)?.as_str())?;
        Ok(text)
    }

    /// The state of the thread with a number.
    fn stands(&self, alloc: Global, number: usize) -> Result<String, Unanswered> {
        if number < THREADS {
            return Ok(thread_text(alloc, &self.threads.threads[number])?);
        }
        Err(Unanswered::NotKnown)
    }
}

/// `run SCHEDULE N`: how the run ended. `report SCHEDULE N`: the same, with the output and the trace. `thread NUMBER`: the state of a
/// thread.
fn answer(alloc: Global, turns: &mut Turns, what: &str, rest: &str) -> Result<String, Unanswered> {
    let (first, second) = first_word(rest);
    match what {
        "run" => {
            let end = turns.run(alloc, first, decimal(second)?)?;
            Ok(end_text(alloc, end)?)
        }
        "report" => {
            let end = turns.run(alloc, first, decimal(second)?)?;
            turns.report(alloc, end)
        }
        "thread" => turns.stands(alloc, decimal(first)? as usize),
        _ => Err(Unanswered::NotKnown),
    }
}

/// Rows about threads that run by a schedule.
pub struct Threading;

impl Commanded for Threading {
    /// The answer to the last command.
    fn answer_over(
        &self,
        alloc: Global,
        accepted: &Accepted,
        commands: &str,
    ) -> Result<String, Unanswered> {
        let mut turns = Turns::start(alloc, accepted)?;
        let mut said = String::new(alloc);
        for command in commands.split("; ") {
            let (what, rest) = first_word(command);
            said = answer(alloc, &mut turns, what, rest)?;
        }
        Ok(said)
    }
}
