//! Walks and forced unwinding of a machine whose registers were changed (docs/guide/walks-and-threads.md). Numbers are hexadecimal.
use eh_trace::EventKind;
use eh_walk::{Backtrace, ForceFault, WalkFrame, backtrace, force};
use frame_check::Accepted;
use std::alloc::{AllocError, Global};
use test_machine::desk::Desk;
use test_machine::{Commanded, answers};
use test_rows::{Unanswered, first_word, number_at, numbers};

/// The walk from the machine's state, of at most so many frames.
fn walk_from_desk(alloc: Global, desk: &Desk, most: u32) -> Result<Backtrace, Unanswered> {
    let machine = &desk.machine;
    match backtrace(
        alloc,
        machine.accepted,
        &machine.core,
        &machine.shared,
        most as usize,
    ) {
        Ok(walk) => Ok(walk),
        Err(_fault) => Err(Unanswered::from(AllocError)),
    }
}

/// The address of the type of int; 0 if the image has none.
fn int_of(desk: &Desk) -> u32 {
    desk.machine.accepted.image().symbol(b"_ZTIi").unwrap_or(0)
}

/// Unwinds by force to the frame of a number.
fn unwind_to(desk: &mut Desk, number: u32, ty: u32) -> Result<(), ForceFault> {
    let machine = &mut desk.machine;
    force(
        machine.accepted,
        &mut machine.core,
        &mut machine.shared,
        &mut machine.events,
        number as usize,
        ty,
    )
}

/// The state of a machine: pc, sp, r0, and the number of throws.
fn place_text(alloc: Global, desk: &Desk) -> Result<String, AllocError> {
    let (pc, sp, r0) = (desk.reg(15), desk.reg(13), desk.reg(0));
    let throws = desk.machine.events.total(EventKind::Throw);
    format!(in alloc; "{pc:X} sp {sp:X} r0 {r0:X}, {throws}")
}

/// The state of a machine after a forced unwinding, or why it was refused.
fn force_text(alloc: Global, desk: &mut Desk, number: u32, ty: u32) -> Result<String, AllocError> {
    match unwind_to(desk, number, ty) {
        Ok(()) => place_text(alloc, desk),
        Err(fault) => format!(in alloc; "{fault:?}"),
    }
}

/// The same, with the type int.
fn forced_to_int(alloc: Global, desk: &mut Desk, number: u32) -> Result<String, AllocError> {
    let int = int_of(desk);
    force_text(alloc, desk, number, int)
}

fn frame_text(alloc: Global, frame: &WalkFrame) -> Result<String, AllocError> {
    let WalkFrame { site, sp, regs } = *frame;
    let [r4, ..] = regs;
    format!(in alloc; "{site:X} sp {sp:X} r4 {r4:X}")
}

/// Each frame, and why there are no more.
fn all_text(alloc: Global, walk: &Backtrace) -> Result<String, AllocError> {
    let mut text = String::new(alloc);
    for frame in walk.frames.as_slice() {
        text.push_str(frame_text(alloc, frame)?.as_str())?;
        text.push_str(", ")?;
    }
    let end = walk.end;
    text.push_str(format!(in alloc; "{end:?}")?.as_str())?;
    Ok(text)
}

/// The number of frames, the last of them, and why there are no more.
fn count_text(alloc: Global, walk: &Backtrace) -> Result<String, AllocError> {
    let frames = walk.frames.as_slice();
    let count = frames.len();
    let end = walk.end;
    match frames.last() {
        None => format!(in alloc; "{count:X}, {end:?}"),
        Some(last) => {
            let last = frame_text(alloc, last)?;
            format!(in alloc; "{count:X}, {last}, {end:?}")
        }
    }
}

/// Runs so many events; has no answer.
fn run_on(alloc: Global, desk: &mut Desk, budget: u32) -> Result<String, AllocError> {
    desk.go(alloc, u64::from(budget));
    Ok(answers::nothing(alloc))
}

/// Sets a register; has no answer.
fn set_register(
    alloc: Global,
    desk: &mut Desk,
    number: u32,
    value: u32,
) -> Result<String, AllocError> {
    desk.set_reg(number, value);
    Ok(answers::nothing(alloc))
}

/// `run N`, `reg NUMBER VALUE`, `walk MOST`, `count MOST`, `force NUMBER`, `force-type NUMBER TYPE` or `stands`. The first two have no
/// answer.
fn answer(alloc: Global, desk: &mut Desk, what: &str, given: &[u32]) -> Result<String, Unanswered> {
    if what == "stands" {
        return Ok(place_text(alloc, desk)?);
    }
    let first = number_at(given, 0)?;
    let text = match what {
        "walk" => all_text(alloc, &walk_from_desk(alloc, desk, first)?),
        "count" => count_text(alloc, &walk_from_desk(alloc, desk, first)?),
        "force" => forced_to_int(alloc, desk, first),
        "force-type" => force_text(alloc, desk, first, number_at(given, 1)?),
        "run" => run_on(alloc, desk, first),
        "reg" => set_register(alloc, desk, first, number_at(given, 1)?),
        _ => return Err(Unanswered::NotKnown),
    };
    Ok(text?)
}

/// Rows about walks.
pub struct Walking;

impl Commanded for Walking {
    /// The answer to the last command.
    fn answer_over(
        &self,
        alloc: Global,
        accepted: &Accepted,
        commands: &str,
    ) -> Result<String, Unanswered> {
        let mut desk = Desk::start(alloc, accepted)?;
        let mut said = String::new(alloc);
        for command in commands.split("; ") {
            let (what, rest) = first_word(command);
            let given = numbers(alloc, rest)?;
            said = answer(alloc, &mut desk, what, given.as_slice())?;
        }
        Ok(said)
    }
}
