//! The commands that a machine can be given, one after the other. A number is hexadecimal, the name of a symbol, or A/N: the address of
//! word N of the table for the function at A.
use crate::code::{symbol, table_of};
use crate::desk::Desk;
use crate::{answers, hostile, landing, stacks, stops, witness};
use eh_cxa::Globals;
use eh_machine::Turned;
use frame_check::Accepted;
use std::alloc::Global;
use test_rows::{Unanswered, first_word, number};

/// The number that a word means.
fn value(code: &Accepted, word: &str) -> Result<u32, Unanswered> {
    if word.starts_with('_') {
        return symbol(code, word);
    }
    match word.split_once('/') {
        Some((site, place)) => {
            let table = table_of(code, number(site)?)?;
            Ok(table.wrapping_add(number(place)?.wrapping_mul(4)))
        }
        None => number(word),
    }
}

/// The numbers that words mean.
fn values(alloc: Global, code: &Accepted, words: &str) -> Result<Vec<u32>, Unanswered> {
    let mut values = Vec::new(alloc);
    if words.is_empty() {
        return Ok(values);
    }
    for word in words.split(' ') {
        values.push(value(code, word)?)?;
    }
    Ok(values)
}

/// Runs a command and gives its answer.
fn answer_one(alloc: Global, desk: &mut Desk, command: &str) -> Result<String, Unanswered> {
    let (what, rest) = first_word(command);
    let given = values(alloc, desk.machine.accepted, rest)?;
    answer(alloc, desk, what, given.as_slice())
}

/// The answers to commands separated by `; `.
fn answer_each(alloc: Global, desk: &mut Desk, commands: &str) -> Result<String, Unanswered> {
    let mut all = String::new(alloc);
    for command in commands.split("; ") {
        let answer = answer_one(alloc, desk, command)?;
        answers::push(&mut all, answer.as_str())?;
    }
    Ok(all)
}

/// The answers to commands separated by `; `, for a machine with this code at its start.
pub fn answer_all<'c>(
    alloc: Global,
    code: &'c Accepted<'c>,
    commands: &str,
) -> Result<String, Unanswered> {
    let mut desk = Desk::start(alloc, code)?;
    answer_each(alloc, &mut desk, commands)
}

fn answer(alloc: Global, desk: &mut Desk, what: &str, given: &[u32]) -> Result<String, Unanswered> {
    match what {
        "parts" => from_parts(alloc, desk),
        "reg" => set_reg(alloc, desk, given),
        "put" => put_word(alloc, desk, given),
        "every" => put_every(alloc, desk, given),
        "heads" => set_heads(alloc, desk, given),
        "run" => run(alloc, desk, given),
        "turns" => turns(alloc, desk, given),
        "fly" => landing::fly_object(alloc, desk, given),
        "fly-base" => landing::fly_base(alloc, desk, given),
        "at-gate" => hostile::at_gate(alloc, desk, given),
        "any-word" => hostile::any_word(alloc, desk, given),
        "any-head" => hostile::any_head(alloc, desk, given),
        "stops" => stops::stops(alloc, desk, given),
        "saved" => witness::saved_words(alloc, desk),
        "stands" => witness::stands(alloc, desk, given),
        "stacks" => stacks::stacks(alloc, desk, given),
        _ => machine_text(alloc, desk, what, given),
    }
}

/// The answer to a question about the machine's state.
fn machine_text(
    alloc: Global,
    desk: &Desk,
    what: &str,
    given: &[u32],
) -> Result<String, Unanswered> {
    match what {
        "left" => left(alloc, desk),
        "regs" => regs(alloc, desk, given),
        "globals" => globals(alloc, desk),
        "chains" => chains(alloc, desk),
        "words" => words(alloc, desk, given),
        "events" => events(alloc, desk),
        "first-event" => first_event(alloc, desk),
        "text" => text(alloc, desk),
        "kept" => unchanged_text(alloc, desk),
        "well" => hostile::well(alloc, desk, given),
        "lands" => landing::lands(alloc, desk, given),
        "place" => landing::place(alloc, desk, given),
        _ => Err(Unanswered::NotKnown),
    }
}

/// `parts`: takes a machine made from the parts of its start.
fn from_parts(alloc: Global, desk: &mut Desk) -> Result<String, Unanswered> {
    *desk = Desk::from_parts(alloc, desk.machine.accepted)?;
    Ok(answers::nothing(alloc))
}

/// `reg NUMBER VALUE`: sets a register; F is pc.
fn set_reg(alloc: Global, desk: &mut Desk, given: &[u32]) -> Result<String, Unanswered> {
    let [number, value] = given else {
        return Err(Unanswered::NoWord);
    };
    desk.set_reg(*number, *value);
    Ok(answers::nothing(alloc))
}

/// `put SLOT K VALUE`: sets word K of a slot.
fn put_word(alloc: Global, desk: &mut Desk, given: &[u32]) -> Result<String, Unanswered> {
    let [slot, k, value] = given else {
        return Err(Unanswered::NoWord);
    };
    desk.put(*slot, *k, *value);
    Ok(answers::nothing(alloc))
}

/// `every K VALUE`: sets word K of each slot.
fn put_every(alloc: Global, desk: &mut Desk, given: &[u32]) -> Result<String, Unanswered> {
    let [k, value] = given else {
        return Err(Unanswered::NoWord);
    };
    for slot in 0..64 {
        desk.put(slot, *k, *value);
    }
    Ok(answers::nothing(alloc))
}

/// `heads CAUGHT CLEANUP UNCAUGHT`: sets the heads of the caught stack and of the cleanups, and the number of uncaught exceptions.
fn set_heads(alloc: Global, desk: &mut Desk, given: &[u32]) -> Result<String, Unanswered> {
    let [caught, cleanup, uncaught] = given else {
        return Err(Unanswered::NoWord);
    };
    desk.machine.core.globals = Globals {
        caught: *caught,
        cleanup: *cleanup,
        uncaught: *uncaught,
    };
    Ok(answers::nothing(alloc))
}

/// `run MOST`: how a run of at most MOST events ends; nothing if it doesn't.
fn run(alloc: Global, desk: &mut Desk, given: &[u32]) -> Result<String, Unanswered> {
    let [most] = given else {
        return Err(Unanswered::NoWord);
    };
    desk.go(alloc, u64::from(*most));
    Ok(answers::end(alloc, desk.end)?)
}

/// `turns MOST`: how many of MOST events went on, and what the last one did.
fn turns(alloc: Global, desk: &mut Desk, given: &[u32]) -> Result<String, Unanswered> {
    let [most] = given else {
        return Err(Unanswered::NoWord);
    };
    let mut went = 0u32;
    let mut last = Turned::Went;
    for _ in 0..*most {
        last = desk.turn(alloc);
        if last != Turned::Went {
            break;
        }
        went = went.saturating_add(1);
    }
    let last = answers::turn_text(alloc, last)?;
    Ok(format!(in alloc; "{went:X} and {last}")?)
}

/// `left`: the rest of the budget.
fn left(alloc: Global, desk: &Desk) -> Result<String, Unanswered> {
    let left = desk.machine.left;
    Ok(format!(in alloc; "{left:X} left")?)
}

/// `regs NUMBERS..`: the values of these registers.
fn regs(alloc: Global, desk: &Desk, given: &[u32]) -> Result<String, Unanswered> {
    let mut values = Vec::new(alloc);
    for number in given {
        values.push(desk.reg(*number))?;
    }
    Ok(answers::words(alloc, values.as_slice())?)
}

/// `globals`: the heads of the caught stack and of the cleanups, and the number of uncaught exceptions.
fn globals(alloc: Global, desk: &Desk) -> Result<String, Unanswered> {
    let globals = desk.machine.core.globals;
    let words = [globals.caught, globals.cleanup, globals.uncaught];
    Ok(answers::words(alloc, &words)?)
}

/// `chains`: the heads of the caught stack and of the cleanups in progress.
fn chains(alloc: Global, desk: &Desk) -> Result<String, Unanswered> {
    let globals = desk.machine.core.globals;
    Ok(answers::words(alloc, &[globals.caught, globals.cleanup])?)
}

/// `words KS..`: these words of the first slot.
fn words(alloc: Global, desk: &Desk, given: &[u32]) -> Result<String, Unanswered> {
    let mut values = Vec::new(alloc);
    for k in given {
        values.push(desk.word(0, *k))?;
    }
    Ok(answers::words(alloc, values.as_slice())?)
}

/// `events`: the events that are kept.
fn events(alloc: Global, desk: &Desk) -> Result<String, Unanswered> {
    let mut all = String::new(alloc);
    for event in desk.machine.events().kept() {
        let event = answers::event(alloc, event)?;
        answers::push(&mut all, event.as_str())?;
    }
    if all.is_empty() {
        all.push_str("no events")?;
    }
    Ok(all)
}

/// `first-event`: the first event.
fn first_event(alloc: Global, desk: &Desk) -> Result<String, Unanswered> {
    match desk.machine.events().kept().first() {
        Some(event) => Ok(answers::event(alloc, event)?),
        None => Err(Unanswered::NotKnown),
    }
}

/// `text`: the output.
fn text(alloc: Global, desk: &Desk) -> Result<String, Unanswered> {
    let mut text = String::new(alloc);
    text.push('"')?;
    for byte in desk.out.written.as_slice() {
        text.push(char::from(*byte))?;
    }
    text.push('"')?;
    Ok(text)
}

/// `kept`: whether registers and heads are the same as before the last run.
fn unchanged_text(alloc: Global, desk: &Desk) -> Result<String, Unanswered> {
    Ok(answers::yes_or_no(alloc, desk.machine.core == desk.before)?)
}
