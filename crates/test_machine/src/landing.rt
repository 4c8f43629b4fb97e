//! A throw at its gate: what it enters first, and how it goes to a given barrier.
use crate::answers;
use crate::code::table_of;
use crate::desk::Desk;
use eh_bytecode::Vrs;
use eh_cxa::pool::slot_of_block;
use eh_machine::{Machine, Turned, tables, throw_to};
use eh_match::Match;
use eh_phase::joined::{First, first_landing};
use eh_phase::{Barrier, Entered, Found, Thrown};
use frame_check::Accepted;
use mem_buses::paged::PagedBus;
use std::alloc::{AllocError, Global};
use test_rows::{Unanswered, number_at};
use thumb_core::regs::Regs;

/// The addresses of the first slot's control block and object.
const BLOCK: u32 = 0x3800_0028;

const OBJECT: u32 = 0x3800_0080;

fn frame_of(regs: &Regs) -> Vrs {
    let r = regs.r;
    Vrs {
        r: [
            r[0], r[1], r[2], r[3], r[4], r[5], r[6], r[7], r[8], r[9], r[10], r[11], r[12], r[13],
            r[14], regs.pc,
        ],
    }
}

/// What a throw of the first slot's object at pc enters first.
fn first_of(desk: &Desk, ty: u32, limit: Option<u32>) -> First {
    let machine = &desk.machine;
    let regs = &machine.core.regs;
    first_landing(
        &tables(machine.accepted),
        &machine.shared.bus,
        &frame_of(regs),
        regs.pc,
        &Thrown { object: OBJECT, ty },
        limit,
    )
}

/// The registers that have changed.
fn changed_registers(alloc: Global, before: &Vrs, after: &Vrs) -> Result<String, AllocError> {
    let mut text = String::new(alloc);
    for (number, (old, new)) in before.r.iter().zip(&after.r).enumerate() {
        if old != new {
            text.push_str(format!(in alloc; " r{number}={new:X}")?.as_str())?;
        }
    }
    Ok(text)
}

/// The index, in the table for a site, of the word at an address.
fn place_in(code: &Accepted, site: u32, at: u32) -> Result<u32, Unanswered> {
    Ok(at.wrapping_sub(table_of(code, site)?) / 4)
}

/// A match, as words.
fn hit_text(alloc: Global, hit: Match) -> Result<String, AllocError> {
    match hit {
        Match::Failed => format!(in alloc; "failed"),
        Match::Object(a) => format!(in alloc; "object {a:X}"),
        Match::PointerToBase(a) => format!(in alloc; "base {a:X}"),
        Match::Unreadable(a) => format!(in alloc; "unreadable {a:X}"),
    }
}

/// A barrier: its sp, the index of its descriptor's word in the table, its site and its match.
fn barrier_text(alloc: Global, code: &Accepted, barrier: &Barrier) -> Result<String, Unanswered> {
    let Barrier {
        sp,
        desc,
        site,
        hit,
    } = *barrier;
    let place = place_in(code, site, desc)?;
    let hit = hit_text(alloc, hit)?;
    Ok(format!(in alloc; "barrier {sp:X} word {place:X} site {site:X} {hit}")?)
}

/// Words, followed by the registers that differ from those of the throw.
fn with_changed_registers(
    alloc: Global,
    words: String,
    from: &Vrs,
    vrs: &Vrs,
) -> Result<String, Unanswered> {
    let mut words = words;
    words.push_str(changed_registers(alloc, from, vrs)?.as_str())?;
    Ok(words)
}

/// What is entered: its pad, and the registers that aren't those of the throw; for a cleanup also its site and the index of the next
/// descriptor's word.
fn entered_text(
    alloc: Global,
    code: &Accepted,
    from: &Vrs,
    entered: &Entered,
) -> Result<String, Unanswered> {
    match entered {
        Entered::Cleanup {
            vrs,
            pad,
            next,
            site,
        } => {
            let place = place_in(code, *site, *next)?;
            let words = format!(in alloc; "cleanup {pad:X} site {site:X} next word {place:X}")?;
            with_changed_registers(alloc, words, from, vrs)
        }
        Entered::Catch { vrs, pad } | Entered::Spec { vrs, pad } => {
            let words = format!(in alloc; "handler {pad:X}")?;
            with_changed_registers(alloc, words, from, vrs)
        }
        Entered::Unexpected => Ok(format!(in alloc; "unexpected")?),
        Entered::Terminate(cause) => Ok(format!(in alloc; "terminate {cause:?}")?),
    }
}

/// Why there is no landing.
fn found_text(alloc: Global, code: &Accepted, found: &Found) -> Result<String, Unanswered> {
    match found {
        Found::Barrier(barrier) => barrier_text(alloc, code, barrier),
        Found::Terminate(cause) => Ok(format!(in alloc; "terminate {cause:?}")?),
        Found::ObjectRead(a) => Ok(format!(in alloc; "no object at {a:X}")?),
    }
}

/// `lands TYPE [LIMIT]`: what a throw of the first slot's object at pc enters first.
pub fn lands(alloc: Global, desk: &Desk, given: &[u32]) -> Result<String, Unanswered> {
    let code = desk.machine.accepted;
    let from = frame_of(&desk.machine.core.regs);
    match first_of(desk, number_at(given, 0)?, given.get(1).copied()) {
        First::Enters { barrier, entered } => {
            let barrier = barrier_text(alloc, code, &barrier)?;
            let entered = entered_text(alloc, code, &from, &entered)?;
            Ok(format!(in alloc; "{barrier}; {entered}")?)
        }
        First::Ends(why) => found_text(alloc, code, &why),
    }
}

/// `place SITE K`: the index, in the table for a site, of the word whose address is word K of the first slot.
pub fn place(alloc: Global, desk: &Desk, given: &[u32]) -> Result<String, Unanswered> {
    let [site, k] = given else {
        return Err(Unanswered::NoWord);
    };
    let place = place_in(desk.machine.accepted, *site, desk.word(0, *k))?;
    Ok(format!(in alloc; "word {place:X}")?)
}

/// Lets the exception of the first slot fly to a barrier, from the throw's gate.
fn flies(machine: &mut Machine<PagedBus>, barrier: &Barrier) -> Option<Turned> {
    let site = machine.core.regs.pc;
    if let Some(_slot) = slot_of_block(BLOCK) {
        Some(throw_to(
            machine.accepted,
            &mut machine.core,
            &mut machine.shared,
            &mut machine.events,
            site,
            BLOCK,
            barrier,
        ))
    } else {
        None
    }
}

/// Lets it fly, and says how the run ends, if it does.
fn fly(alloc: Global, desk: &mut Desk, barrier: &Barrier) -> Result<String, Unanswered> {
    desk.before = desk.machine.core;
    match flies(&mut desk.machine, barrier) {
        Some(turned) => Ok(answers::turn_text(alloc, turned)?),
        None => Err(Unanswered::NotKnown),
    }
}

/// The barrier with an sp, a site and a descriptor.
fn barrier_of(given: &[u32], hit: Match) -> Result<Barrier, Unanswered> {
    let [sp, site, desc, _hit] = given else {
        return Err(Unanswered::NoWord);
    };
    Ok(Barrier {
        sp: *sp,
        desc: *desc,
        site: *site,
        hit,
    })
}

/// `fly SP SITE DESCRIPTOR OBJECT`: flies to a barrier that is given an object.
pub fn fly_object(alloc: Global, desk: &mut Desk, given: &[u32]) -> Result<String, Unanswered> {
    let hit = Match::Object(number_at(given, 3)?);
    fly(alloc, desk, &barrier_of(given, hit)?)
}

/// `fly-base SP SITE DESCRIPTOR POINTER`: flies to a barrier that is given a pointer to a base.
pub fn fly_base(alloc: Global, desk: &mut Desk, given: &[u32]) -> Result<String, Unanswered> {
    let hit = Match::PointerToBase(number_at(given, 3)?);
    fly(alloc, desk, &barrier_of(given, hit)?)
}
