//! Random sequences of calls, compared with the model: answers, words and lists are the same after each call (docs/rules/phases-and-exceptions.md). A
//! function that compares says whether they are.
ghost use Rattle.std.specs.Prelude.{◌<◌};

use crate::model::{Held, Model, Phase, Running, block, object};
use crate::words::{PoolState, chain};
use eh_cxa::layout::{
    BARRIER_OBJECT, CLEANUP_NEXT, CLEANUP_SITE, CLEANUP_SP, COUNT, DESTRUCTOR, NEXT_CAUGHT,
    NEXT_CLEANUP, STATE, TYPE,
};
use eh_cxa::pool::{slot_of_block, slot_of_object};
use eh_cxa::{
    BarrierWords, CleanupWords, Globals, allocate, begin_catch, begin_cleanup, end_catch,
    end_cleanup, free, innermost_sp, land, may_rethrow, may_throw, object_size, rethrow,
    set_barrier, start_throw, thrown,
};
use rand_core::Rng;
use rand_pcg::Pcg32;
use std::alloc::{AllocError, Global};
use test_rows::{Telling, Text, decimal};

/// The number of calls in a sequence, and the number of slots that it uses.
const CALLS: u32 = 32;

const REACHED: u32 = 33;

/// A random number from 0 to 15.
fn roll(dice: &mut Pcg32) -> u32
    ensures { result < 16 }
{
    dice.next_u32() / 0x1000_0000
}

/// A pool and its model.
#[derive(Drop)]
struct Run {
    pool: PoolState,
    model: Model,
}

fn start(alloc: Global) -> Result<Run, AllocError> {
    Ok(Run {
        pool: PoolState::empty(alloc)?,
        model: Model::new(alloc)?,
    })
}

/// Makes all slots free again, whatever else stands in them.
fn begin_again(run: &mut Run) {
    for slot in 0..REACHED {
        run.pool.put(slot, STATE, 0);
    }
    run.pool.globals = Globals::start();
    run.model.clear();
}

/// Calls that allocate and free slots.
fn slots(run: &mut Run, dice: &mut Pcg32, slot: u32) -> bool {
    if roll(dice) < 12 {
        let size = roll(dice) * 26;
        allocate(&mut run.pool.bus, size) == run.model.allocate(size)
    } else {
        free(&mut run.pool.bus, object(slot)) == run.model.free(slot)
    }
}

/// Begins a throw.
fn throws(run: &mut Run, dice: &mut Pcg32, slot: u32) -> bool {
    let (ty, destructor) = (dice.next_u32(), dice.next_u32());
    let may = may_throw(&run.pool.bus, object(slot));
    let wanted = run.model.throw(slot, ty, destructor);
    let thrown = start_throw(
        &mut run.pool.bus,
        &mut run.pool.globals,
        object(slot),
        ty,
        destructor,
    );
    may.is_ok() == wanted.is_ok() && thrown == wanted
}

/// Writes the barrier of a slot.
fn barriers(run: &mut Run, dice: &mut Pcg32, slot: u32) {
    let ucb = block(slot);
    let words = BarrierWords {
        sp: dice.next_u32(),
        object: dice.next_u32(),
        desc: dice.next_u32(),
        pointer: dice.next_u32(),
    };
    if let Some(_) = slot_of_block(ucb) {
        set_barrier(&mut run.pool.bus, ucb, &words);
        run.model.give(slot, words.object);
    }
}

/// Enters a handler, if no cleanup of the throw is in progress.
fn lands(run: &mut Run, slot: u32) {
    let ucb = block(slot);
    if run.model.runs(slot) {
        return;
    }
    if let Some(_) = slot_of_block(ucb) {
        land(&mut run.pool.bus, ucb);
        run.model.land(slot);
    }
}

/// Begins a catch.
fn catches(run: &mut Run, slot: u32) -> Result<bool, AllocError> {
    let wanted = run.model.catch(slot)?;
    Ok(begin_catch(&mut run.pool.bus, &mut run.pool.globals, block(slot)) == wanted)
}

/// Throws again from a handler.
fn throws_again(run: &mut Run) -> bool {
    let may = may_rethrow(&run.pool.bus, &run.pool.globals);
    let wanted = run.model.rethrow();
    may == wanted && rethrow(&mut run.pool.bus, &mut run.pool.globals) == wanted
}

/// Ends a handler or throws again from it.
fn leaves(run: &mut Run, dice: &mut Pcg32) -> bool {
    if roll(dice) < 8 {
        end_catch(&mut run.pool.bus, &mut run.pool.globals) == run.model.end_catch()
    } else {
        throws_again(run)
    }
}

/// Enters a cleanup of a throw that has none in progress.
fn enters(run: &mut Run, dice: &mut Pcg32, slot: u32) -> Result<(), AllocError> {
    let ucb = block(slot);
    if run.model.at(slot).phase != Phase::Flying || run.model.runs(slot) {
        return Ok(());
    }
    let words = CleanupWords {
        next: dice.next_u32(),
        sp: roll(dice),
        site: dice.next_u32(),
    };
    if let Some(_) = slot_of_block(ucb) {
        begin_cleanup(&mut run.pool.bus, &mut run.pool.globals, ucb, &words);
        run.model.begin_cleanup(slot, words)?;
    }
    Ok(())
}

/// Ends a cleanup, at its landing sp or at another.
fn ends(run: &mut Run, dice: &mut Pcg32) -> bool {
    let sp = match innermost_sp(&run.pool.bus, &run.pool.globals) {
        Some(sp) if roll(dice) < 12 => sp,
        Some(_) | None => roll(dice),
    };
    end_cleanup(&mut run.pool.bus, &mut run.pool.globals, sp) == run.model.end_cleanup(sp)
}

/// Makes one random call for this slot: whether its answer is the model's.
fn answers(run: &mut Run, dice: &mut Pcg32, slot: u32) -> Result<bool, AllocError> {
    match roll(dice) / 2 {
        0 => return Ok(slots(run, dice, slot)),
        1 => return Ok(throws(run, dice, slot)),
        2 => barriers(run, dice, slot),
        3 => lands(run, slot),
        4 => return catches(run, slot),
        5 => return Ok(leaves(run, dice)),
        6 => enters(run, dice, slot)?,
        _ => return Ok(ends(run, dice)),
    }
    Ok(true)
}

/// The state word that a phase has in the pool.
fn state_word(phase: Phase) -> u32 {
    match phase {
        Phase::Free => 0,
        Phase::Fresh => 1,
        Phase::Flying => 2,
        Phase::Landed => 3,
        Phase::Caught => 4,
        Phase::Ended => 5,
    }
}

/// The number that a word is, read with its sign.
fn signed_value(word: u32) -> i64 {
    if word < 0x8000_0000 {
        i64::from(word)
    } else {
        i64::from(word) - 0x1_0000_0000
    }
}

/// Whether the header of a slot, its count with its sign, and the object of its handler are the model's.
fn is_header(pool: &PoolState, slot: u32, held: &Held) -> bool {
    pool.word(slot, TYPE) == held.ty
        && pool.word(slot, DESTRUCTOR) == held.destructor
        && signed_value(pool.word(slot, COUNT)) == held.handlers
        && pool.word(slot, BARRIER_OBJECT) == held.given
}

/// Whether the size of a slot's object, and the words of its throw, are the model's.
fn is_thrown(pool: &PoolState, slot: u32, held: &Held) -> bool {
    let at = object(slot);
    let ucb = block(slot);
    if let (Some(_), Some(_)) = (slot_of_object(at), slot_of_block(ucb)) {
        object_size(&pool.bus, at) == held.size && thrown(&pool.bus, ucb) == (at, held.ty)
    } else {
        false
    }
}

/// Whether the words of a slot say what the model holds.
fn is_slot(pool: &PoolState, slot: u32, held: &Held) -> bool {
    pool.word(slot, STATE) == state_word(held.phase)
        && (held.phase == Phase::Free
            || (is_header(pool, slot, held) && is_thrown(pool, slot, held)))
}

/// Whether the words of a cleanup in progress are the model's.
fn is_cleanup(pool: &PoolState, slot: u32, running: &Running) -> bool {
    slot == running.slot
        && pool.word(slot, CLEANUP_NEXT) == running.words.next
        && pool.word(slot, CLEANUP_SP) == running.words.sp
        && pool.word(slot, CLEANUP_SITE) == running.words.site
}

/// Whether the slots of a chain are those of the cleanups in progress, with their words.
fn are_cleanups(pool: &PoolState, slots: &[u32], wanted: &[Running]) -> bool {
    if slots.len() != wanted.len() {
        return false;
    }
    for (slot, running) in slots.iter().zip(wanted) {
        if !is_cleanup(pool, *slot, running) {
            return false;
        }
    }
    true
}

/// Whether both chains are the model's lists, and the number of uncaught ones is the same.
fn are_lists(alloc: Global, run: &Run) -> Result<bool, AllocError> {
    let caught = chain(alloc, &run.pool, run.pool.globals.caught, NEXT_CAUGHT)?;
    let cleanups = chain(alloc, &run.pool, run.pool.globals.cleanup, NEXT_CLEANUP)?;
    Ok(
        caught.as_slice() == run.model.caught.as_slice()
            && are_cleanups(
                &run.pool,
                cleanups.as_slice(),
                run.model.cleanups.as_slice(),
            )
            && run.pool.globals.uncaught == run.model.uncaught,
    )
}

/// Whether the words of each slot say what the model holds. The number of uncaught exceptions is that of those in flight or landed.
fn are_slots(run: &Run) -> bool {
    let mut flying = 0u32;
    for slot in 0..REACHED {
        let held = run.model.at(slot);
        if !is_slot(&run.pool, slot, &held) {
            return false;
        }
        if held.phase == Phase::Flying || held.phase == Phase::Landed {
            flying = flying.wrapping_add(1);
        }
    }
    run.pool.globals.uncaught == flying
}

/// One sequence: whether each call answers as the model does, with the same slot and lists after it, and the same slots at the end.
fn is_sequence(alloc: Global, run: &mut Run, dice: &mut Pcg32) -> Result<bool, AllocError> {
    begin_again(run);
    for _ in 0..CALLS {
        let slot = roll(dice) / 4;
        let answers = answers(run, dice, slot)?;
        let held = run.model.at(slot);
        if !answers || !is_slot(&run.pool, slot, &held) || !are_lists(alloc, run)? {
            return Ok(false);
        }
    }
    Ok(are_slots(run))
}

/// The number of the first of `count` sequences that differs from the model.
fn first_other(alloc: Global, count: u32) -> Result<Option<u32>, AllocError> {
    let mut dice = Pcg32::new(0x2545_f491, 0);
    let mut run = start(alloc)?;
    for number in 0..count {
        if !is_sequence(alloc, &mut run, &mut dice)? {
            return Ok(Some(number));
        }
    }
    Ok(None)
}

/// Random sequences of calls.
pub struct Sequences;

/// Says of so many sequences whether they agree with the model.
fn tell_first_other(text: &mut Text, count: u32) {
    match first_other(text.alloc(), count) {
        Ok(None) => text.say("as the model"),
        Ok(Some(number)) => write!(text, "sequence {number} differs"),
        Err(_) => text.want_memory(),
    }
}

impl Telling for Sequences {
    /// `N`: says that N sequences agree with the model, or which is the first that doesn't.
    fn tell(&self, text: &mut Text, question: &str) {
        if let Some(count) = text.taken(decimal(question)) {
            tell_first_other(text, count);
        }
    }
}
