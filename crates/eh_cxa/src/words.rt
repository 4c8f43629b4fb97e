//! The calls as writes to the pool's words, in the order of their definitions: docs/rules/phases-and-exceptions.md.
ghost use Rattle.std.specs.Prelude.{◌≡◌, IsSome};
ghost use Rattle.eh_cxa.specs.Words.{word, set_slot_words, wrote, call_result, block_slot, object_slot};
ghost use Rattle.eh_cxa.specs.Allocate.{allocate_of, free_of};
ghost use Rattle.eh_cxa.specs.Throw.{Throw, start_throw_of, set_barrier_of, land_of};
ghost use Rattle.eh_cxa.specs.Catch.{begin_catch_of, end_catch_of, rethrow_of, count_after_catch};
ghost use Rattle.eh_cxa.specs.Cleanup.{begin_cleanup_of, end_cleanup_of};

use crate::globals::{BarrierWords, CleanupWords, CxaFault, Globals};
use crate::layout::{
    BARRIER_DESCRIPTOR, BARRIER_OBJECT, BARRIER_POINTER, BARRIER_SP, BARRIER_WORD_3,
    BARRIER_WORD_4, BELOW_ZERO, CLASS, CLASS_HIGH, CLASS_LOW, CLEANUP_NEXT, CLEANUP_SITE,
    CLEANUP_SP, COUNT, DESTRUCTOR, MINUS_ONE, MOST_COUNT, NEXT_CAUGHT, NEXT_CLEANUP, OBJECT_BYTES,
    SIZE, STATE, TYPE,
};
use crate::pool::{
    block_of, chain_word, clear, free_slot, get, object_of, set, slot_of_block, slot_of_object,
    state,
};
use crate::state::{CAUGHT, ENDED, FLYING, FREE, FRESH, LANDED, State};
use eh_bus::bus::Bus;

/// The words part of `allocate`.
#[tactic(auto, using(crate::proofs::Zeros::put_append))]
pub(crate) fn allocate_words<B: Bus>(bus: &mut B, size: u32) -> Result<u32, CxaFault>
    ensures { (result, B.memory bus.new) ≡ wrote (allocate_of (word (B.memory bus.old)) size) (B.memory bus.old) }
{
    if size > OBJECT_BYTES {
        return Err(CxaFault::TooBig);
    }
    let Some(slot) = free_slot(bus) else {
        return Err(CxaFault::PoolFull);
    };
    clear(bus, slot);
    set(bus, slot, SIZE, size);
    set(bus, slot, STATE, FRESH);
    Ok(object_of(slot))
}

/// The words part of `free`.
pub(crate) fn free_words<B: Bus>(bus: &mut B, object: u32) -> Result<(), CxaFault>
    ensures { (result, B.memory bus.new) ≡ wrote (free_of (word (B.memory bus.old)) (object_slot object)) (B.memory bus.old) }
{
    let Some(slot) = slot_of_object(object) else {
        return Err(CxaFault::BadObject);
    };
    match state(bus, slot) {
        Some(State::Fresh | State::Ended) => {
            set(bus, slot, STATE, FREE);
            Ok(())
        }
        Some(State::Flying | State::Landed | State::Caught) | None => Err(CxaFault::BadObject),
    }
}

/// The words part of `start_throw`.
pub(crate) fn throw_words<B: Bus>(
    bus: &mut B,
    g: &mut Globals,
    object: u32,
    ty: u32,
    dtor: u32,
) -> Result<u32, CxaFault>
    ensures { (result, g.new, B.memory bus.new) ≡ call_result (start_throw_of (word (B.memory bus.old)) g.old (object_slot object) (record { ty = ty; destructor = dtor })) (B.memory bus.old) }
{
    let Some(slot) = slot_of_object(object) else {
        return Err(CxaFault::BadObject);
    };
    let Some(State::Fresh) = state(bus, slot) else {
        return Err(CxaFault::BadObject);
    };
    set(bus, slot, TYPE, ty);
    set(bus, slot, DESTRUCTOR, dtor);
    set(bus, slot, CLASS, CLASS_LOW);
    set(bus, slot, CLASS + 1, CLASS_HIGH);
    set(bus, slot, STATE, FLYING);
    g.uncaught = g.uncaught.wrapping_add(1);
    Ok(block_of(slot))
}

/// The words part of `set_barrier`.
pub(crate) fn barrier_words<B: Bus>(bus: &mut B, ucb: u32, w: &BarrierWords)
    ensures { B.memory bus.new ≡ set_slot_words (set_barrier_of (block_slot ucb) w.now) (B.memory bus.old) }
{
    if let Some(slot) = slot_of_block(ucb) {
        set(bus, slot, BARRIER_SP, w.sp);
        set(bus, slot, BARRIER_OBJECT, w.object);
        set(bus, slot, BARRIER_DESCRIPTOR, w.desc);
        set(bus, slot, BARRIER_POINTER, w.pointer);
        set(bus, slot, BARRIER_WORD_3, 0);
        set(bus, slot, BARRIER_WORD_4, 0);
    }
}

/// The words part of `land`.
pub(crate) fn land_words<B: Bus>(bus: &mut B, ucb: u32)
    ensures { B.memory bus.new ≡ set_slot_words (land_of (word (B.memory bus.old)) (block_slot ucb)) (B.memory bus.old) }
{
    if let Some(slot) = slot_of_block(ucb) {
        if let Some(State::Flying) = state(bus, slot) {
            set(bus, slot, STATE, LANDED);
        }
    }
}

/// The handler count after one more handler.
fn next_count(c: u32) -> u32
    ensures { result ≡ count_after_catch c }
{
    let n = if c < BELOW_ZERO {
        c + 1
    } else {
        MINUS_ONE - c + 2
    };
    n.min(MOST_COUNT)
}

/// The words part of `begin_catch`.
pub(crate) fn catch_words<B: Bus>(bus: &mut B, g: &mut Globals, ucb: u32) -> Result<u32, CxaFault>
    ensures { (result, g.new, B.memory bus.new) ≡ call_result (begin_catch_of (word (B.memory bus.old)) g.old ucb) (B.memory bus.old) }
{
    let Some(slot) = slot_of_block(ucb) else {
        return Err(CxaFault::BadUcb);
    };
    let Some(State::Landed) = state(bus, slot) else {
        return Err(CxaFault::BadUcb);
    };
    let count = get(bus, slot, COUNT);
    if count != 0 && g.caught != ucb {
        return Err(CxaFault::CaughtOrder);
    }
    let object = get(bus, slot, BARRIER_OBJECT);
    g.uncaught = g.uncaught.wrapping_sub(1);
    if count == 0 {
        set(bus, slot, NEXT_CAUGHT, g.caught);
        g.caught = ucb;
    }
    set(bus, slot, COUNT, next_count(count));
    set(bus, slot, STATE, CAUGHT);
    Ok(object)
}

/// The words part of `end_catch`.
pub(crate) fn end_catch_words<B: Bus>(bus: &mut B, g: &mut Globals) -> Result<(u32, u32), CxaFault>
    ensures { (result, g.new, B.memory bus.new) ≡ call_result (end_catch_of (word (B.memory bus.old)) g.old) (B.memory bus.old) }
{
    let Some(slot) = slot_of_block(g.caught) else {
        return Err(CxaFault::NoCaught);
    };
    match get(bus, slot, COUNT) {
        0 => Ok((0, 0)),
        1 => {
            let destructor = get(bus, slot, DESTRUCTOR);
            g.caught = chain_word(get(bus, slot, NEXT_CAUGHT));
            set(bus, slot, COUNT, 0);
            set(bus, slot, STATE, ENDED);
            Ok((object_of(slot), destructor))
        }
        MINUS_ONE => {
            g.caught = chain_word(get(bus, slot, NEXT_CAUGHT));
            set(bus, slot, COUNT, 0);
            Ok((0, 0))
        }
        count => {
            let nearer = if count < BELOW_ZERO {
                count - 1
            } else {
                count + 1
            };
            set(bus, slot, COUNT, nearer);
            Ok((0, 0))
        }
    }
}

/// The words part of `rethrow`.
pub(crate) fn rethrow_words<B: Bus>(bus: &mut B, g: &mut Globals) -> Result<u32, CxaFault>
    ensures { (result, g.new, B.memory bus.new) ≡ call_result (rethrow_of (word (B.memory bus.old)) g.old) (B.memory bus.old) }
{
    let Some(slot) = slot_of_block(g.caught) else {
        return Err(CxaFault::NoCaught);
    };
    let Some(State::Caught) = state(bus, slot) else {
        return Err(CxaFault::CaughtOrder);
    };
    let count = get(bus, slot, COUNT);
    set(bus, slot, COUNT, count.wrapping_neg());
    set(bus, slot, STATE, FLYING);
    g.uncaught = g.uncaught.wrapping_add(1);
    Ok(block_of(slot))
}

/// The words part of `begin_cleanup`.
pub(crate) fn begin_cleanup_words<B: Bus>(bus: &mut B, g: &mut Globals, ucb: u32, c: &CleanupWords)
    ensures { (tt, g.new, B.memory bus.new) ≡ call_result (begin_cleanup_of g.old ucb c.now) (B.memory bus.old) }
{
    if let Some(slot) = slot_of_block(ucb) {
        set(bus, slot, CLEANUP_NEXT, c.next);
        set(bus, slot, CLEANUP_SP, c.sp);
        set(bus, slot, CLEANUP_SITE, c.site);
        set(bus, slot, NEXT_CLEANUP, g.cleanup);
        g.cleanup = ucb;
    }
}

/// The words part of `end_cleanup`.
pub(crate) fn end_cleanup_words<B: Bus>(
    bus: &mut B,
    g: &mut Globals,
    sp: u32,
) -> Result<(u32, CleanupWords), CxaFault>
    ensures { (result, g.new, B.memory bus.new) ≡ call_result (end_cleanup_of (word (B.memory bus.old)) g.old sp) (B.memory bus.old) }
{
    let Some(slot) = slot_of_block(g.cleanup) else {
        return Err(CxaFault::NoCleanup);
    };
    if get(bus, slot, CLEANUP_SP) != sp {
        return Err(CxaFault::CleanupElsewhere);
    }
    let words = CleanupWords {
        next: get(bus, slot, CLEANUP_NEXT),
        sp,
        site: get(bus, slot, CLEANUP_SITE),
    };
    g.cleanup = chain_word(get(bus, slot, NEXT_CLEANUP));
    Ok((block_of(slot), words))
}
