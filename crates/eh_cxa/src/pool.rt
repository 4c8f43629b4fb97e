//! Slots and their words in the pool: docs/rules/phases-and-exceptions.md.
ghost use Rattle.std.specs.Prelude.{◌≡◌, ◌==◌, ◌<◌, ◌≤◌, ◌↔◌, ℕ, Some, IfSome, IsSome};
ghost use Rattle.eh_cxa.specs.Words.{word, set_slot_word, set_slot_words, block, object, block_slot, object_slot, chain_word};
ghost use Rattle.eh_cxa.specs.Allocate.{zeros, first_slot};
ghost use Rattle.eh_cxa.specs.States.{state_of_word};

use crate::layout::{BLOCK, OBJECT, SLOT_WORDS, SLOTS, STATE};
use crate::state::{FREE, State};
use eh_bus::bus::Bus;
use eh_bus::map::{POOL_END, POOL_START, SLOT_SIZE};

/// The slot whose control block is at `ucb`; None if there is none, as for 0.
#[tactic(auto, unfolding(crate::specs::Words::block_slot))]
pub fn slot_of_block(ucb: u32) -> Option<u32>
    ensures is { result ≡ block_slot ucb }
    ensures range { IfSome result (λ s. s < SLOTS) }
    ensures place { (s : ℕ) → s < SLOTS → (result ≡ Some s) ↔ (ucb ≡ block s) }
{
    if ucb >= POOL_START + BLOCK
        && ucb < POOL_END
        && (ucb - (POOL_START + BLOCK)) % SLOT_SIZE == 0
    {
        Some((ucb - (POOL_START + BLOCK)) / SLOT_SIZE)
    } else {
        None
    }
}

/// The slot whose object is at `at`; None if there is none.
#[tactic(auto, unfolding(crate::specs::Words::object_slot))]
pub fn slot_of_object(at: u32) -> Option<u32>
    ensures is { result ≡ object_slot at }
    ensures range { IfSome result (λ s. s < SLOTS) }
    ensures place { (s : ℕ) → s < SLOTS → (result ≡ Some s) ↔ (at ≡ object s) }
{
    if at >= POOL_START + OBJECT && at < POOL_END && (at - (POOL_START + OBJECT)) % SLOT_SIZE == 0 {
        Some((at - (POOL_START + OBJECT)) / SLOT_SIZE)
    } else {
        None
    }
}

/// The address of the slot's control block.
pub(crate) fn block_of(slot: u32) -> u32
    requires { slot < SLOTS }
    ensures { result ≡ block slot }
{
    POOL_START + SLOT_SIZE * slot + BLOCK
}

/// The address of the slot's object.
pub(crate) fn object_of(slot: u32) -> u32
    requires { slot < SLOTS }
    ensures { result ≡ object slot }
{
    POOL_START + SLOT_SIZE * slot + OBJECT
}

/// A link of a list; 0 if the word isn't the address of a control block.
pub(crate) fn chain_word(w: u32) -> u32
    ensures { result ≡ chain_word w }
{
    match slot_of_block(w) {
        Some(_) => w,
        None => 0,
    }
}

/// Word `k` of the slot.
#[tactic(auto, unfolding(crate::specs::Words::word))]
pub fn get<B: Bus>(bus: &B, slot: u32, k: u32) -> u32
    requires slot { slot < SLOTS }
    requires place { k < SLOT_WORDS }
    ensures { result ≡ word (B.memory bus.now) slot k }
{
    bus.host_load32(POOL_START + SLOT_SIZE * slot + 4 * k)
}

/// The state of the slot's exception; None if the state word names none.
pub(crate) fn state<B: Bus>(bus: &B, slot: u32) -> Option<State>
    requires { slot < SLOTS }
    ensures { result ≡ state_of_word (word (B.memory bus.now) slot STATE) }
{
    State::of_word(get(bus, slot, STATE))
}

/// Writes word `k` of the slot.
#[tactic(auto, unfolding(crate::specs::Words::set_slot_word))]
pub fn set<B: Bus>(bus: &mut B, slot: u32, k: u32, value: u32)
    requires slot { slot < SLOTS }
    requires place { k < SLOT_WORDS }
    ensures { B.memory bus.new ≡ set_slot_word (B.memory bus.old) slot k value }
{
    bus.host_store32(POOL_START + SLOT_SIZE * slot + 4 * k, value);
}

/// Sets all words of the slot to 0.
#[tactic(auto, using(crate::proofs::Zeros::zeros_more))]
pub(crate) fn clear<B: Bus>(bus: &mut B, slot: u32)
    requires { slot < SLOTS }
    ensures { B.memory bus.new ≡ set_slot_words (zeros slot SLOT_WORDS) (B.memory bus.old) }
{
    for k in 0..SLOT_WORDS {
        set(bus, slot, k, 0);
    }
}

/// The lowest free slot; None if no slot is free.
#[tactic(auto, using(crate::proofs::Zeros::first_is, crate::proofs::Zeros::first_none))]
pub(crate) fn free_slot<B: Bus>(bus: &B) -> Option<u32>
    ensures is { result ≡ first_slot (λ s. word (B.memory bus.now) s STATE == FREE) }
    ensures range { IfSome result (λ s. s < SLOTS) }
{
    for slot in 0..SLOTS {
        if get(bus, slot, STATE) == FREE {
            return Some(slot);
        }
    }
    None
}
