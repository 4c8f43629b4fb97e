//! Which thread owns the exception in each slot of the pool; docs/guide/walks-and-threads.md states the rules.
ghost use Rattle.std.specs.Prelude.{◌≡◌, ◌<◌, ◌≤◌, ℕ, length, slice_index_or, IsTrue, false};
ghost use Rattle.eh_bus.specs.Map.{SameMap};
ghost use Rattle.eh_cxa.specs.Words.{word, set_slot_words};
ghost use Rattle.eh_cxa.specs.declared.layout.TheConstants.{SLOTS};
ghost use Rattle.thread_memory.specs.Owners.{state_seen_by, holding_after, holdings_after, owners_after, change_of, changes_from, unowned_from, unused, AreFree, AreUnused, UpdatesOwners};
ghost use Rattle.thread_memory.specs.declared.owners.Holding.{Holding};

use eh_bus::bus::Bus;
use eh_cxa::layout::{SLOTS, STATE};
use eh_cxa::pool::{get, set};
use eh_cxa::state::{ENDED, FREE};

/// The state that a thread reads of a slot with another thread's exception. It is no state of an exception and isn't free.
pub const OUT_OF_USE: u32 = ENDED + 1;

/// What a slot of the pool holds.
#[derive(Clone, Copy)]
pub struct Holding {
    /// The thread that made the slot other than free, if one did.
    pub owner: Option<usize>,
    /// Its state word, as the owner reads it.
    pub state: u32,
}

impl Holding {
    /// The state word of the slot as a thread reads it.
    pub fn state_seen_by(&self, thread: usize) -> u32
        ensures { result ≡ state_seen_by thread self.now }
    {
        match self.owner {
            Some(owner) if owner != thread => OUT_OF_USE,
            Some(_) | None => self.state,
        }
    }

    /// Whether the slot is in use, or has an owner.
    fn is_used(&self) -> bool
        ensures { result ≡ false → self.now ≡ unused }
    {
        self.owner.is_some() || self.state != FREE
    }

    /// What the slot holds after a thread has run and now reads this state.
    fn after(&self, thread: usize, state: u32) -> Holding
        ensures { result ≡ holding_after thread state self.now }
    {
        if state == self.state_seen_by(thread) {
            *self
        } else if state == FREE {
            Holding { owner: None, state }
        } else {
            Holding {
                owner: Some(thread),
                state,
            }
        }
    }
}

/// A free slot without an owner.
const UNUSED: Holding = Holding {
    owner: None,
    state: FREE,
};

/// What each slot of the pool holds.
#[derive(Clone, Copy)]
pub struct Owners {
    /// The slots by number.
    pub slots: [Holding; SLOTS as usize],
    /// Each slot from this number on is free, and nobody's.
    pub(crate) used: u32,
    ghost few: { used ≤ SLOTS },
    ghost rest: { AreUnused slots used },
}

impl Owners {
    /// What the slots hold at the start: every slot is nobody's, with the state that memory has.
    pub fn unowned<B: Bus>(bus: &B) -> Owners
        ensures { result.slots ≡ unowned_from (word (B.memory bus.now)) 0 SLOTS }
    {
        let mut slots = [UNUSED; SLOTS as usize];
        for slot in 0..SLOTS {
            slots[slot as usize] = Holding {
                owner: None,
                state: get(bus, slot, STATE),
            };
        }
        Owners { slots, used: SLOTS }
    }

    /// Updates the slots after a thread has run on a memory that is as it now sees it. The slots from `used` on are free.
    pub(crate) fn update_after<B: Bus>(&mut self, thread: usize, used: u32, bus: &B)
        requires free { AreFree (word (B.memory bus.now)) used }
        requires within { used ≤ SLOTS }
        ensures slots { self.new.slots ≡ owners_after thread (word (B.memory bus.now)) self.old.slots }
        ensures free { AreFree (word (B.memory bus.now)) self.new.used }
    {
        self.used = update_first(&mut self.slots, thread, used.max(self.used), bus);
    }

    /// Writes the state words that the new thread reads otherwise than the old one.
    pub(crate) fn show<B: Bus>(&self, old: usize, new: usize, bus: &mut B)
        ensures memory { B.memory bus.new ≡ set_slot_words (changes_from old new 0 self.now.slots) (B.memory bus.old) }
        ensures free { AreFree (word (B.memory bus.old)) self.now.used → AreFree (word (B.memory bus.new)) self.now.used }
        ensures map { SameMap (B.memory bus.old).segments (B.memory bus.new).segments }
    {
        for slot in 0..self.used {
            show_slot(&self.slots, slot, old, new, bus);
        }
    }
}

/// What the first slots hold after a thread has run, and from which number on none of them is in use.
fn update_first<B: Bus>(
    slots: &mut [Holding; SLOTS as usize],
    thread: usize,
    count: u32,
    bus: &B,
) -> u32
    requires { count ≤ SLOTS }
    ensures noted { UpdatesOwners thread (word (B.memory bus.now)) slots.old slots.new count }
    ensures within { result ≤ count }
    ensures rest { (slot : ℕ) → result ≤ slot → slot < count → slice_index_or slots.new slot unused ≡ unused }
{
    let mut used = 0;
    for slot in 0..count {
        let holding = slots[slot as usize].after(thread, get(bus, slot, STATE));
        slots[slot as usize] = holding;
        if holding.is_used() {
            used = slot + 1;
        }
    }
    used
}

/// Writes the state word of one slot, if the new thread reads it otherwise than the old one.
fn show_slot<B: Bus>(slots: &[Holding], slot: u32, old: usize, new: usize, bus: &mut B)
    requires there { slot < length slots.now }
    requires slot { slot < SLOTS }
    ensures { (d : Holding) → B.memory bus.new ≡ set_slot_words (change_of old new slot (slice_index_or slots.now slot d)) (B.memory bus.old) }
{
    let holding = slots[slot as usize];
    let seen = holding.state_seen_by(new);
    if holding.state_seen_by(old) != seen {
        set(bus, slot, STATE, seen);
    }
}
