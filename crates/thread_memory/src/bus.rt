//! The memory of a run of several threads, as the running thread sees it; docs/guide/walks-and-threads.md states its rules.
ghost use Rattle.std.specs.Prelude.{◌≡◌, ℕ, ◌+◌, ◌*◌, ◌%◌, ◌^◌, ◌<◌, ◌≤◌, ◌==◌, [], List, length, Option, Some, None, IfOk, IfSome, IfNone, IsTrue, true, false};
ghost use Rattle.eh_bus.specs.Guards.{AreGuards, AreGuards-prop};
ghost use Rattle.eh_bus.specs.Map.{AreSegments, IsHome, SameMap};
ghost use Rattle.thread_memory.specs.Homes.{home_of};
ghost use Rattle.eh_bus.specs.Memory.{run_fault};
ghost use Rattle.eh_bus.specs.Place.{IsWidth};
ghost use Rattle.eh_bus.specs.Segment.{Segment};
ghost use Rattle.eh_bus.specs.declared.fault.BusFault.TheVariants.{SavedSlot};
ghost use Rattle.eh_cxa.specs.Words.{word};
ghost use Rattle.eh_cxa.specs.declared.layout.TheConstants.{SLOTS};
ghost use Rattle.thread_memory.specs.Seen.{thread_view, aligned_hit, IsOutside};
ghost use Rattle.thread_memory.specs.Owners.{owners_after, switch_thread, AreFree};
ghost use Rattle.thread_memory.specs.declared.homes.TheConstants.{THREADS};
ghost use Rattle.thread_memory.specs.declared.bus.ThreadMemory.TheVariants.{OutOfMemory};

use crate::homes::{THREADS, home_of};
use crate::owners::Owners;
use eh_bus::bus::Bus;
use eh_bus::fault::BusFault;
use eh_bus::map::{POOL_START, SLOT_SIZE, STACK_END, STACK_START};
use eh_cxa::layout::SLOTS;
use mem_guards::guards::Guards;
use std::alloc::{AllocError, Global};

/// There was no memory for the guards.
#[derive(Clone, Copy)]
pub enum ThreadMemory {
    /// An allocation failed.
    OutOfMemory,
}

impl From<AllocError> for ThreadMemory {
    ghost from_gives = { λ _ e. e ≡ OutOfMemory };

    fn from(_e: AllocError) -> ThreadMemory {
        ThreadMemory::OutOfMemory
    }
}

/// A memory shared by several threads, as the entered thread sees it. Its running stack is that thread's home, its guarded words are those
/// of all stacks, and the other threads' exceptions read as out of use. The memory below it has no guarded words of its own.
#[derive(Drop)]
pub struct ThreadBus<B: Bus> {
    inner: B,
    guards: Guards,
    thread: usize,
    /// The stack of that thread: its first address and the one after its last.
    home: (u32, u32),
    /// Each slot of the pool from this number on is free.
    used: u32,
    ghost rising: { AreGuards guards } by { AreGuards-prop guards },
    ghost within: { thread < THREADS },
    ghost at_home: { IsHome (home_of thread) },
    ghost its_own: { home ≡ home_of thread },
    ghost plain: { (B.memory inner).guards ≡ [] },
    ghost few: { used ≤ SLOTS },
    ghost free: { AreFree (word (B.memory inner)) used },
}

impl<B: Bus + Drop> ThreadBus<B> {
    /// A memory without guarded words, as thread 0 sees it. `OutOfMemory` if there was none for the guards.
    pub fn over(alloc: Global, inner: B) -> Result<ThreadBus<B>, ThreadMemory>
        requires { (B.memory inner).guards ≡ [] }
        ensures { IfOk result (λ bus. thread_view (B.memory bus.inner) bus.guards bus.thread ≡ thread_view (B.memory inner) [] 0) }
    {
        let guards = Guards::new(alloc)?;
        Ok(ThreadBus {
            inner,
            guards,
            thread: 0,
            home: home_of(0),
            used: SLOTS,
        })
    }
}

impl<B: Bus> ThreadBus<B> {
    /// Switches from thread `ran`, which has run, to `thread`. What each slot holds follows from the states that `ran` reads now.
    /// Afterwards the slots read as the entered thread sees them. Guarded words and the memory map stay.
    pub fn enter(&mut self, owners: &mut Owners, ran: usize, thread: usize)
        requires { thread < THREADS }
        ensures owners { owners.new.slots ≡ owners_after ran (word (B.memory self.old.inner)) owners.old.slots }
        ensures memory { thread_view (B.memory self.new.inner) self.new.guards self.new.thread ≡ switch_thread ran thread owners.new.slots (thread_view (B.memory self.old.inner) self.old.guards self.old.thread) }
        ensures thread { self.new.thread ≡ thread }
        ensures map { SameMap (B.memory self.old.inner).segments (B.memory self.new.inner).segments }
    {
        owners.update_after(ran, self.used, &self.inner);
        owners.show(ran, thread, &mut self.inner);
        self.used = owners.used;
        self.thread = thread;
        self.home = home_of(thread);
    }

    /// The thread that is entered.
    pub fn thread(&self) -> usize
        ensures { result ≡ self.now.thread }
    {
        self.thread
    }
}

/// The guarded word that an aligned store of `n` bytes at `a` would overwrite, if any.
fn aligned_hit(guards: &Guards, a: u32, n: u32) -> Option<u32>
    requires { IsWidth n }
    ensures { result ≡ aligned_hit guards.now n a }
{
    if a & (n - 1) == 0 {
        guards.guard_hit(a, n)
    } else {
        None
    }
}

/// Whether `a` is the address of a word of the stack.
fn is_stack_word(a: u32) -> bool
    ensures word { IsTrue result → ((a % 4 == 0) ≡ true) × ((STACK_START ≤ a) × (a + 4 ≤ STACK_END)) }
    ensures outside { result ≡ false → IsOutside a }
{
    a % 4 == 0 && (STACK_START..STACK_END).contains(&a)
}

/// The first guarded word among the words stored from `a` on, as far as they lie in the stack.
fn run_hit(guards: &Guards, a: u32, words: &[u32]) -> Option<u32>
    requires { AreGuards guards.now }
    ensures some { IfSome result (λ g. (ss : List Segment) → AreSegments ss → run_fault guards.now ss a words.now ≡ Some (SavedSlot g)) }
    ensures none { IfNone result ((ss : List Segment) → AreSegments ss → run_fault guards.now ss a words.now ≡ run_fault [] ss a words.now) }
{
    let mut at = a;
    for _word in words {
        if !is_stack_word(at) {
            return None;
        }
        if let Some(g) = guards.guard_hit(at, 4) {
            return Some(g);
        }
        at = at.wrapping_add(4);
    }
    None
}

impl<B: Bus> Bus for ThreadBus<B> {
    ghost memory = { λ bus. thread_view (B.memory bus.inner) bus.guards bus.thread };

    fn load8(&self, a: u32) -> Result<u8, BusFault> {
        self.inner.load8(a)
    }

    fn load16(&self, a: u32) -> Result<u16, BusFault> {
        self.inner.load16(a)
    }

    fn load32(&self, a: u32) -> Result<u32, BusFault> {
        self.inner.load32(a)
    }

    fn store8(&mut self, a: u32, v: u8) -> Result<(), BusFault> {
        match aligned_hit(&self.guards, a, 1) {
            Some(g) => Err(BusFault::SavedSlot(g)),
            None => self.inner.store8(a, v),
        }
    }

    fn store16(&mut self, a: u32, v: u16) -> Result<(), BusFault> {
        match aligned_hit(&self.guards, a, 2) {
            Some(g) => Err(BusFault::SavedSlot(g)),
            None => self.inner.store16(a, v),
        }
    }

    fn store32(&mut self, a: u32, v: u32) -> Result<(), BusFault> {
        match aligned_hit(&self.guards, a, 4) {
            Some(g) => Err(BusFault::SavedSlot(g)),
            None => self.inner.store32(a, v),
        }
    }

    fn store_run(&mut self, a: u32, words: &[u32]) -> Result<(), BusFault> {
        match run_hit(&self.guards, a, words) {
            Some(g) => Err(BusFault::SavedSlot(g)),
            None => self.inner.store_run(a, words),
        }
    }

    fn fetch16(&self, a: u32) -> Result<u16, BusFault> {
        self.inner.fetch16(a)
    }

    fn guard(&mut self, a: u32) {
        self.guards.insert(a);
    }

    fn release_below(&mut self, a: u32) {
        let (low, _) = self.home;
        self.guards.release_from(low, a);
    }

    fn host_load32(&self, a: u32) -> u32 {
        self.inner.host_load32(a)
    }

    fn host_store32(&mut self, a: u32, v: u32) {
        self.used = self.used.max((a - POOL_START) / SLOT_SIZE + 1);
        self.inner.host_store32(a, v);
    }

    fn home(&self) -> (u32, u32) {
        self.home
    }

    ghost is_map = { λ bus. record { segments = (B.is_map bus.inner).segments; guards = bus.rising; home = bus.at_home } };
}
