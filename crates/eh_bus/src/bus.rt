//! The trait of every memory of the machine (docs/rules/memory.md).
ghost use Rattle.std.specs.Prelude.{◌≡◌, ℕ, ◌+◌, ◌%◌, ◌^◌, ◌<◌, ◌≤◌, length, Ok, Err, IfOk};
ghost use Rattle.eh_bus.specs.Memory.{Memory, load, store, store_run, fetch, with_guard, without_guards_below, host_load, host_store};
ghost use Rattle.eh_bus.specs.Map.{IsMap, Keeps};
ghost use Rattle.eh_bus.specs.Undo.{Undoable, WordUndoable, RunUndoable};

use crate::fault::BusFault;
use crate::map::{POOL_END, POOL_START, STACK_END, STACK_START};

/// A memory of segments, in which words of the stack can be guarded. Addresses are in bytes; numbers are little-endian.
///
/// The faults of an access are tested in this order, and each comes exactly if it holds: Unmapped, Unaligned; for a
/// store ReadOnly, then SavedSlot; for a load or store Protected; for a fetch NotExecutable. A refused access changes
/// nothing. A store is undone by storing what a load gave there before (`undone`). No call changes the segments, or the
/// bytes of a segment that isn't writable (`keeps`).
pub trait Bus {
    ghost memory: { Self → Memory };

    /// Loads a byte.
    fn load8(&self, a: u32) -> Result<u8, BusFault>
        ensures { result ≡ load 1 (memory self.now) a };

    /// Loads a halfword.
    fn load16(&self, a: u32) -> Result<u16, BusFault>
        ensures { result ≡ load 2 (memory self.now) a };

    /// Loads a word.
    fn load32(&self, a: u32) -> Result<u32, BusFault>
        ensures { result ≡ load 4 (memory self.now) a };

    /// Stores a byte.
    fn store8(&mut self, a: u32, v: u8) -> Result<(), BusFault>
        ensures stored { (result, memory self.new) ≡ store 1 (memory self.old) a v }
        ensures undone { IfOk result (λ _. Undoable 1 (memory self.old) a (memory self.new)) }
        ensures keeps { Keeps (memory self.old) (memory self.new) };

    /// Stores a halfword.
    fn store16(&mut self, a: u32, v: u16) -> Result<(), BusFault>
        ensures stored { (result, memory self.new) ≡ store 2 (memory self.old) a v }
        ensures undone { IfOk result (λ _. Undoable 2 (memory self.old) a (memory self.new)) }
        ensures keeps { Keeps (memory self.old) (memory self.new) };

    /// Stores a word.
    fn store32(&mut self, a: u32, v: u32) -> Result<(), BusFault>
        ensures stored { (result, memory self.new) ≡ store 4 (memory self.old) a v }
        ensures undone { IfOk result (λ _. WordUndoable (memory self.old) a (memory self.new)) }
        ensures keeps { Keeps (memory self.old) (memory self.new) };

    /// Stores words at ascending addresses from `a` on. If one can't be stored, none is, and the fault is that of the
    /// first such word.
    fn store_run(&mut self, a: u32, words: &[u32]) -> Result<(), BusFault>
        ensures stored { (result, memory self.new) ≡ store_run (memory self.old) a words.now }
        ensures undone { IfOk result (λ _. RunUndoable (length words.now) (memory self.old) a (memory self.new)) }
        ensures keeps { Keeps (memory self.old) (memory self.new) };

    /// Fetches a halfword of code.
    fn fetch16(&self, a: u32) -> Result<u16, BusFault>
        ensures { result ≡ fetch (memory self.now) a };

    /// Guards the word of the stack at `a`: stores to its bytes are refused. Guarding it again changes nothing.
    fn guard(&mut self, a: u32)
        requires aligned { a % 4 ≡ 0 }
        requires low { STACK_START ≤ a }
        requires high { a < STACK_END }
        ensures guarded { memory self.new ≡ with_guard (memory self.old) a }
        ensures keeps { Keeps (memory self.old) (memory self.new) };

    /// Removes the guards from the words below `a` of the running stack.
    fn release_below(&mut self, a: u32)
        ensures released { memory self.new ≡ without_guards_below (memory self.old) a }
        ensures keeps { Keeps (memory self.old) (memory self.new) };

    /// Loads the word of the pool at `a`, even in a closed part.
    fn host_load32(&self, a: u32) -> u32
        requires aligned { a % 4 ≡ 0 }
        requires low { POOL_START ≤ a }
        requires high { a < POOL_END }
        ensures { result ≡ host_load (memory self.now) a };

    /// Stores the word of the pool at `a`, even in a closed part.
    fn host_store32(&mut self, a: u32, v: u32)
        requires aligned { a % 4 ≡ 0 }
        requires low { POOL_START ≤ a }
        requires high { a < POOL_END }
        ensures stored { memory self.new ≡ host_store (memory self.old) a v }
        ensures undone { host_store (memory self.new) a (host_load (memory self.old) a) ≡ memory self.old }
        ensures keeps { Keeps (memory self.old) (memory self.new) };

    /// The running stack: its first address, and the address after its last byte.
    fn home(&self) -> (u32, u32)
        ensures { result ≡ (memory self.now).home };

    // An invariant of the memory of every bus.
    ghost is_map: { (bus : Self) → IsMap (memory bus) };
}
