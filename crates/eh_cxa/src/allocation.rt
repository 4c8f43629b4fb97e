//! Slots are allocated and freed: docs/rules/phases-and-exceptions.md. Each call that writes words has two clauses: `words` says what it does to any
//! pool. `lists` says what that means for the exceptions, if the pool is valid.
ghost use Rattle.std.specs.Prelude.{◌≡◌, ◌<◌, ◌≤◌, ◌*◌, ℕ, Some, Ok, IsSome, MatchResult};
ghost use Rattle.eh_cxa.specs.Words.{word, wrote, object, object_slot};
ghost use Rattle.eh_cxa.specs.Allocate.{allocate_of, free_of, size_at};
ghost use Rattle.eh_cxa.specs.Lists.{Record, Lists, Live, entry};
ghost use Rattle.eh_cxa.specs.ListCalls.{allocate_list, free_list};
ghost use Rattle.eh_cxa.specs.Stands.{Stands, Follows};
ghost use Rattle.eh_cxa.specs.declared.globals.Globals.{Globals};
ghost use Rattle.eh_cxa.specs.declared.layout.TheConstants.{SLOTS, STATE};
ghost use Rattle.eh_bus.specs.declared.map.TheConstants.{SLOT_SIZE};
ghost use Rattle.eh_cxa.specs.declared.state.TheConstants.{FREE};

use crate::globals::CxaFault;
use crate::layout::SIZE;
use crate::pool::{get, slot_of_object};
use crate::words::{allocate_words, free_words};
use eh_bus::bus::Bus;

/// Allocates the lowest free slot for an object of `size` bytes, clears the slot, and returns the object's address. Err: `TooBig` over
/// 384 bytes, else `PoolFull` if no slot is free.
pub fn allocate<B: Bus>(bus: &mut B, size: u32) -> Result<u32, CxaFault>
    ensures words { (result, B.memory bus.new) ≡ wrote (allocate_of (word (B.memory bus.old)) size) (B.memory bus.old) }
    ensures lists { (g : Globals) (l : Lists) → Stands (word (B.memory bus.old)) g l → Follows (word (B.memory bus.new)) g result (allocate_list l size) }
    ensures lowest { (t : ℕ) → t < SLOTS → word (B.memory bus.old) t STATE ≡ FREE → MatchResult result (λ a. a ≤ object t) (λ e. e ≡ CxaFault.TooBig) }
    ensures cleared { (s k : ℕ) → result ≡ Ok (object s) → s < SLOTS → 2 ≤ k → 4 * k < SLOT_SIZE → word (B.memory bus.new) s k ≡ 0 }
{
    allocate_words(bus, size)
}

/// Frees the slot of an object that was never thrown, or whose last handler ended. Err: `BadObject` if `object` isn't the address of
/// such an object.
pub fn free<B: Bus>(bus: &mut B, object: u32) -> Result<(), CxaFault>
    ensures words { (result, B.memory bus.new) ≡ wrote (free_of (word (B.memory bus.old)) (object_slot object)) (B.memory bus.old) }
    ensures lists { (g : Globals) (l : Lists) → Stands (word (B.memory bus.old)) g l → Follows (word (B.memory bus.new)) g result (free_list l (object_slot object)) }
{
    free_words(bus, object)
}

/// The size of an object in bytes, as it was given to `allocate`.
pub fn object_size<B: Bus>(bus: &B, object: u32) -> u32
    requires { IsSome (object_slot object) }
    ensures words { result ≡ size_at (word (B.memory bus.now)) (object_slot object) }
    ensures lists { (g : Globals) (l : Lists) (s : ℕ) (r : Record) → Stands (word (B.memory bus.now)) g l → object_slot object ≡ Some s → entry l s ≡ Live r → result ≡ r.size }
{
    match slot_of_object(object) {
        Some(slot) => get(bus, slot, SIZE),
        None => 0,
    }
}
