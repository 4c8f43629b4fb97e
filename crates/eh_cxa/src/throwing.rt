//! An exception is thrown, its barrier is recorded, and it lands: docs/rules/phases-and-exceptions.md.
ghost use Rattle.std.specs.Prelude.{◌≡◌, ◌+◌, ℕ, Some, IsSome, Result, Ok, Err};
ghost use Rattle.eh_bus.specs.Lists.{Has};
ghost use Rattle.eh_bus.specs.Memory.{load};
ghost use Rattle.eh_cxa.specs.Words.{word, set_slot_words, call_result, block_slot, object_slot};
ghost use Rattle.eh_cxa.specs.Throw.{Throw, start_throw_of, throw_fault, set_barrier_of, barrier_of, object_and_type, land_of, without_block};
ghost use Rattle.eh_cxa.specs.Lists.{Record, Lists, Live, entry, slots};
ghost use Rattle.eh_cxa.specs.ListCalls.{throw_list, land_list};
ghost use Rattle.eh_cxa.specs.Stands.{Stands, Follows};
ghost use Rattle.eh_cxa.specs.declared.globals.Globals.{Globals};

use crate::globals::{BarrierWords, CxaFault, Globals};
use crate::layout::{BARRIER_DESCRIPTOR, BARRIER_OBJECT, BARRIER_POINTER, BARRIER_SP, TYPE};
use crate::pool::{get, object_of, slot_of_block, slot_of_object, state};
use crate::state::State;
use crate::words::{barrier_words, land_words, throw_words};
use eh_bus::bus::Bus;

/// Throws a fresh exception with this type and destructor, and returns its control block. Err: `BadObject` if `object` isn't the object
/// of a fresh slot.
pub fn start_throw<B: Bus>(
    bus: &mut B,
    g: &mut Globals,
    object: u32,
    ty: u32,
    dtor: u32,
) -> Result<u32, CxaFault>
    ensures words { (result, g.new, B.memory bus.new) ≡ call_result (start_throw_of (word (B.memory bus.old)) g.old (object_slot object) (record { ty = ty; destructor = dtor })) (B.memory bus.old) }
    ensures lists { (l : Lists) → Stands (word (B.memory bus.old)) g.old l → Follows (word (B.memory bus.new)) g.new result (throw_list l (object_slot object) (record { ty = ty; destructor = dtor })) }
{
    throw_words(bus, g, object, ty, dtor)
}

/// Whether `start_throw` would succeed, with its error; nothing changes.
pub fn may_throw<B: Bus>(bus: &B, object: u32) -> Result<(), CxaFault>
    ensures words { result ≡ throw_fault (word (B.memory bus.now)) (object_slot object) }
    ensures lists { (g : Globals) (l : Lists) (t : Throw) → Stands (word (B.memory bus.now)) g l → result ≡ without_block (throw_list l (object_slot object) t).answer }
    ensures same { (g : Globals) (t : Throw) → result ≡ without_block (start_throw_of (word (B.memory bus.now)) g (object_slot object) t).answer }
{
    let Some(slot) = slot_of_object(object) else {
        return Err(CxaFault::BadObject);
    };
    let Some(State::Fresh) = state(bus, slot) else {
        return Err(CxaFault::BadObject);
    };
    Ok(())
}

/// Records the barrier of the throw with this control block. Sets words 3 and 4 of the barrier cache to 0. The guest can load the
/// pointer, at byte 44 of the control block.
pub fn set_barrier<B: Bus>(bus: &mut B, ucb: u32, w: &BarrierWords)
    requires { IsSome (block_slot ucb) }
    ensures words { B.memory bus.new ≡ set_slot_words (set_barrier_of (block_slot ucb) w.now) (B.memory bus.old) }
    ensures lists { (g : Globals) (l : Lists) → Stands (word (B.memory bus.old)) g l → Stands (word (B.memory bus.new)) g l }
    ensures pointer { load 4 (B.memory bus.new) (ucb + 44) ≡ Ok w.now.pointer }
{
    let _sp = w.sp;
    let _object = w.object;
    let _desc = w.desc;
    let _pointer = w.pointer;
    barrier_words(bus, ucb, w)
}

/// The barrier that is recorded in the control block.
#[inline(always)]
pub fn barrier<B: Bus>(bus: &B, ucb: u32) -> BarrierWords
    requires { IsSome (block_slot ucb) }
    ensures { result ≡ barrier_of (word (B.memory bus.now)) (block_slot ucb) }
{
    match slot_of_block(ucb) {
        Some(slot) => BarrierWords {
            sp: get(bus, slot, BARRIER_SP),
            object: get(bus, slot, BARRIER_OBJECT),
            desc: get(bus, slot, BARRIER_DESCRIPTOR),
            pointer: get(bus, slot, BARRIER_POINTER),
        },
        None => BarrierWords {
            sp: 0,
            object: 0,
            desc: 0,
            pointer: 0,
        },
    }
}

/// The addresses of the control block's object and of its type information.
pub fn thrown<B: Bus>(bus: &B, ucb: u32) -> (u32, u32)
    requires { IsSome (block_slot ucb) }
    ensures words { result ≡ object_and_type (word (B.memory bus.now)) (block_slot ucb) }
    ensures lists { (g : Globals) (l : Lists) (s : ℕ) (r : Record) → Stands (word (B.memory bus.now)) g l → block_slot ucb ≡ Some s → entry l s ≡ Live r → result.1 ≡ r.ty }
{
    match slot_of_block(ucb) {
        Some(slot) => (object_of(slot), get(bus, slot, TYPE)),
        None => (0, 0),
    }
}

/// Records that a handler was entered: a flying exception becomes `Landed`. In any other state nothing changes.
pub fn land<B: Bus>(bus: &mut B, ucb: u32)
    requires { IsSome (block_slot ucb) }
    ensures words { B.memory bus.new ≡ set_slot_words (land_of (word (B.memory bus.old)) (block_slot ucb)) (B.memory bus.old) }
    ensures lists { (g : Globals) (l : Lists) (s : ℕ) → Stands (word (B.memory bus.old)) g l → block_slot ucb ≡ Some s → (Has (slots l.cleanups) s → ⊥)
        → Stands (word (B.memory bus.new)) g (land_list l s) }
{
    land_words(bus, ucb)
}
