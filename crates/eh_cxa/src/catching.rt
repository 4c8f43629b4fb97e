//! Handlers begin and end their catches, and rethrow: docs/rules/phases-and-exceptions.md.
ghost use Rattle.std.specs.Prelude.{◌≡◌, ℕ};
ghost use Rattle.eh_cxa.specs.declared.layout.TheConstants.{BARRIER_OBJECT};
ghost use Rattle.eh_cxa.specs.Words.{word, call_result, block_slot};
ghost use Rattle.eh_cxa.specs.Catch.{begin_catch_of, end_catch_of, rethrow_of};
ghost use Rattle.eh_cxa.specs.Lists.{Lists};
ghost use Rattle.eh_cxa.specs.ListCalls.{catch_list, end_list, rethrow_list};
ghost use Rattle.eh_cxa.specs.Stands.{Stands, Follows};

use crate::globals::{CxaFault, Globals};
use crate::pool::{block_of, slot_of_block, state};
use crate::state::State;
use crate::words::{catch_words, end_catch_words, rethrow_words};
use eh_bus::bus::Bus;

/// Begins a catch. Pushes the exception onto the caught stack, unless it is there already, and returns the address that the handler is
/// given. Err: `BadUcb` if `ucb` isn't the control block of an exception that landed; `CaughtOrder` if its handler count isn't 0 and it
/// isn't on top.
pub fn begin_catch<B: Bus>(bus: &mut B, g: &mut Globals, ucb: u32) -> Result<u32, CxaFault>
    ensures words { (result, g.new, B.memory bus.new) ≡ call_result (begin_catch_of (word (B.memory bus.old)) g.old ucb) (B.memory bus.old) }
    ensures lists { (l : Lists) → Stands (word (B.memory bus.old)) g.old l → Follows (word (B.memory bus.new)) g.new result (catch_list (λ s. word (B.memory bus.old) s BARRIER_OBJECT) l (block_slot ucb)) }
{
    let _head = g.caught;
    catch_words(bus, g, ucb)
}

/// Ends the handler of the exception on top of the caught stack. If it was the last handler, and the exception wasn't rethrown, returns
/// the object's address and its destructor's; else two zeros. A rethrown exception leaves the stack with its last handler. Err:
/// `NoCaught` if the stack is empty.
pub fn end_catch<B: Bus>(bus: &mut B, g: &mut Globals) -> Result<(u32, u32), CxaFault>
    ensures words { (result, g.new, B.memory bus.new) ≡ call_result (end_catch_of (word (B.memory bus.old)) g.old) (B.memory bus.old) }
    ensures lists { (l : Lists) → Stands (word (B.memory bus.old)) g.old l → Follows (word (B.memory bus.new)) g.new result (end_list l) }
{
    end_catch_words(bus, g)
}

/// Throws the exception on top of the caught stack again, and returns its control block. Err: `NoCaught` if the stack is empty;
/// `CaughtOrder` if the top isn't in the state `Caught`.
pub fn rethrow<B: Bus>(bus: &mut B, g: &mut Globals) -> Result<u32, CxaFault>
    ensures words { (result, g.new, B.memory bus.new) ≡ call_result (rethrow_of (word (B.memory bus.old)) g.old) (B.memory bus.old) }
    ensures lists { (l : Lists) → Stands (word (B.memory bus.old)) g.old l → Follows (word (B.memory bus.new)) g.new result (rethrow_list l) }
{
    rethrow_words(bus, g)
}

/// The result that `rethrow` would give; nothing changes.
pub fn may_rethrow<B: Bus>(bus: &B, g: &Globals) -> Result<u32, CxaFault>
    ensures words { result ≡ (rethrow_of (word (B.memory bus.now)) g.now).answer }
    ensures lists { (l : Lists) → Stands (word (B.memory bus.now)) g.now l → result ≡ (rethrow_list l).answer }
{
    let Some(slot) = slot_of_block(g.caught) else {
        return Err(CxaFault::NoCaught);
    };
    let Some(State::Caught) = state(bus, slot) else {
        return Err(CxaFault::CaughtOrder);
    };
    Ok(block_of(slot))
}
