//! Cleanups in progress, the innermost first: docs/rules/phases-and-exceptions.md.
ghost use Rattle.std.specs.Prelude.{◌≡◌, ℕ, Some, IsSome};
ghost use Rattle.eh_bus.specs.Lists.{Has};
ghost use Rattle.eh_cxa.specs.declared.state.State.TheVariants.{Flying};
ghost use Rattle.eh_cxa.specs.Words.{word, call_result, block_slot};
ghost use Rattle.eh_cxa.specs.Cleanup.{begin_cleanup_of, end_cleanup_of, innermost_of};
ghost use Rattle.eh_cxa.specs.Lists.{Lists, entry, slots, state_in};
ghost use Rattle.eh_cxa.specs.ListCalls.{begin_cleanup_list, end_cleanup_list, innermost_in};
ghost use Rattle.eh_cxa.specs.Stands.{Stands, Follows};

use crate::globals::{CleanupWords, CxaFault, Globals};
use crate::layout::CLEANUP_SP;
use crate::pool::{get, slot_of_block};
use crate::words::{begin_cleanup_words, end_cleanup_words};
use eh_bus::bus::Bus;

/// Records that a cleanup of this throw was entered; it is now the innermost in progress.
pub fn begin_cleanup<B: Bus>(bus: &mut B, g: &mut Globals, ucb: u32, w: &CleanupWords)
    requires { IsSome (block_slot ucb) }
    ensures words { (tt, g.new, B.memory bus.new) ≡ call_result (begin_cleanup_of g.old ucb w.now) (B.memory bus.old) }
    ensures lists { (l : Lists) (s : ℕ) → Stands (word (B.memory bus.old)) g.old l → block_slot ucb ≡ Some s → state_in (entry l s) ≡ Some Flying → (Has (slots l.cleanups) s → ⊥)
        → Stands (word (B.memory bus.new)) g.new (begin_cleanup_list l s w.now) }
{
    let _head = g.cleanup;
    let _next = w.next;
    let _sp = w.sp;
    let _site = w.site;
    begin_cleanup_words(bus, g, ucb, w)
}

/// Ends the innermost cleanup in progress, in a frame with this `sp`. Returns its control block and what it was entered with. Err:
/// `NoCleanup` if none is in progress; `CleanupElsewhere` if the innermost was entered with another `sp`.
pub fn end_cleanup<B: Bus>(
    bus: &mut B,
    g: &mut Globals,
    sp: u32,
) -> Result<(u32, CleanupWords), CxaFault>
    ensures words { (result, g.new, B.memory bus.new) ≡ call_result (end_cleanup_of (word (B.memory bus.old)) g.old sp) (B.memory bus.old) }
    ensures lists { (l : Lists) → Stands (word (B.memory bus.old)) g.old l → Follows (word (B.memory bus.new)) g.new result (end_cleanup_list l sp) }
{
    end_cleanup_words(bus, g, sp)
}

/// The `sp` with which the innermost cleanup in progress was entered; None if none is in progress.
pub fn innermost_sp<B: Bus>(bus: &B, g: &Globals) -> Option<u32>
    ensures words { result ≡ innermost_of (word (B.memory bus.now)) g.now }
    ensures lists { (l : Lists) → Stands (word (B.memory bus.now)) g.now l → result ≡ innermost_in l.cleanups }
{
    let slot = slot_of_block(g.cleanup)?;
    Some(get(bus, slot, CLEANUP_SP))
}
