//! Guards of saved words (docs/rules/machine.md, "An event").
ghost use Rattle.std.specs.Prelude.{◌≡◌, ◌+◌, ◌*◌, ◌%◌, ◌<◌, ◌≤◌};
ghost use Rattle.eh_bus.specs.Memory.{guard_all};
ghost use Rattle.eh_bus.specs.declared.map.TheConstants.{STACK_START, STACK_END};
ghost use Rattle.sim_machines.specs.Machine.{saved_words, update_guards};

use eh_bus::bus::Bus;

/// Guards saved words of a push. The push stored `count` words from `sp` up, and bit k of `saves` says whether word k is a save. The last
/// word is guarded first.
fn guard_saves<B: Bus>(saves: u16, count: u32, sp: u32, bus: &mut B)
    requires few { count ≤ 16 }
    requires aligned { 0 < count → sp % 4 ≡ 0 }
    requires low { 0 < count → STACK_START ≤ sp }
    requires high { 0 < count → sp + 4 * count ≤ STACK_END }
    ensures { B.memory bus.new ≡ guard_all (saved_words saves count sp) (B.memory bus.old) }
{
    let mut k = count;
    while k > 0 {
        k -= 1;
        if (saves >> k) & 1 == 1 {
            bus.guard(sp + 4 * k);
        }
    }
}

/// The same, with no call if no word was pushed.
#[inline(always)]
pub(crate) fn guard_pushed<B: Bus>(saves: u16, count: u32, sp: u32, bus: &mut B)
    requires few { count ≤ 16 }
    requires aligned { 0 < count → sp % 4 ≡ 0 }
    requires low { 0 < count → STACK_START ≤ sp }
    requires high { 0 < count → sp + 4 * count ≤ STACK_END }
    ensures { B.memory bus.new ≡ guard_all (saved_words saves count sp) (B.memory bus.old) }
{
    if count == 0 {
        return;
    }
    guard_saves(saves, count, sp, bus);
}

/// Guards the saves among the pushed words. If sp rose, it releases the guarded words below it.
#[inline(always)]
pub(crate) fn update_guards<B: Bus>(saves: u16, count: u32, old: u32, sp: u32, bus: &mut B)
    requires few { count ≤ 16 }
    requires aligned { 0 < count → sp % 4 ≡ 0 }
    requires low { 0 < count → STACK_START ≤ sp }
    requires high { 0 < count → sp + 4 * count ≤ STACK_END }
    ensures { B.memory bus.new ≡ update_guards saves count old sp (B.memory bus.old) }
{
    guard_pushed(saves, count, sp, bus);
    if old < sp {
        bus.release_below(sp);
    }
}
