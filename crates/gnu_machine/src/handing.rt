//! What the code of a GNU C++ image is given at a landing pad (docs/rules/gnu-tables.md, "What a landing pad is given").
ghost use Rattle.std.specs.Prelude.{◌≡◌};
ghost use Rattle.std.specs.List.Sorted.{IsStrictlySortedBy};
ghost use Rattle.std.specs.Ordering.{nat_cmp};
ghost use Rattle.std.specs.Map.{keys_of};
ghost use Rattle.eh_cxa.specs.Words.{block_slot};
ghost use Rattle.eh_gates.specs.State.{State, state_of};
ghost use Rattle.eh_trace.specs.Trace.{Trace};
ghost use Rattle.run_gates.specs.Gates.{r0};
ghost use Rattle.gnu_machine.specs.Handed.{totals_of, landing_after, by_value, at_catch, pad_arguments};
ghost use Rattle.gnu_machine.specs.GnuMachine.{state_view, with_arguments};

use eh_bus::bus::Bus;
use eh_cxa::pool::slot_of_block;
use eh_cxa::{BarrierWords, barrier, set_barrier, thrown};
use eh_machine::Core;
use eh_trace::{EventKind, Events};
use eh_types::TypeKind;
use frame_check::Accepted;
use gnu_index::filter_of;

/// The kind of landing pad that an event entered.
#[derive(Clone, Copy)]
pub enum PadKind {
    /// At a catch.
    Catch,
    /// In a cleanup.
    Cleanup,
}

/// How many catches and cleanups were entered in a run.
#[derive(Clone, Copy)]
pub struct Totals {
    /// The number of handlers entered.
    pub catches: u64,
    /// The number of cleanups entered.
    pub cleanups: u64,
}

/// The totals of the events so far.
pub(crate) fn totals_of(events: &Events) -> Totals
    ensures { result ≡ totals_of events.now }
{
    Totals {
        catches: events.total(EventKind::Catch),
        cleanups: events.total(EventKind::Cleanup),
    }
}

/// The kind of landing pad that an event entered, from the totals before and after it. None if it entered neither.
fn landing_after(before: Totals, after: Totals) -> Option<PadKind>
    ensures { result ≡ landing_after before after }
{
    if before.catches < after.catches {
        Some(PadKind::Catch)
    } else if before.cleanups < after.cleanups {
        Some(PadKind::Cleanup)
    } else {
        None
    }
}

/// What a handler gets in place of the address of the object. If the object is a pointer, the handler gets the pointer.
fn by_value<B: Bus>(bus: &B, kind: Option<TypeKind>, address: u32) -> u32
    ensures { result ≡ by_value (B.memory bus.now).segments kind address }
{
    let Some(TypeKind::Pointer { .. }) = kind else {
        return address;
    };
    match bus.load32(address) {
        Ok(word) => word,
        Err(_) => address,
    }
}

/// Gives a handler the filter of its catch, if its descriptor has one, and the object that it caught by value.
fn give_catch_arguments<B: Bus>(a: &Accepted, filters: &[(u32, u32)], core: &mut Core, bus: &mut B)
    requires { IsStrictlySortedBy nat_cmp (keys_of filters.now) }
    ensures { (events : Trace) →
        let old : State = state_of core.old (B.memory bus.old) events in
        state_of core.new (B.memory bus.new) events ≡ with_arguments old (at_catch a.now.types filters.now (state_view old) (block_slot (r0 core.old.regs))) }
{
    let control = core.regs.r[0];
    if slot_of_block(control).is_none() {
        return;
    }
    let b = barrier(bus, control);
    let Some(filter) = filter_of(filters, b.desc) else {
        return;
    };
    let (_, ty) = thrown(bus, control);
    let object = by_value(bus, a.types().kind(ty), b.object);
    let handed = BarrierWords {
        sp: b.sp,
        object,
        desc: b.desc,
        pointer: object,
    };
    set_barrier(bus, control, &handed);
    core.regs.r[1] = filter;
}

/// Gives a landing pad what its code expects, if the event entered one. `before` has the totals before the event. Takes no memory.
pub(crate) fn give_pad_arguments<B: Bus>(
    a: &Accepted,
    filters: &[(u32, u32)],
    before: Totals,
    core: &mut Core,
    bus: &mut B,
    events: &Events,
)
    requires { IsStrictlySortedBy nat_cmp (keys_of filters.now) }
    ensures { let old : State = state_of core.old (B.memory bus.old) events.now in
        state_of core.new (B.memory bus.new) events.now ≡ with_arguments old (pad_arguments a.now.types filters.now (state_view old) (landing_after before (totals_of events.now))) }
{
    match landing_after(before, totals_of(events)) {
        Some(PadKind::Catch) => give_catch_arguments(a, filters, core, bus),
        Some(PadKind::Cleanup) => core.regs.r[0] = core.globals.cleanup,
        None => {}
    }
}
