//! Laws of what landing pads of GNU C++ code are given, and that such a run is the one with recorded activations
//! (docs/rules/gnu-tables.md, "Laws").
ghost use Rattle.std.specs.Prelude.{◌<◌, ◌^◌};
ghost use Rattle.gnu_machine.specs.Laws.{AreFilters, CatchesHaveLanded, PadsAreFree, GnuTurnsSame, GoesOnSame, GnuRunsSame};
ghost use Rattle.gnu_machine.specs.PadLaws.{CatchesGetTheirFilter, CatchesWithoutFilterGetNothing, CleanupsGetTheirBlock, OthersGetNothing, EndsAreTheMachines};

use sim_changes::{facts_are_there, free_anywhere, free_barriers, free_registers};
use sim_resumes::cleanups_are_outside;

/// After an event that enters a handler whose descriptor has a filter, r1 is the filter, and every other register is as the landing left
/// it. Barrier words 0 and 2 are what the handler is given; a pointer is given by value. If the descriptor has no filter, nothing is given.
pub fn catches_get_their_filter()
    ensures filter { CatchesGetTheirFilter }
    ensures none { CatchesWithoutFilterGetNothing }
{}

/// After an event that enters a cleanup, r0 is the control block of the innermost cleanup in progress, and nothing else is changed.
pub fn cleanups_get_their_block()
    ensures { CleanupsGetTheirBlock }
{}

/// Every other event is the machine's own, and so is each event that ends the run.
pub fn others_get_nothing()
    ensures goes { OthersGetNothing }
    ensures ends { EndsAreTheMachines }
{}

/// On an accepted image, an event with recorded activations that enters a handler leaves in r0 the control block of a landed exception.
pub fn catches_have_landed()
    ensures { CatchesHaveLanded }
{
    cleanups_are_outside();
}

/// After such an event has entered a handler or a cleanup, r0 to r3 may hold anything.
pub fn pads_are_free()
    ensures { PadsAreFree }
{
    cleanups_are_outside();
    free_registers();
    free_anywhere();
    facts_are_there();
}

/// A filter is a 32-bit word.
fn is_word(filter: u32)
    ensures { filter < 2 ^ 32 }
{
    let _ = filter;
}

/// Filters are 32-bit words. For proofs: it reads them and does nothing else.
fn are_words(filters: &[(u32, u32)])
    ensures { AreFilters filters.now }
{
    for f in filters {
        is_word(f.1);
    }
}

/// With any filters, one event is the same in both machines. The invariants of the machine with recorded activations hold after it too,
/// whether the run goes on or ends.
pub fn gnu_turns_same(filters: &[(u32, u32)])
    ensures { GnuTurnsSame filters.now }
{
    catches_have_landed();
    pads_are_free();
    free_barriers();
    are_words(filters);
}

/// So runs of any length from states of both machines that stand for each other are the same on an input of bytes. They have the same
/// output, the same end, and the same rest of the input and of the budget. Their last states stand for each other, so their events are the
/// same too. The start of a run is such a state of both machines.
pub fn gnu_runs_same(filters: &[(u32, u32)])
    ensures going { GoesOnSame filters.now }
    ensures start { GnuRunsSame filters.now }
{
    gnu_turns_same(filters);
}
