//! What a throw enters first: phase 1, and then phase 2 from what phase 1 found (docs/rules/phases-and-exceptions.md, "Laws").
ghost use Rattle.std.specs.Prelude.{◌≡◌, None};
ghost use Rattle.eh_phase.specs.Calls.{meeting, stack_of};
ghost use Rattle.eh_phase.specs.Frames.{frames_of};
ghost use Rattle.eh_phase.specs.Phases.{phase1};
ghost use Rattle.eh_phase.specs.FirstLanding.{first_of};

use crate::phase1::{Barrier, Found, search};
use crate::phase2::{Entered, Goal, advance};
use crate::verdict::Thrown;
use crate::walk::Tables;
use eh_bus::bus::Bus;
use eh_bytecode::Vrs;

/// The first thing that a throw does.
#[derive(Clone, Copy)]
pub enum First {
    /// Phase 1 found `barrier`; `entered` is what phase 2 enters first on the way to it: a cleanup, or the barrier itself.
    Enters { barrier: Barrier, entered: Entered },
    /// Phase 1 found no barrier (`Found` isn't `Barrier`), so nothing is entered.
    Ends(Found),
}

/// Runs phase 1 from the registers and call site of the throwing frame. If it finds a barrier, also tells what phase 2 enters first
/// while the memory is unchanged. Without a barrier there is no phase 2, and no cleanup of the throw is entered. Allocates nothing.
pub fn first_landing<B: Bus>(
    t: &Tables,
    bus: &B,
    from: &Vrs,
    site: u32,
    what: &Thrown,
    limit: Option<u32>,
) -> First
    ensures { result ≡ first_of (phase1 (meeting t.now.index t.now.types.now (B.memory bus.now).segments what.now) (frames_of t.now.index (stack_of (B.memory bus.now)) limit site from.now.r))
        (frames_of t.now.index (stack_of (B.memory bus.now)) None site from.now.r) }
{
    match search(t, bus, from, site, what, limit) {
        Found::Barrier(barrier) => {
            let goal = Goal {
                sp: barrier.sp,
                desc: barrier.desc,
            };
            First::Enters {
                barrier,
                entered: advance(t, bus, from, site, 0, &goal),
            }
        }
        Found::Terminate(cause) => First::Ends(Found::Terminate(cause)),
        Found::ObjectRead(a) => First::Ends(Found::ObjectRead(a)),
    }
}
