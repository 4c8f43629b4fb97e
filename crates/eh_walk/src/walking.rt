//! The frames of a running program, the innermost first (docs/guide/walks-and-threads.md).
ghost use Rattle.std.specs.Prelude.{◌≡◌, IfOk};
ghost use Rattle.sim_machines.specs.Checked.{program_of};
ghost use Rattle.eh_walk.specs.Walks.{IsWalk, walk_of};
ghost use Rattle.eh_walk.specs.Laws.{WalksActivations};

use crate::sites::site;
use crate::walk::{Backtrace, WalkEnd, WalkMemory, walk_from};
use eh_bus::bus::Bus;
use eh_machine::{Core, Shared, tables};
use frame_check::Accepted;
use std::alloc::Global;

/// The frames of a state, the innermost first, at most as many as asked for. Takes memory for their list only, and unwinds each frame once.
/// They are the frames of the recorded activations.
pub fn backtrace<B: Bus>(
    alloc: Global,
    a: &Accepted,
    core: &Core,
    shared: &Shared<B>,
    most: usize,
) -> Result<Backtrace, WalkMemory>
    ensures bytes { IfOk result (λ t. IsWalk most (walk_of (program_of a.now) core.now.regs (B.memory shared.now.bus)) t) }
    ensures recorded { IfOk result (λ t. WalksActivations a.now core.now (B.memory shared.now.bus) most t) }
{
    a.holds();
    let _ = a.image().functions();
    match site(a, core, shared) {
        None => Ok(Backtrace {
            frames: Vec::new(alloc),
            end: WalkEnd::NotSite,
        }),
        Some(site) => walk_from(alloc, &tables(a), &shared.bus, &core.regs, site, most),
    }
}
