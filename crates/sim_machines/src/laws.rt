//! What users can rely on for one event (docs/rules/machine.md, "Laws").
ghost use Rattle.sim_machines.specs.Laws.{EndsLeave, GuardsAreReleased};

/// An event that ends the run leaves the registers as before its instruction. If it ends by a trap, an exit or a fault, it leaves globals
/// and memory too.
pub fn ends_leave()
    ensures { EndsLeave }
{}

/// When sp rises, exactly the guarded words of the running stack below it are released.
pub fn guards_are_released()
    ensures { GuardsAreReleased }
{}
