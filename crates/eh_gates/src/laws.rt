//! What the gates guarantee, in the terms of their users (docs/rules/machine.md, "Laws").
ghost use Rattle.eh_gates.specs.Laws.{GatesLeave, FailedSearchesEnterNothing, FailedRethrowsEnterNothing, HeadsStay, GatesKeepTheMap};

/// A gate that ends the run leaves the registers as they were before its instruction. Unless it terminates, it leaves the globals and
/// the memory too.
pub fn gates_leave()
    ensures { GatesLeave }
{}

/// A throw that finds no barrier enters nothing: no cleanup and no handler, and no exception is flying. It only adds its own event.
pub fn failed_searches_enter_nothing()
    ensures { FailedSearchesEnterNothing }
{}

/// A rethrow that finds no barrier enters nothing either.
pub fn failed_rethrows_enter_nothing()
    ensures { FailedRethrowsEnterNothing }
{}

/// If the heads of the caught stack and of the cleanups in progress are each 0 or a slot's control block, they still are after every
/// gate.
pub fn heads_stay()
    ensures { HeadsStay }
{}

/// No gate changes the memory map: segments only change in the bytes of writable ones.
pub fn gates_keep_the_map()
    ensures { GatesKeepTheMap }
{}
