//! Records what a run needs to know of a function's addresses in the roles. docs/rules/acceptance.md, "What a run asks".
ghost use Rattle.std.specs.Prelude.{◌≡◌, ℕ, ◌+◌, ◌*◌, ◌%◌, ◌^◌, ◌<◌, ◌≤◌, ◌∷◌, [], map, All, Contains, OnOk};
ghost use Rattle.frame_reach.specs.Marks.{AreMarks};
ghost use Rattle.frame_reach.specs.Held.{is_set, marks_of};
ghost use Rattle.frame_reach.specs.Prologue.{prologue};
ghost use Rattle.frame_check.specs.declared.pushes.ProloguePush.{ProloguePush as Push};
ghost use Rattle.frame_check.specs.Pushes.{pushing_of, pushings_of};
ghost use Rattle.frame_check.specs.Marking.{with_instr, with_lowers, with_start, with_saves, ChangesRole, AreInstrs, AreLowered, AreSaved, IsMarked};

use crate::judge::CheckedFunction;
use crate::pushes::{ProloguePush, put_push_saves};
use crate::roles::Roles;
use crate::room::Room;
use frame_graph::FlowGraph;
use std::alloc::AllocError;

/// Marks an address as a checked instruction.
fn mark_instr(roles: &mut Roles, a: u32) -> Result<(), AllocError>
    requires { a % 2 ≡ 0 }
    ensures { OnOk result (ChangesRole with_instr a roles.old roles.new) }
{
    let mut role = roles.look_up_role(a);
    role.is_instr = true;
    roles.put(a, role)
}

/// Marks an address as a lowering place.
fn mark_lowers(roles: &mut Roles, a: u32) -> Result<(), AllocError>
    requires { a % 2 ≡ 0 }
    ensures { OnOk result (ChangesRole with_lowers a roles.old roles.new) }
{
    let mut role = roles.look_up_role(a);
    role.lowers = true;
    roles.put(a, role)
}

/// Marks an address as a function's start.
fn mark_start(roles: &mut Roles, a: u32) -> Result<(), AllocError>
    requires { a % 2 ≡ 0 }
    ensures { OnOk result (ChangesRole with_start a roles.old roles.new) }
{
    let mut role = roles.look_up_role(a);
    role.is_function = true;
    roles.put(a, role)
}

/// Records the saves of a PUSH.
fn mark_push(roles: &mut Roles, push: &ProloguePush) -> Result<(), AllocError>
    requires { push.now.at % 2 ≡ 0 }
    ensures { OnOk result (ChangesRole (with_saves push.now.saves) push.now.at roles.old roles.new) }
{
    let mut role = roles.look_up_role(push.at);
    role.saves = push.saves;
    roles.put(push.at, role)
}

/// Marks places of a function as checked instructions.
fn mark_places(roles: &mut Roles, flow_graph: &FlowGraph, places: &[u32]) -> Result<(), AllocError>
    requires even { flow_graph.now.start % 2 ≡ 0 }
    requires low { (p : ℕ) → Contains places.now p → flow_graph.now.start + 2 * p < 2 ^ 32 }
    ensures { OnOk result (AreInstrs flow_graph.now places.now roles.old roles.new) }
{
    for place in places {
        mark_instr(roles, flow_graph.address_of(*place))?;
    }
    Ok(())
}

/// Marks a place of a function if it is a lowering place.
fn mark_lowering(
    roles: &mut Roles,
    flow_graph: &FlowGraph,
    reached: &[bool],
    place: u32,
) -> Result<(), AllocError>
    requires even { flow_graph.now.start % 2 ≡ 0 }
    requires low { flow_graph.now.start + 2 * place < 2 ^ 32 }
    ensures { OnOk result (AreLowered flow_graph.now (is_set reached.now) (place ∷ []) roles.old roles.new) }
{
    if flow_graph.is_lowering(reached, place) {
        mark_lowers(roles, flow_graph.address_of(place))
    } else {
        Ok(())
    }
}

/// Marks those of a function's places that are lowering places.
fn mark_lowerings(
    roles: &mut Roles,
    flow_graph: &FlowGraph,
    reached: &[bool],
    places: &[u32],
) -> Result<(), AllocError>
    requires even { flow_graph.now.start % 2 ≡ 0 }
    requires low { (p : ℕ) → Contains places.now p → flow_graph.now.start + 2 * p < 2 ^ 32 }
    ensures { OnOk result (AreLowered flow_graph.now (is_set reached.now) places.now roles.old roles.new) }
{
    for place in places {
        mark_lowering(roles, flow_graph, reached, *place)?;
    }
    Ok(())
}

/// Records the saves of PUSHes.
fn mark_pushes(roles: &mut Roles, pushes: &[ProloguePush]) -> Result<(), AllocError>
    requires { All (λ (x : Push). x.at % 2 ≡ 0) pushes.now }
    ensures { OnOk result (AreSaved pushes.now roles.old roles.new) }
{
    for push in pushes {
        mark_push(roles, push)?;
    }
    Ok(())
}

/// Marks the checked instructions of a function, its lowering places, its start, and its prologue's saves. `room` must have the PUSHes
/// of its prologue.
pub(crate) fn mark(
    room: &mut Room,
    roles: &mut Roles,
    flow_graph: &FlowGraph,
    well: &CheckedFunction,
) -> Result<(), AllocError>
    requires even { flow_graph.now.start % 2 ≡ 0 }
    requires prologue { well.now.prologue ≡ prologue flow_graph.now (marks_of well.now.reached) }
    requires pushes { map pushing_of room.old.pushes.items ≡ pushings_of flow_graph.now (marks_of well.now.reached) }
    requires some { flow_graph.now.start < flow_graph.now.end }
    requires low { flow_graph.now.end + 4 ≤ 2 ^ 32 }
    requires marks { AreMarks flow_graph.now (marks_of well.now.reached) }
    ensures { OnOk result (IsMarked flow_graph.now (marks_of well.now.reached) roles.old roles.new) }
{
    let _end = flow_graph.end();
    let found = well.reached.places();
    mark_places(roles, flow_graph, found)?;
    mark_lowerings(roles, flow_graph, well.reached.reached(), found)?;
    mark_start(roles, flow_graph.start())?;
    put_push_saves(&mut room.pushed, &well.prologue, &room.pushes)?;
    mark_pushes(roles, &room.pushed)
}
