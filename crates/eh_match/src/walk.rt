//! The walk over the bases of a type, depth first. docs/rules/types-and-matching.md says which paths it visits.
ghost use Rattle.std.specs.Prelude.{◌≡◌, ℕ, List, Option, Result, map};
ghost use Rattle.std.specs.List.{fold};
ghost use Rattle.eh_match.specs.Paths.{paths};
ghost use Rattle.eh_match.specs.Rules.{base_at};
ghost use Rattle.eh_match.specs.Walk.{path_of, with_path_if_wanted};

use crate::path::Path;
use crate::seen::BaseLookup;
use eh_bus::bus::Bus;
use eh_types::TypeGraph;
use eh_types::graph::MOST_PATHS;

/// The result `seen`, extended by all paths that go on from `path` with fewer than `left` steps.
#[tactic(auto, using(crate::proofs::Walks::paths_none))]
fn walk<B: Bus>(
    graph: &TypeGraph,
    bus: &B,
    wanted: u32,
    left: u32,
    path: &Path,
    seen: BaseLookup,
) -> BaseLookup
    ensures { result ≡ fold (with_path_if_wanted graph.now wanted) seen (map (path_of (B.memory bus.now).segments path.now) (paths graph.now left path.now.ty)) }
{
    if left == 0 {
        return seen;
    }
    let mut seen = seen.note(graph, wanted, path);
    for base in graph.bases(path.ty) {
        seen = walk(
            graph,
            bus,
            wanted,
            left - 1,
            &path.with_step(&base, bus),
            seen,
        );
    }
    seen
}

/// Where the one subobject of the type `wanted` in an object of type `ty` is: its address, or Err with the first address that can't be
/// loaded. None if there isn't exactly one, or no public path leads to it. `at` is the object's address, or Err if it couldn't be
/// loaded.
#[tactic(auto, using(crate::proofs::Carried::carried))]
pub fn base_at<B: Bus>(
    graph: &TypeGraph,
    bus: &B,
    ty: u32,
    at: Result<u32, u32>,
    wanted: u32,
) -> Option<Result<u32, u32>>
    ensures { result ≡ base_at graph.now (B.memory bus.now).segments ty at wanted }
{
    let path = Path::empty_path(ty, at);
    walk(graph, bus, wanted, MOST_PATHS, &path, BaseLookup::Nothing).held()
}
