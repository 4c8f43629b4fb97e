//! What the paths so far tell of a wanted type: none leads to it, they lead to one subobject, or to more. docs/rules/types-and-matching.md states the
//! rules.
ghost use Rattle.std.specs.Prelude.{◌≡◌, ℕ, Bool, Option, Result};
ghost use Rattle.eh_match.specs.Subobjects.{same_root};
ghost use Rattle.eh_match.specs.Walk.{is_alike, public_at, with_path_if_wanted, public_address};

use crate::path::Path;
use eh_types::TypeGraph;

/// What the paths so far tell of a wanted type.
#[derive(Clone, Copy)]
pub enum BaseLookup {
    /// No path leads to it.
    Nothing,
    /// They lead to one subobject. Has the first such path, and where the first public one leads (None if none is public).
    One(Path, Option<Result<u32, u32>>),
    /// They lead to more than one subobject.
    Parted,
}

fn is_same_root(graph: &TypeGraph, a: Option<u32>, b: Option<u32>) -> bool
    ensures { result ≡ same_root graph.now a b }
{
    match a {
        None => b.is_none(),
        Some(a) => match b {
            None => false,
            Some(b) => graph.is_same(a, b),
        },
    }
}

fn is_alike(graph: &TypeGraph, a: &Path, b: &Path) -> bool
    ensures { result ≡ is_alike graph.now a.now b.now }
{
    a.offset == b.offset && is_same_root(graph, a.root, b.root)
}

fn public_at(path: &Path) -> Option<Result<u32, u32>>
    ensures { result ≡ public_at path.now }
{
    if path.is_public { Some(path.at) } else { None }
}

impl BaseLookup {
    /// The result with one more path.
    #[tactic(auto, unfolding(crate::specs::Walk::with_path_if_wanted))]
    pub fn note(self, graph: &TypeGraph, wanted: u32, path: &Path) -> BaseLookup
        ensures { result ≡ with_path_if_wanted graph.now wanted self path.now }
    {
        if graph.is_same(path.ty, wanted) {
            match self {
                BaseLookup::Nothing => BaseLookup::One(*path, public_at(path)),
                BaseLookup::One(first, held) => {
                    if is_alike(graph, &first, path) {
                        BaseLookup::One(
                            first,
                            if held.is_some() {
                                held
                            } else {
                                public_at(path)
                            },
                        )
                    } else {
                        BaseLookup::Parted
                    }
                }
                BaseLookup::Parted => BaseLookup::Parted,
            }
        } else {
            self
        }
    }

    /// Where the first public path to the one subobject leads; None if there is no such path or subobject.
    pub fn held(self) -> Option<Result<u32, u32>>
        ensures { result ≡ public_address self }
    {
        match self {
            BaseLookup::One(_, held) => held,
            BaseLookup::Nothing | BaseLookup::Parted => None,
        }
    }
}
