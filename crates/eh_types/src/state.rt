//! The state of the traversal that reads a graph of types (docs/rules/types-and-matching.md).
ghost use Rattle.std.specs.Prelude.{◌≡◌, ◌+◌, ◌<◌, ◌≤◌, ◌&&◌, ◌||◌, ◌==◌, not, if◌then◌else◌, is_some, false, [], ◌∷◌, ◌++◌, ℕ, IfOk, Some, option_map};
ghost use Rattle.std.specs.BTreeSet.{contains};
ghost use Rattle.std.specs.Ordering.{nat_cmp};
ghost use Rattle.eh_types.specs.Reading.{counted_type_at, open_at};

use crate::info::TypeInfo;
use crate::kind::TypeKind;
use std::alloc::AllocError;
use std::collections::{BTreeMap, BTreeSet};

/// A type whose bases have all been read.
#[derive(Drop)]
pub(crate) struct CountedType<'a> {
    /// The type.
    pub info: TypeInfo<'a>,
    /// The number of its paths of bases; the empty path counts.
    pub paths: u32,
}

/// A type whose bases are being read.
#[derive(Clone, Copy)]
pub(crate) struct Frame {
    /// The address of the type.
    pub at: u32,
    /// The kind of the type.
    pub kind: TypeKind,
    /// The number of its bases.
    pub count: u32,
    /// The number of its bases that are done.
    pub next: u32,
    /// The number of paths through the bases that are done, plus one for the empty path.
    pub paths: u64,
}

/// The state of the traversal: the types that are done, those being read, and those that are queued.
#[derive(Drop)]
pub(crate) struct GraphWalk<'a> {
    /// The types that are done, by their addresses.
    pub done: BTreeMap<u32, CountedType<'a>>,
    /// The addresses of the types whose bases are being read; the same types as in `stack`.
    pub open: BTreeSet<u32>,
    /// The types whose bases are being read; each is a base of the one below it.
    pub stack: Vec<Frame>,
    /// The addresses of the types that are queued.
    pub pending: Vec<u32>,
}

impl<'a> GraphWalk<'a> {
    /// The number of paths of a type that is done; None if it isn't done.
    pub(crate) fn paths(&self, a: u32) -> Option<u32>
        ensures { result ≡ option_map (λ d. d.paths) (counted_type_at self.now a) }
    {
        match self.done.get(&a) {
            Some(d) => Some(d.paths),
            None => None,
        }
    }

    /// Whether the bases of a type are being read.
    pub(crate) fn is_open(&self, a: u32) -> bool
        ensures { result ≡ open_at self.now a }
    {
        self.open.contains(&a)
    }
}

/// Adds a number to a set.
pub(crate) fn put(set: &mut BTreeSet<u32>, a: u32) -> Result<(), AllocError>
    ensures { IfOk result (λ _. (q : ℕ) → contains nat_cmp set.new q ≡ (a == q || contains nat_cmp set.old q)) }
{
    set.insert(a)?;
    Ok(())
}

/// Removes a number from a set.
pub(crate) fn take_out(set: &mut BTreeSet<u32>, a: u32)
    ensures { (q : ℕ) → contains nat_cmp set.new q ≡ (not (a == q) && contains nat_cmp set.old q) }
{
    set.remove(&a);
}
