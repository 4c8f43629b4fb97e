//! The facts of a function's places while they are computed. docs/rules/acceptance.md, "Valid facts".
ghost use Rattle.std.specs.Prelude.{◌≡◌, ◌<◌, [], List, Option, Some, None, length, replicate, slice_set, slice_index_or, option_copied, OnOk};
ghost use Rattle.frame_dataflow.specs.Flow.{fact_at};

use frame_facts::Fact;
use std::alloc::{AllocError, Global};
use std::marker::Model;

/// A place with its fact.
#[derive(Clone, Copy)]
pub(crate) struct PlaceFact {
    place: u32,
    fact: Fact,
}

/// A table with at most one fact for each place. In contracts, it is a list with one element a place. A place without a fact only takes
/// the memory of a number.
#[derive(Drop)]
pub(crate) struct Facts {
    slots: Vec<Option<u32>>,
    known: Vec<PlaceFact>,
}

impl Model for Facts {
    ghost use Rattle.std.specs.Prelude.{List, Option};
    ghost use Rattle.frame_facts.specs.declared.facts.Fact.{Fact as AFact};
    ghost use Rattle.frame_flow.specs.Table.{table, IsTable};

    ghost Value = { List (Option AFact) };

    ghost view = { λ f. table f.slots.items f.known.items };

    ghost invariant = { λ f. IsTable f.slots.items f.known.items };
}

impl Facts {
    /// A table without places.
    pub(crate) fn none(alloc: Global) -> Facts
        ensures { result ≡ [] }
    {
        Facts {
            slots: Vec::new(alloc),
            known: Vec::new(alloc),
        }
    }

    /// Makes it a table of `count` places without facts, and reuses its memory.
    pub(crate) fn blank(&mut self, count: u32) -> Result<(), AllocError>
        ensures { OnOk result (self.new ≡ replicate count None) }
    {
        self.slots.clear();
        self.known.clear();
        self.slots.resize(count as usize, None)
    }

    /// The fact of a place; None if it has none.
    pub(crate) fn get(&self, place: u32) -> Option<&Fact>
        requires { place < length self.now }
        ensures { option_copied result ≡ fact_at self.now place }
    {
        match self.slots[place as usize] {
            None => None,
            Some(slot) => Some(&self.known[slot as usize].fact),
        }
    }

    /// Sets the fact of a place.
    pub(crate) fn put(&mut self, place: u32, fact: &Fact) -> Result<(), AllocError>
        requires { place < length self.old }
        ensures { OnOk result (self.new ≡ slice_set self.old place (Some fact.now)) }
    {
        match self.slots[place as usize] {
            Some(slot) => {
                self.known[slot as usize] = PlaceFact { place, fact: *fact };
                Ok(())
            }
            None => {
                let Ok(slot) = u32::try_from(self.known.len()) else {
                    return Err(AllocError);
                };
                self.known.push(PlaceFact { place, fact: *fact })?;
                self.slots[place as usize] = Some(slot);
                Ok(())
            }
        }
    }
}
