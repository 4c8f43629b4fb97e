//! The chains of action records of a language-specific data area (LSDA), and the entries of its type table. docs/rules/gnu-tables.md states
//! the format.
ghost use Rattle.std.specs.Prelude.{◌≡◌, ◌^◌, ◌<◌, ◌≤◌};
ghost use Rattle.std.specs.Iterator.{YieldsFirst, item_count};
ghost use Rattle.gnu_lsda.specs.Entries.{address_in};
ghost use Rattle.gnu_lsda.specs.Heads.{Area};
ghost use Rattle.gnu_lsda.specs.Chains.{caught_type_by, caught_type_at, typed_action, action_of, next_of, action_at, step_at, actions_in, first_of, actions_of};
ghost use Rattle.gnu_lsda.specs.Leb128.{magnitude};

use crate::leb128::{SignedNumber, sleb128};
use crate::lsda::Lsda;
use eh_word::get_word;
use std::marker::Model;

/// The most actions of a chain that are read.
pub const MOST_ACTIONS: u32 = 64;

/// What a catch catches.
#[derive(Clone, Copy)]
pub enum CatchFilter {
    /// Everything.
    All,
    /// The type whose information is at this address.
    OfType(u32),
}

/// What an action record means, which its filter tells.
#[derive(Clone, Copy)]
pub enum Action {
    /// Filter 0: a cleanup.
    Cleanup,
    /// A filter above 0: a catch. `takes` is the type table's entry with the number `filter`.
    Catch { filter: u64, takes: CatchFilter },
    /// A filter above 0, but the area has no type table.
    NoTypes,
    /// A filter below 0: an exception specification.
    Specification,
}

/// Why a chain can't be read further.
#[derive(Clone, Copy)]
pub enum ActionFault {
    /// A record or a type word isn't all in the bytes, or a number has more than five bytes.
    Short,
    /// The chain has more than 64 actions.
    Chain,
}

/// Where the next record of a chain is.
#[derive(Clone, Copy)]
pub enum NextAction {
    /// There is no next record.
    Last,
    /// At this index into the bytes, or past their end.
    At(usize),
    /// Before the start of the bytes.
    Outside,
}

/// The next item of a chain.
#[derive(Clone, Copy)]
pub enum Step {
    /// The end of the chain.
    End,
    /// An action, and where the next record is.
    One(Action, NextAction),
    /// It can't be read, for this reason.
    Fault(ActionFault),
}

/// What a catch with this type word at `address` catches.
fn caught_type_by(address: u32, word: u32) -> CatchFilter
    ensures { result ≡ caught_type_by address word }
{
    if word == 0 {
        CatchFilter::All
    } else {
        CatchFilter::OfType(address.wrapping_add(word))
    }
}

/// Where the next record is: `displacement` bytes from `at`.
fn next_of(at: usize, displacement: SignedNumber) -> NextAction
    requires place { at < 2 ^ 63 }
    requires small { magnitude displacement ≤ 2 ^ 35 }
    ensures { result ≡ next_of at displacement }
{
    match displacement {
        SignedNumber::Plus(n) => {
            if n == 0 {
                NextAction::Last
            } else {
                NextAction::At(at + n as usize)
            }
        }
        SignedNumber::Minus(n) => {
            if at < n as usize {
                NextAction::Outside
            } else {
                NextAction::At(at - n as usize)
            }
        }
    }
}

impl<'a> Lsda<'a> {
    /// The entry with the number `filter` of the type table that ends at `base`; None if its word isn't all in the bytes.
    fn caught_type_at(&self, base: usize, filter: u64) -> Option<CatchFilter>
        requires { filter ≤ 2 ^ 35 }
        ensures { result ≡ caught_type_at self.now base filter }
    {
        let displacement = 4 * filter as usize;
        if base < displacement {
            return None;
        }
        let place = base - displacement;
        let word = get_word(self.bytes, place)?;
        let address = self.address.wrapping_add((place % 0x1_0000_0000) as u32);
        Some(caught_type_by(address, word))
    }

    /// The action of a filter above 0; None if its type word isn't all in the bytes.
    fn typed_action(&self, filter: u64) -> Option<Action>
        requires { filter ≤ 2 ^ 35 }
        ensures { result ≡ typed_action self.now filter self.now.types }
    {
        match self.types {
            None => Some(Action::NoTypes),
            Some(base) => {
                let takes = self.caught_type_at(base, filter)?;
                Some(Action::Catch { filter, takes })
            }
        }
    }

    /// The action of a filter; None if its type word isn't all in the bytes.
    fn action_of(&self, filter: SignedNumber) -> Option<Action>
        requires { magnitude filter ≤ 2 ^ 35 }
        ensures { result ≡ action_of self.now filter }
    {
        match filter {
            SignedNumber::Minus(_) => Some(Action::Specification),
            SignedNumber::Plus(n) => {
                if n == 0 {
                    Some(Action::Cleanup)
                } else {
                    self.typed_action(n)
                }
            }
        }
    }

    /// The record at a place.
    fn action_at(&self, place: usize) -> Step
        ensures { result ≡ action_at self.now place }
    {
        let Some((filter, second)) = sleb128(self.bytes, place) else {
            return Step::Fault(ActionFault::Short);
        };
        let Some((displacement, _after)) = sleb128(self.bytes, second) else {
            return Step::Fault(ActionFault::Short);
        };
        match self.action_of(filter) {
            None => Step::Fault(ActionFault::Short),
            Some(action) => Step::One(action, next_of(second, displacement)),
        }
    }

    /// The next item of a chain, of which at most `most` more records are read.
    fn step_at(&self, most: u32, next: NextAction) -> Step
        ensures { result ≡ step_at most self.now next }
    {
        match next {
            NextAction::Last => Step::End,
            NextAction::Outside => {
                if most == 0 {
                    Step::Fault(ActionFault::Chain)
                } else {
                    Step::Fault(ActionFault::Short)
                }
            }
            NextAction::At(place) => {
                if most == 0 {
                    Step::Fault(ActionFault::Chain)
                } else {
                    self.action_at(place)
                }
            }
        }
    }

    /// Where a chain begins, from the action number of a call-site record.
    fn first_of(&self, action: u32) -> NextAction
        ensures { result ≡ first_of self.now action }
    {
        if action == 0 {
            NextAction::Last
        } else {
            NextAction::At(self.table_end() + (action - 1) as usize)
        }
    }

    /// The actions of the chain with the action number of a call-site record; none for 0.
    #[tactic(auto, unfolding(crate::specs::Chains::actions_of))]
    pub fn actions(&self, action: u32) -> Actions<'a>
        ensures { result ≡ actions_of self.now action }
    {
        Actions {
            area: Lsda {
                bytes: self.bytes,
                address: self.address,
                types: self.types,
                records: self.records,
                size: self.size,
            },
            most: MOST_ACTIONS,
            next: self.first_of(action),
        }
    }
}

/// Iterates over the actions of a chain. The first that can't be read is the last item; a 65th action counts as such. In contracts, it
/// is the list of items still to come. It reads the area in place and allocates nothing.
#[derive(Drop)]
pub struct Actions<'a> {
    area: Lsda<'a>,
    most: u32,
    next: NextAction,
}

impl<'a> Model for Actions<'a> {
    ghost use Rattle.std.specs.Prelude.{List, Result};
    ghost use Rattle.gnu_lsda.specs.declared.actions.Action.{Action};
    ghost use Rattle.gnu_lsda.specs.declared.actions.ActionFault.{ActionFault};
    ghost use Rattle.gnu_lsda.specs.Chains.{actions_in};

    ghost Value = { List (Result Action ActionFault) };

    ghost view = { λ a. actions_in a.most a.area a.next };
}

impl<'a> Iterator for Actions<'a> {
    type Item = Result<Action, ActionFault>;

    ghost next_gives = { YieldsFirst (λ s. s) };

    ghost remaining = { item_count (λ s. s) };

    #[tactic(auto, using(crate::proofs::Chaining::over, crate::proofs::Chaining::ended, crate::proofs::Chaining::fault))]
    fn next(&mut self) -> Option<Result<Action, ActionFault>> {
        match self.area.step_at(self.most, self.next) {
            Step::End => {
                self.next = NextAction::Last;
                None
            }
            Step::One(action, next) => {
                self.most = self.most.saturating_sub(1);
                self.next = next;
                Some(Ok(action))
            }
            Step::Fault(fault) => {
                self.next = NextAction::Last;
                Some(Err(fault))
            }
        }
    }
}
