//! The states of a slot: docs/rules/phases-and-exceptions.md.
ghost use Rattle.std.specs.Prelude.{◌≡◌};
ghost use Rattle.eh_cxa.specs.States.{state_of_word};

/// The state word of a free slot.
pub const FREE: u32 = 0;

/// The state word of `State::Fresh`.
pub const FRESH: u32 = 1;

/// The state word of `State::Flying`.
pub const FLYING: u32 = 2;

/// The state word of `State::Landed`.
pub const LANDED: u32 = 3;

/// The state word of `State::Caught`.
pub const CAUGHT: u32 = 4;

/// The state word of `State::Ended`.
pub const ENDED: u32 = 5;

/// The state of an exception.
#[derive(Clone, Copy)]
pub enum State {
    /// Allocated, but not thrown.
    Fresh,
    /// Thrown or rethrown, and no handler is entered yet.
    Flying,
    /// A handler was entered, but hasn't begun its catch.
    Landed,
    /// A handler has begun its catch.
    Caught,
    /// Its last handler ended; the object can be destroyed and freed.
    Ended,
}

impl State {
    /// The state that a state word names. None for a free slot, and for a word above 5, whose slot is out of use.
    pub fn of_word(word: u32) -> Option<State>
        ensures { result ≡ state_of_word word }
    {
        match word {
            FRESH => Some(State::Fresh),
            FLYING => Some(State::Flying),
            LANDED => Some(State::Landed),
            CAUGHT => Some(State::Caught),
            ENDED => Some(State::Ended),
            _ => None,
        }
    }
}
