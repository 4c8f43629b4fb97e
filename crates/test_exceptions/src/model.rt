//! A model of exceptions as a C++ programmer thinks of them: a table of objects, a stack of caught ones, and a stack of cleanups.
use eh_cxa::{CleanupWords, CxaFault};
use std::alloc::{AllocError, Global};

/// The state of the exception in a slot.
#[derive(Clone, Copy, PartialEq, Eq)]
pub enum Phase {
    /// There is none.
    Free,
    /// It is allocated and wasn't thrown.
    Fresh,
    /// It was thrown, and no handler is entered yet.
    Flying,
    /// Its handler is entered.
    Landed,
    /// Its catch has begun.
    Caught,
    /// Its last catch has ended.
    Ended,
}

/// What a slot of the pool holds.
#[derive(Clone, Copy)]
pub struct Held {
    /// The state of its exception.
    pub phase: Phase,
    /// The size of the object in bytes.
    pub size: u32,
    /// The address of the type that it was thrown with.
    pub ty: u32,
    /// The address of its destructor; 0 for none.
    pub destructor: u32,
    /// How many handlers have caught it and not ended; negative after a rethrow.
    pub handlers: i64,
    /// The address that its handler is given.
    pub given: u32,
}

/// A cleanup in progress.
#[derive(Clone, Copy)]
pub struct Running {
    /// The slot of its exception.
    pub slot: u32,
    /// The next descriptor, landing sp and site that are kept for it.
    pub words: CleanupWords,
}

/// All exceptions, and the lists that they are in. The first of each list is the innermost.
#[derive(Drop)]
pub struct Model {
    /// What each slot holds.
    pub held: Vec<Held>,
    /// The slots of the caught exceptions.
    pub caught: Vec<u32>,
    /// The cleanups in progress.
    pub cleanups: Vec<Running>,
    /// The number of uncaught exceptions.
    pub uncaught: u32,
}

const NOTHING: Held = Held {
    phase: Phase::Free,
    size: 0,
    ty: 0,
    destructor: 0,
    handlers: 0,
    given: 0,
};

/// The address of the object in a slot.
pub fn object(slot: u32) -> u32 {
    0x3800_0080u32.wrapping_add(slot.wrapping_mul(512))
}

/// The address of the control block in a slot.
pub fn block(slot: u32) -> u32 {
    0x3800_0028u32.wrapping_add(slot.wrapping_mul(512))
}

impl Model {
    /// A model whose slots are all free. `AllocError` if there was no memory.
    pub fn new(alloc: Global) -> Result<Model, AllocError> {
        let mut held = Vec::new(alloc);
        for _ in 0..64 {
            held.push(NOTHING)?;
        }
        Ok(Model {
            held,
            caught: Vec::new(alloc),
            cleanups: Vec::new(alloc),
            uncaught: 0,
        })
    }

    /// Frees all slots and empties the lists.
    pub fn clear(&mut self) {
        for place in self.held.as_mut_slice() {
            *place = NOTHING;
        }
        self.caught.clear();
        self.cleanups.clear();
        self.uncaught = 0;
    }

    /// What a slot holds; nothing if there is no such slot.
    pub fn at(&self, slot: u32) -> Held {
        match self.held.get(slot as usize) {
            Some(held) => *held,
            None => NOTHING,
        }
    }

    fn put(&mut self, slot: u32, held: Held) {
        if let Some(place) = self.held.get_mut(slot as usize) {
            *place = held;
        }
    }

    fn top(&self) -> Option<u32> {
        self.caught.first().copied()
    }

    fn first_free(&self) -> Option<u32> {
        for slot in 0..64 {
            if self.at(slot).phase == Phase::Free {
                return Some(slot);
            }
        }
        None
    }

    /// Allocates an object of this size in bytes and gives its address. `TooBig` and `PoolFull` if it can't.
    pub fn allocate(&mut self, size: u32) -> Result<u32, CxaFault> {
        if size > 384 {
            return Err(CxaFault::TooBig);
        }
        let Some(slot) = self.first_free() else {
            return Err(CxaFault::PoolFull);
        };
        let mut held = NOTHING;
        held.phase = Phase::Fresh;
        held.size = size;
        self.put(slot, held);
        Ok(object(slot))
    }

    /// Gives back the exception of a slot. `BadObject` if it is neither fresh nor ended.
    pub fn free(&mut self, slot: u32) -> Result<(), CxaFault> {
        let mut held = self.at(slot);
        if held.phase != Phase::Fresh && held.phase != Phase::Ended {
            return Err(CxaFault::BadObject);
        }
        held.phase = Phase::Free;
        self.put(slot, held);
        Ok(())
    }

    /// Throws the object of a slot and gives its control block. `BadObject` if it isn't fresh.
    pub fn throw(&mut self, slot: u32, ty: u32, destructor: u32) -> Result<u32, CxaFault> {
        let mut held = self.at(slot);
        if held.phase != Phase::Fresh {
            return Err(CxaFault::BadObject);
        }
        held.phase = Phase::Flying;
        held.ty = ty;
        held.destructor = destructor;
        self.put(slot, held);
        self.uncaught = self.uncaught.wrapping_add(1);
        Ok(block(slot))
    }

    /// Sets the address that the handler is given.
    pub fn give(&mut self, slot: u32, given: u32) {
        let mut held = self.at(slot);
        held.given = given;
        self.put(slot, held);
    }

    /// Enters the handler of an exception in flight.
    pub fn land(&mut self, slot: u32) {
        let mut held = self.at(slot);
        if held.phase == Phase::Flying {
            held.phase = Phase::Landed;
            self.put(slot, held);
        }
    }

    /// Begins a catch and gives what the handler is given. `BadUcb` if the exception hasn't landed; `CaughtOrder` if it is caught, but not
    /// the innermost.
    pub fn catch(&mut self, slot: u32) -> Result<Result<u32, CxaFault>, AllocError> {
        let mut held = self.at(slot);
        if held.phase != Phase::Landed {
            return Ok(Err(CxaFault::BadUcb));
        }
        if held.handlers != 0 && self.top() != Some(slot) {
            return Ok(Err(CxaFault::CaughtOrder));
        }
        if held.handlers == 0 {
            self.caught.insert(0, slot)?;
        }
        held.handlers = held.handlers.wrapping_abs().wrapping_add(1);
        held.phase = Phase::Caught;
        self.put(slot, held);
        self.uncaught = self.uncaught.wrapping_sub(1);
        Ok(Ok(held.given))
    }

    /// Ends the innermost catch and gives the object to be destroyed and its destructor, or zeros. `NoCaught` if nothing is caught.
    pub fn end_catch(&mut self) -> Result<(u32, u32), CxaFault> {
        let Some(slot) = self.top() else {
            return Err(CxaFault::NoCaught);
        };
        let mut held = self.at(slot);
        let rethrown = held.handlers < 0;
        held.handlers = if rethrown {
            held.handlers.wrapping_add(1)
        } else {
            held.handlers.wrapping_sub(1)
        };
        let mut answer = (0, 0);
        if held.handlers == 0 {
            if self.caught.len() > 0 {
                let _gone = self.caught.remove(0);
            }
            if !rethrown {
                held.phase = Phase::Ended;
                answer = (object(slot), held.destructor);
            }
        }
        self.put(slot, held);
        Ok(answer)
    }

    /// The slot that may be thrown again. `NoCaught` if nothing is caught; `CaughtOrder` if the innermost isn't in a handler.
    pub fn may_rethrow(&self) -> Result<u32, CxaFault> {
        let Some(slot) = self.top() else {
            return Err(CxaFault::NoCaught);
        };
        if self.at(slot).phase == Phase::Caught {
            Ok(slot)
        } else {
            Err(CxaFault::CaughtOrder)
        }
    }

    /// Throws the innermost caught exception again and gives its control block. Refused as `may_rethrow` is.
    pub fn rethrow(&mut self) -> Result<u32, CxaFault> {
        let slot = self.may_rethrow()?;
        let mut held = self.at(slot);
        held.handlers = held.handlers.wrapping_neg();
        held.phase = Phase::Flying;
        self.put(slot, held);
        self.uncaught = self.uncaught.wrapping_add(1);
        Ok(block(slot))
    }

    /// Whether a cleanup of the slot's exception is in progress.
    pub fn runs(&self, slot: u32) -> bool {
        for running in self.cleanups.as_slice() {
            if running.slot == slot {
                return true;
            }
        }
        false
    }

    /// Enters a cleanup of the slot's exception. `AllocError` if there was no memory.
    pub fn begin_cleanup(&mut self, slot: u32, words: CleanupWords) -> Result<(), AllocError> {
        self.cleanups.insert(0, Running { slot, words })?;
        Ok(())
    }

    /// Ends the innermost cleanup at this sp and gives its control block and words. `NoCleanup` if none is in progress; `CleanupElsewhere`
    /// if its landing sp is another.
    pub fn end_cleanup(&mut self, sp: u32) -> Result<(u32, CleanupWords), CxaFault> {
        let Some(running) = self.cleanups.first().copied() else {
            return Err(CxaFault::NoCleanup);
        };
        if running.words.sp != sp {
            return Err(CxaFault::CleanupElsewhere);
        }
        if self.cleanups.len() > 0 {
            let _gone = self.cleanups.remove(0);
        }
        Ok((block(running.slot), running.words))
    }
}
