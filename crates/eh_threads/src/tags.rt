//! The thread of each event that is kept (docs/guide/walks-and-threads.md, "Ends and runs").
ghost use Rattle.std.specs.Prelude.{◌≡◌, ◌-◌, [], length, IfOk, All, ◌<◌, ℕ};
ghost use Rattle.thread_schedule.specs.declared.tags.TheConstants.{TAGS};
ghost use Rattle.eh_threads.specs.Tags.{with_tag, with_tags, tags_up_to};

use eh_trace::TraceMemory;
use eh_trace::events::MAX_KEPT;
use std::alloc::Global;
use std::marker::Model;

/// The number of the thread of each event that is kept.
#[derive(Drop)]
pub struct Tags {
    kept: Vec<u8>,
}

impl Model for Tags {
    ghost use Rattle.std.specs.Prelude.{◌≤◌, ◌<◌, ℕ, List, All, vec_capacity};
    ghost use Rattle.eh_trace.specs.declared.events.TheConstants.{MAX_KEPT};
    ghost use Rattle.thread_schedule.specs.declared.tags.TheConstants.{TAGS};

    ghost Value = { List ℕ };

    ghost view = { λ t. t.kept.items };

    ghost invariant = { λ t. (MAX_KEPT ≤ vec_capacity t.kept) × All (λ (tag : ℕ). tag < TAGS) t.kept.items };
}

impl Tags {
    /// No tags, with room for as many as events are kept. `OutOfMemory` if there was none.
    pub fn reserve(alloc: Global) -> Result<Tags, TraceMemory>
        ensures { IfOk result (λ t. t ≡ []) }
    {
        Ok(Tags {
            kept: Vec::with_capacity(alloc, MAX_KEPT)?,
        })
    }

    /// Adds a tag, unless as many tags as events are ever kept are there. Takes no memory.
    #[tactic(auto, using(crate::proofs::Tagging::tag_fits))]
    fn add(&mut self, thread: u8)
        requires { thread < TAGS }
        ensures { self.new ≡ with_tag thread self.old }
    {
        if self.kept.len() < MAX_KEPT {
            self.kept.push(thread).unwrap();
        }
    }

    /// The number of the tags.
    fn len(&self) -> usize
        ensures { result ≡ length self.now }
    {
        self.kept.len()
    }

    /// Gives the tags of the first `count` events that have none yet to this thread. Takes no memory.
    #[inline(always)]
    pub(crate) fn reach(&mut self, thread: u8, count: usize)
        requires { thread < TAGS }
        ensures { self.new ≡ tags_up_to thread count self.old }
    {
        // most events aren't kept
        if self.len() < count {
            self.add_missing(thread, count);
        }
    }

    /// The same as a call of its own.
    #[cold]
    #[inline(never)]
    fn add_missing(&mut self, thread: u8, count: usize)
        requires { thread < TAGS }
        ensures { self.new ≡ tags_up_to thread count self.old }
    {
        let mut missing = count.saturating_sub(self.len());
        while missing > 0 {
            missing -= 1;
            self.add(thread);
        }
    }

    /// The tags, in order of the events. Each is one digit (0 to 9).
    pub fn as_slice(&self) -> &[u8]
        ensures is { result.now ≡ self.now }
        ensures digits { All (λ (tag : ℕ). tag < TAGS) result.now }
    {
        &self.kept
    }
}
