//! The events of a run: all are counted, and the first ones are stored: docs/rules/phases-and-exceptions.md.
ghost use Rattle.std.specs.Prelude.{◌≡◌, ◌≤◌, ◌++◌, ◌∷◌, [], List, IfOk};
ghost use Rattle.eh_trace.specs.declared.event.Event.{Event};
ghost use Rattle.eh_trace.specs.declared.event.TheConstants.{MAX_BYTES};
ghost use Rattle.eh_trace.specs.Trace.{no_events, push_event, total_of, one_event, Holds};

use crate::event::{Event, EventKind, TraceMemory};
use std::alloc::Global;
use std::marker::Model;

/// The most events that are stored.
pub const MAX_KEPT: usize = 10_000;

/// The events of a run.
#[derive(Drop)]
pub struct Events {
    kept: Vec<Event>,
    throws: u64,
    rethrows: u64,
    cleanups: u64,
    catches: u64,
    unexpected: u64,
    near: NearRows,
}

/// The index rows that were found last. The look-ups of the next event begin there. They only affect speed: any numbers are allowed.
#[derive(Clone, Copy)]
pub struct NearRows {
    /// The row for the gate at the end of the last cleanup.
    pub gate: u32,
    /// The row for the frame that was entered last.
    pub frame: u32,
}

impl Model for Events {
    ghost use Rattle.std.specs.Prelude.{◌≤◌, vec_capacity};
    ghost use Rattle.eh_trace.specs.declared.events.TheConstants.{MAX_KEPT};
    ghost use Rattle.eh_trace.specs.Trace.{Trace};

    ghost Value = { Trace };

    ghost view = { λ e. record {
      kept = e.kept.items;
      throws = e.throws;
      rethrows = e.rethrows;
      cleanups = e.cleanups;
      catches = e.catches;
      unexpected = e.unexpected;
    } };

    ghost invariant = { λ e. MAX_KEPT ≤ vec_capacity e.kept };
}

/// One more than the total; a total at the greatest `u64` stays there.
fn one_more(total: u64) -> u64
    ensures { result ≡ one_event total }
{
    total.saturating_add(1)
}

impl Events {
    /// No events yet, with memory for all that are ever stored. Err if memory runs out.
    pub fn reserve(alloc: Global) -> Result<Events, TraceMemory>
        ensures value { IfOk result (λ e. e ≡ no_events) }
        ensures all { IfOk result (λ e. Holds e []) }
    {
        Ok(Events {
            kept: Vec::with_capacity(alloc, MAX_KEPT)?,
            throws: 0,
            rethrows: 0,
            cleanups: 0,
            catches: 0,
            unexpected: 0,
            near: NearRows {
                gate: u32::MAX,
                frame: u32::MAX,
            },
        })
    }

    /// Counts an event, and stores it if fewer than 10,000 are stored. Allocates nothing.
    pub fn push(&mut self, e: Event)
        requires { e.count ≤ MAX_BYTES }
        ensures value { self.new ≡ push_event self.old e }
        ensures all { (all : List Event) → Holds self.old all → Holds self.new (all ++ e ∷ []) }
    {
        self.add(e);
    }

    fn add(&mut self, e: Event)
        ensures { self.new ≡ push_event self.old e }
    {
        match e.kind {
            EventKind::Throw => self.throws = one_more(self.throws),
            EventKind::Rethrow => self.rethrows = one_more(self.rethrows),
            EventKind::Cleanup => self.cleanups = one_more(self.cleanups),
            EventKind::Catch => self.catches = one_more(self.catches),
            EventKind::Unexpected => self.unexpected = one_more(self.unexpected),
        }
        if self.kept.len() < MAX_KEPT {
            self.kept.push(e).unwrap();
        }
    }

    /// The rows at which the next look-ups begin.
    #[inline(always)]
    pub fn near_rows(&self) -> NearRows {
        self.near
    }

    /// Stores the rows for the next event.
    #[inline(always)]
    pub fn keep_rows(&mut self, rows: NearRows)
        ensures { self.new ≡ self.old }
    {
        self.near = rows;
    }

    /// How many events of a kind there were; a total stops at the greatest `u64`.
    pub fn total(&self, kind: EventKind) -> u64
        ensures { result ≡ total_of kind self.now }
    {
        match kind {
            EventKind::Throw => self.throws,
            EventKind::Rethrow => self.rethrows,
            EventKind::Cleanup => self.cleanups,
            EventKind::Catch => self.catches,
            EventKind::Unexpected => self.unexpected,
        }
    }

    /// The events that are stored: the first ones, in order.
    pub fn kept(&self) -> &[Event]
        ensures { result.now ≡ self.now.kept }
    {
        &self.kept
    }
}
