//! A function's prologue: where it ends, and in which words it saves registers. docs/rules/acceptance.md, "The prologue".
ghost use Rattle.std.specs.Prelude.{◌≡◌, ℕ, ◌<◌, ◌≤◌, ◌^◌, ℤ, pos, ◌+ℤ◌, take, length};
ghost use Rattle.frame_facts.specs.Facts.{some_if};
ghost use Rattle.frame_facts.specs.Saves.{lies_at, saves_within, word, stack_word, fact_at_depth, to_depth};

use crate::facts::{Fact, Source, bounded_depth};

/// A word of the stack in which the prologue saves a register.
#[derive(Clone, Copy)]
pub struct Save {
    /// The register whose entry value the word has: r4 to r11 or lr.
    pub reg: u8,
    /// How many bytes the word's address lies below the CFA.
    pub offset: u32,
}

/// The most saves that a prologue has.
pub const MOST_SAVES: u32 = 16;

/// A function's prologue.
#[derive(Clone, Copy)]
pub struct Prologue {
    /// The address after its last instruction; the function's entry if it has none.
    pub end: u32,
    /// The number of its saves, at most 16.
    pub count: u32,
    /// The saves, in ascending order of offset; those from `count` on aren't used.
    pub saves: [Save; 16],
}

impl Save {
    /// Whether the save is the word `offset` bytes above the address `at` bytes below the CFA.
    fn lies_at(&self, at: u32, offset: i32) -> bool
        ensures { result ≡ lies_at at offset self.now }
    {
        i64::from(self.offset) + i64::from(offset) == i64::from(at)
    }
}

/// The first `count` saves.
fn first(saves: &[Save], count: u32) -> &[Save]
    ensures { result.now ≡ take count saves.now }
{
    if (count as usize) < saves.len() {
        &saves[..count as usize]
    } else {
        saves
    }
}

impl Prologue {
    /// How many saves have an offset of at most `depth`.
    pub(crate) fn saves_within(&self, depth: u32) -> u32
        ensures count { result ≡ saves_within self.now depth }
        ensures few { result ≤ 16 }
    {
        let saves = first(&self.saves, self.count);
        saves.iter().filter(|save| save.offset <= depth).count() as u32
    }

    /// What is known of the word `offset` bytes above the address `at` bytes below the CFA, if the first `kept` saves are still on the
    /// stack.
    pub(crate) fn word(&self, kept: u32, at: u32, offset: i32) -> Source
        ensures { result ≡ word self.now kept at offset }
    {
        let saves = first(first(&self.saves, self.count), kept);
        for save in saves {
            if save.lies_at(at, offset) {
                return Source::Entry(save.reg);
            }
        }
        Source::Other
    }

    /// What is known of the word `offset` bytes above sp.
    pub(crate) fn stack_word(&self, fact: &Fact, offset: i32) -> Source
        ensures { result ≡ stack_word self.now fact.now offset }
    {
        if fact.below {
            Source::Other
        } else {
            self.word(fact.kept, fact.depth, offset)
        }
    }

    /// Moves sp to `depth`.
    pub(crate) fn move_to(&self, fact: &mut Fact, depth: u32)
        ensures { fact.new ≡ fact_at_depth self.now depth fact.old }
    {
        fact.kept = fact.kept.min(self.saves_within(depth));
        fact.depth = depth;
    }

    /// As `move_to`; false if the depth is outside 0 to `DEEPEST`.
    pub(crate) fn to_depth(&self, fact: &mut Fact, depth: i64) -> bool
        ensures { some_if result fact.new ≡ to_depth self.now depth fact.old }
    {
        match bounded_depth(depth) {
            None => false,
            Some(depth) => {
                self.move_to(fact, depth);
                true
            }
        }
    }
}
