//! The effect of PUSH, POP and LDM on a fact, which is changed in place.
ghost use Rattle.std.specs.Prelude.{◌≡◌, ◌+◌, ◌-◌, ◌*◌, ◌/◌, ◌<◌, ◌≤◌, ◌^◌, length, pos};
ghost use Rattle.thumb_core.specs.Words.{registers_of_list};
ghost use Rattle.frame_facts.specs.Facts.{some_if};
ghost use Rattle.frame_facts.specs.Saves.{stack_word};
ghost use Rattle.frame_facts.specs.Lists.{push, push_to_depth, load_registers, pop, popped_pc, ldm};

use crate::facts::{Fact, Source, bounded_depth, clobber};
use crate::saves::Prologue;

/// The number of registers in a list.
#[tactic(auto, using(crate::proofs::Counted::listed_count))]
pub fn words_of(list: u16) -> u32
    ensures words { result ≡ length (registers_of_list list) }
    ensures few { result ≤ 16 }
{
    list.count_ones()
}

/// The number of bytes that the registers of a list take.
fn bytes_of(list: u16) -> u8
    ensures bytes { result ≡ 4 * length (registers_of_list list) }
    ensures few { result ≤ 64 }
{
    4 * words_of(list) as u8
}

/// The fact after a PUSH at address `at` that brings sp to `depth`.
fn push_to(p: &Prologue, fact: &mut Fact, at: u32, depth: u32)
    ensures { fact.new ≡ push_to_depth p.now at depth fact.old }
{
    if at < p.end {
        fact.kept = p.saves_within(depth);
        fact.depth = depth;
    } else {
        p.move_to(fact, depth);
    }
}

/// PUSH at address `at`; false if the depth is too large.
pub(crate) fn push(p: &Prologue, fact: &mut Fact, at: u32, list: u16) -> bool
    ensures { some_if result fact.new ≡ push p.now at list fact.old }
{
    match bounded_depth(i64::from(fact.depth) + i64::from(bytes_of(list))) {
        None => false,
        Some(depth) => {
            push_to(p, fact, at, depth);
            true
        }
    }
}

/// What is known of the word `at` bytes above sp.
fn word_above(p: &Prologue, fact: &Fact, at: u8) -> Source
    ensures { result ≡ stack_word p.now fact.now (pos at) }
{
    p.stack_word(fact, i32::from(at))
}

/// Loads the registers of a list from the words at sp, as `fact` knows them. `left` must be equal to `fact` at first.
fn load(p: &Prologue, fact: &Fact, left: &mut Fact, list: u16)
    requires { left.old ≡ fact.now }
    ensures { left.new ≡ load_registers p.now fact.now 0 (registers_of_list list) fact.now }
{
    let mut at = 0u8;
    for k in 0..16u8 {
        if (list >> k) & 1 == 1 {
            left.set(k, word_above(p, fact, at));
            at += 4;
        }
    }
}

/// POP, from `fact`; false if that takes sp above the CFA. `left` must be equal to `fact` at first.
pub(crate) fn pop(p: &Prologue, fact: &Fact, left: &mut Fact, list: u16) -> bool
    requires { left.old ≡ fact.now }
    ensures { some_if result left.new ≡ pop p.now list fact.now }
{
    load(p, fact, left, list);
    p.to_depth(left, i64::from(fact.depth) - i64::from(bytes_of(list)))
}

/// The source of the address that a POP loads into pc; None if the list doesn't have pc.
pub(crate) fn popped_pc(p: &Prologue, fact: &Fact, list: u16) -> Option<Source>
    ensures { result ≡ popped_pc p.now list fact.now }
{
    if (list >> 15) & 1 == 1 {
        Some(p.stack_word(fact, i32::from(bytes_of(list)) - 4))
    } else {
        None
    }
}

/// LDM, with or without write-back.
pub(crate) fn ldm(fact: &mut Fact, n: u8, list: u16)
    ensures { fact.new ≡ ldm n list fact.old }
{
    *fact = clobber(fact, list);
    fact.forget_register(n);
}
