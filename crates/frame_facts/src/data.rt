//! The effect of moves, additions and other register instructions on a fact, which is changed in place.
ghost use Rattle.std.specs.Prelude.{◌≡◌};
ghost use Rattle.frame_facts.specs.Facts.{some_if};
ghost use Rattle.frame_facts.specs.Data.{add_sub_imm3, imm8, alu, copy_source, set_sp, mov_high, add_high};

use crate::facts::{Fact, Source};
use crate::saves::Prologue;

/// ADD and SUB of a small immediate; with 0 it is a copy.
pub(crate) fn add_sub_imm3(fact: &mut Fact, sub: bool, d: u8, n: u8, imm: u32)
    ensures { fact.new ≡ add_sub_imm3 sub d n imm fact.old }
{
    let held = fact.source(n);
    if imm == 0 {
        fact.set(d, held);
    } else {
        fact.set(d, held.offset_source(sub, imm));
    }
}

/// MOV, CMP, ADD and SUB of an immediate.
pub(crate) fn imm8(fact: &mut Fact, op: u8, d: u8, imm: u32)
    ensures { fact.new ≡ imm8 op d imm fact.old }
{
    if op == 0 {
        fact.forget_register(d);
    } else if op != 1 {
        let held = fact.source(d);
        fact.set(d, held.offset_source(op != 2, imm));
    }
}

/// The two-register operations; TST, CMP and CMN write no register.
pub(crate) fn alu(fact: &mut Fact, op: u8, d: u8)
    ensures { fact.new ≡ alu op d fact.old }
{
    if op != 8 && op != 10 && op != 11 {
        fact.forget_register(d);
    }
}

/// What a copy of register `m` has.
fn copy_source(fact: &Fact, m: u8) -> Source
    ensures { result ≡ copy_source m fact.now }
{
    if m == 13 {
        fact.sp_plus(0)
    } else {
        fact.source(m)
    }
}

/// Sets sp to a value; false if that isn't an address of the frame at or above sp.
fn set_sp(p: &Prologue, fact: &mut Fact, held: Source) -> bool
    ensures { some_if result fact.new ≡ set_sp p.now held fact.old }
{
    match held {
        Source::SpAt(offset) => {
            if offset % 4 == 0 && offset <= fact.depth {
                p.move_to(fact, offset);
                fact.below = false;
                true
            } else {
                false
            }
        }
        Source::Entry(_) | Source::Other => false,
    }
}

/// MOV between any two registers; false if sp is set in a way that isn't allowed.
pub(crate) fn mov_high(p: &Prologue, fact: &mut Fact, lowers: bool, d: u8, m: u8) -> bool
    ensures { some_if result fact.new ≡ mov_high p.now lowers d m fact.old }
{
    let held = copy_source(fact, m);
    if d != 13 {
        fact.set(d, held);
        return true;
    }
    if lowers {
        fact.below = true;
        return true;
    }
    set_sp(p, fact, held)
}

/// ADD of any two registers; false if it writes sp.
pub(crate) fn add_high(fact: &mut Fact, d: u8) -> bool
    ensures { some_if result fact.new ≡ add_high d fact.old }
{
    if d == 13 {
        false
    } else {
        fact.forget_register(d);
        true
    }
}
