//! The effect of loads and stores of one register on a fact, which is changed in place. Stores leave it unchanged.
ghost use Rattle.std.specs.Prelude.{◌≡◌};
ghost use Rattle.frame_facts.specs.Access.{mem_reg, mem_imm, mem_sp};

use crate::facts::Fact;
use crate::saves::Prologue;

/// A load or store at the sum of two registers.
pub(crate) fn mem_reg(fact: &mut Fact, op: u8, t: u8)
    ensures { fact.new ≡ mem_reg op t fact.old }
{
    if op >= 3 {
        fact.forget_register(t);
    }
}

/// A load or store at a register plus an offset.
pub(crate) fn mem_imm(fact: &mut Fact, op: u8, t: u8)
    ensures { fact.new ≡ mem_imm op t fact.old }
{
    if op == 1 || op == 3 || op == 5 {
        fact.forget_register(t);
    }
}

/// A load or store at sp plus an offset.
pub(crate) fn mem_sp(p: &Prologue, fact: &mut Fact, load: bool, t: u8, off: i32)
    ensures { fact.new ≡ mem_sp p.now load t off fact.old }
{
    if load {
        let held = p.stack_word(fact, off);
        fact.set(t, held);
    }
}
