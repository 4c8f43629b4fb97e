//! The effect of shifts by a constant on a fact, which is changed in place.
ghost use Rattle.std.specs.Prelude.{◌≡◌};
ghost use Rattle.frame_facts.specs.Shifts.{shift_imm};

use crate::facts::Fact;

/// LSL by 0 is MOVS between registers, a copy. Nothing is known of the results of the others.
pub(crate) fn shift_imm(fact: &mut Fact, op: u8, d: u8, m: u8, n: u32)
    ensures { fact.new ≡ shift_imm op d m n fact.old }
{
    if op == 0 && n == 0 {
        let held = fact.source(m);
        fact.set(d, held);
    } else {
        fact.forget_register(d);
    }
}
