//! The instruction pairs that make a frame of variable size. docs/rules/acceptance.md, "Lowering places".
ghost use Rattle.std.specs.Prelude.{◌≡◌, ◌&&◌, ℕ, false, is_some, slice_index_or, option_and_then};
ghost use Rattle.frame_graph.specs.Places.{standing_at};
ghost use Rattle.frame_code.specs.Standing.{instruction_of};
ghost use Rattle.frame_code.specs.Lowering.{subtracts_into, sets_sp_from, same_register, lowers_by};
ghost use Rattle.frame_graph.specs.Lowering.{is_lowering};

use crate::flow_graph::FlowGraph;
use frame_code::Standing;
use frame_code::lowering::{lowers_by, sets_sp};
use thumb_core::regs::SP;
use thumb_isa::instr::Instr;

/// Whether a place is marked; false past the last mark.
fn is_marked(marks: &[bool], place: u32) -> bool
    ensures { result ≡ slice_index_or marks.now place false }
{
    (place as usize) < marks.len() && marks[place as usize]
}

/// Whether two places, the second 2 bytes after the first, are both reached and lower sp together.
fn are_lowering(
    first_reached: bool,
    second_reached: bool,
    first: Standing,
    second: Standing,
) -> bool
    ensures { result ≡ (first_reached && second_reached && lowers_by (instruction_of first) (instruction_of second)) }
{
    first_reached && second_reached && lowers_by(first, second)
}

impl<'s, 'i, 'a> FlowGraph<'s, 'i, 'a> {
    /// Whether a place is a lowering place; `standing` is what is at the place.
    fn is_lowering_by(&self, reached: &[bool], place: u32, standing: Standing) -> bool
        requires { standing ≡ standing_at self.now place }
        ensures { result ≡ is_lowering self.now (λ p. slice_index_or reached.now p false) place }
    {
        if place == 0 {
            return false;
        }
        let before = place - 1;
        are_lowering(
            is_marked(reached, before),
            is_marked(reached, place),
            self.standing_at(before),
            standing,
        )
    }

    /// Whether a place is a lowering place. It has a MOV into sp of the register that a SUB of two registers, 2 bytes before it,
    /// writes, and both are reached. `reached` has one mark for each place.
    pub fn is_lowering(&self, reached: &[bool], place: u32) -> bool
        ensures { result ≡ is_lowering self.now (λ p. slice_index_or reached.now p false) place }
    {
        let standing = self.standing_at(place);
        sets_sp(standing) && self.is_lowering_by(reached, place, standing)
    }
}
