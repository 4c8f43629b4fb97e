//! A MOV into sp of the result of the subtraction before it. docs/rules/acceptance.md, "Lowering places".
ghost use Rattle.std.specs.Prelude.{◌≡◌, is_some, option_and_then};
ghost use Rattle.frame_code.specs.Standing.{instruction_of};
ghost use Rattle.frame_code.specs.Lowering.{subtracts_into, sets_sp_from, same_register, lowers_by};

use crate::standing::Standing;
use thumb_core::regs::SP;
use thumb_isa::instr::Instr;

/// The register that a SUB of two registers writes; None for other instructions.
fn subtracts_into(i: Instr) -> Option<u8>
    ensures { result ≡ subtracts_into i }
{
    if let Instr::AddSubReg { sub: true, d, .. } = i {
        Some(d)
    } else {
        None
    }
}

/// The register that a MOV copies into sp; None for other instructions.
fn sets_sp_from(i: Instr) -> Option<u8>
    ensures { result ≡ sets_sp_from i }
{
    let Instr::MovHigh { d, m } = i else {
        return None;
    };
    if d == SP { Some(m) } else { None }
}

fn same_register(first: Option<u8>, second: Option<u8>) -> bool
    ensures { result ≡ same_register first second }
{
    match (first, second) {
        (Some(d), Some(m)) => d == m,
        (None, _) | (_, None) => false,
    }
}

/// Whether the second instruction copies into sp the result of the first, a subtraction.
pub fn lowers_by(first: Standing, second: Standing) -> bool
    ensures { result ≡ lowers_by (instruction_of first) (instruction_of second) }
{
    let Standing::Instruction(i, _) = first else {
        return false;
    };
    let Standing::Instruction(j, _) = second else {
        return false;
    };
    same_register(subtracts_into(i), sets_sp_from(j))
}

/// Whether a place has a MOV into sp.
pub fn sets_sp(standing: Standing) -> bool
    ensures { result ≡ is_some (option_and_then sets_sp_from (instruction_of standing)) }
{
    matches!(
        standing,
        Standing::Instruction(Instr::MovHigh { d: SP, .. }, _)
    )
}
