//! Where an instruction leads, from its address. docs/rules/acceptance.md, "Edges".
ghost use Rattle.std.specs.Int.{cast_unsigned, w32};
ghost use Rattle.std.specs.Prelude.{◌≡◌, ◌+◌, ◌%◌, ◌^◌};
ghost use Rattle.frame_code.specs.Branches.{reaches_next, branch_target, call_target};

use thumb_isa::instr::Instr;
use thumb_isa::plain;

/// Whether the instruction after an instruction can be executed next.
pub fn reaches_next(i: Instr) -> bool
    ensures { result ≡ reaches_next i }
{
    match i {
        Instr::B { .. } | Instr::BWide { .. } | Instr::Bx { .. } => false,
        Instr::Pop { list } => list < 0x8000,
        Instr::MovHigh { d, .. } | Instr::AddHigh { d, .. } => d != 15,
        plain!()
        | Instr::AddSp { .. }
        | Instr::SubSp { .. }
        | Instr::Push { .. }
        | Instr::Stm { .. }
        | Instr::Ldm { .. }
        | Instr::BCond { .. }
        | Instr::Cbz { .. }
        | Instr::Bl { .. }
        | Instr::Blx { .. }
        | Instr::Svc { .. } => true,
    }
}

/// The address `off` bytes from pc, for an instruction at address `a`.
fn target(a: u32, off: i32) -> u32
    ensures { result ≡ (a + 4 + cast_unsigned w32 off) % 2 ^ 32 }
{
    a.wrapping_add(4).wrapping_add_signed(off)
}

/// The target of a branch at an address; None if the instruction isn't a branch with a fixed target.
pub fn branch_target(a: u32, i: Instr) -> Option<u32>
    ensures { result ≡ branch_target a i }
{
    match i {
        Instr::B { off } => Some(target(a, off)),
        Instr::BWide { off } => Some(target(a, off)),
        Instr::BCond { off, .. } => Some(target(a, off)),
        Instr::Cbz { off, .. } => Some(target(a, off)),
        plain!()
        | Instr::AddHigh { .. }
        | Instr::MovHigh { .. }
        | Instr::AddSp { .. }
        | Instr::SubSp { .. }
        | Instr::Push { .. }
        | Instr::Pop { .. }
        | Instr::Stm { .. }
        | Instr::Ldm { .. }
        | Instr::Bl { .. }
        | Instr::Blx { .. }
        | Instr::Bx { .. }
        | Instr::Svc { .. } => None,
    }
}

/// The target of a BL at an address; None for other instructions.
pub fn call_target(a: u32, i: Instr) -> Option<u32>
    ensures { result ≡ call_target a i }
{
    match i {
        Instr::Bl { off } => Some(target(a, off)),
        plain!()
        | Instr::AddHigh { .. }
        | Instr::MovHigh { .. }
        | Instr::AddSp { .. }
        | Instr::SubSp { .. }
        | Instr::Push { .. }
        | Instr::Pop { .. }
        | Instr::Stm { .. }
        | Instr::Ldm { .. }
        | Instr::B { .. }
        | Instr::BWide { .. }
        | Instr::BCond { .. }
        | Instr::Cbz { .. }
        | Instr::Blx { .. }
        | Instr::Bx { .. }
        | Instr::Svc { .. } => None,
    }
}
