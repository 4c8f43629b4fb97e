//! Groups instructions by their nature into patterns, for matches over all of them. Every instruction that the crates
//! above don't handle by itself is in exactly one pattern (`specs/Nature.antt` has the table;
//! docs/rules/instructions.md, "Natures"). A match that uses them must have `Instr` in scope.
ghost use Rattle.thumb_isa.specs.Nature.{AllWriteWell};

/// An instruction that writes an untracked value to one register, neither sp nor pc, and falls through. The register is
/// bound to the argument, a name or `_`.
#[macro_export]
macro_rules! works {
    ($d:pat) => {
        Instr::AddSubReg { d: $d, .. }
            | Instr::Adr { d: $d, .. }
            | Instr::Extend { d: $d, .. }
            | Instr::Rev { d: $d, .. }
            | Instr::MovW { d: $d, .. }
            | Instr::MovT { d: $d, .. }
            | Instr::Div { d: $d, .. }
    };
}

/// An instruction that writes no register and falls through.
#[macro_export]
macro_rules! idles {
    () => {
        Instr::CmpHigh { .. } | Instr::Hint { .. } | Instr::Barrier { .. }
    };
}

/// An instruction that writes a low register with a value that may derive from another register: a copy, or a known
/// offset from it.
#[macro_export]
macro_rules! derives {
    () => {
        Instr::ShiftImm { .. }
            | Instr::AddSubImm3 { .. }
            | Instr::Imm8 { .. }
            | Instr::Alu { .. }
            | Instr::AddRdSp { .. }
    };
}

/// A load or store of a single register.
#[macro_export]
macro_rules! transfers {
    () => {
        Instr::LdrLit { .. }
            | Instr::MemReg { .. }
            | Instr::MemImm { .. }
            | Instr::MemSp { .. }
    };
}

/// An instruction of the groups above: it falls through and keeps sp.
#[macro_export]
macro_rules! plain {
    () => {
        $crate::works!(_) | $crate::idles!() | $crate::derives!() | $crate::transfers!()
    };
}

/// An instruction of the groups above, with fields in range, writes at most a low register or, in `works`, one that is
/// neither sp nor pc. Instructions that may write others have natures of their own.
#[tactic(auto, using(crate::proofs::Natures::all_write_well))]
pub fn all_write_well()
    ensures { AllWriteWell }
{}
