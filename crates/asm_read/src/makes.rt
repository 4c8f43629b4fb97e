//! The kinds of statements that forms make of their operands (docs/rules/sources.md).
use asm_statements::computation::{
    OfRegisterNumber, OfThreeRegisters, OfTwoRegisters, OfTwoRegistersNumber,
};

/// The kind of statement that a form makes. The variants follow the groups and names of `StmtKind`; what the word
/// itself fixes, such as the operation, is in the payload.
#[derive(Clone, Copy)]
pub enum Makes {
    /// A computation of two registers.
    OfTwoRegisters(OfTwoRegisters),
    /// A computation of three registers.
    OfThreeRegisters(OfThreeRegisters),
    /// A computation of a register and a number.
    OfRegisterNumber(OfRegisterNumber),
    /// A computation of two registers and a number.
    OfTwoRegistersNumber(OfTwoRegistersNumber),
    /// A computation with a fixed operand.
    Computes(Computation),
    /// A load, a store, a push or a pop.
    Transfers(Transfer),
    /// A BX, BLX, SVC, UDF, hint or barrier.
    Controls(Control),
    /// A directive without a name, a text or an expression.
    Directs(Directive),
    /// A statement with a name, a text or expressions.
    Names(Named),
}

/// Computations with a fixed operand: the register sp, or 0.
#[derive(Clone, Copy)]
pub enum Computation {
    /// `add rd, sp, #n`
    AddRdSp,
    /// `add sp, #n`
    AddSp,
    /// `sub sp, #n`
    SubSp,
    /// `rsbs rd, rm, #0`
    Rsbs,
}

/// Loads, stores and register lists.
#[derive(Clone, Copy)]
pub enum Transfer {
    /// `ldr` (true) or `str` (false) with base sp
    MemSp(bool),
    /// A load or store `rt, [rn, #n]`; the number is `op` of `StmtKind::MemImm`.
    MemImm(u8),
    /// A load or store `rt, [rn, rm]`; the number is `op` of `StmtKind::MemReg`.
    MemReg(u8),
    /// `push`
    Push,
    /// `pop`
    Pop,
    /// `stm rn!, {list}`
    Stm,
    /// `ldm rn!, {list}`
    LdmBack,
    /// `ldm rn, {list}`
    Ldm,
}

/// Branches to registers, SVC, UDF, hints and barriers.
#[derive(Clone, Copy)]
pub enum Control {
    /// `bx`
    Bx,
    /// `blx`
    Blx,
    /// `svc`
    Svc,
    /// `udf`
    Udf,
    /// A hint; the number is `n` of `StmtKind::Hint`.
    Hint(u8),
    /// A barrier; the number is `op` of `StmtKind::Barrier`.
    Barrier(u8),
}

/// Directives without a name, a text or an expression.
#[derive(Clone, Copy)]
pub enum Directive {
    /// `.text`
    Text,
    /// `.data`
    Data,
    /// `.bss`
    Bss,
    /// `.section .rodata`
    Rodata,
    /// `.space`, `.zero`
    Space,
    /// `.align`, `.p2align`
    Align,
    /// `.pool`, `.ltorg`
    Pool,
    /// `.fnstart`
    FnStart,
    /// `.fnend`
    FnEnd,
    /// `.save`
    Save,
    /// `.pad`
    Pad,
    /// `.setfp`
    SetFp,
    /// `.cantunwind`
    CantUnwind,
    /// `.personalityindex`
    PersonalityIndex,
    /// `.handlerdata`
    HandlerData,
}

/// Statements with a name, a text or expressions.
#[derive(Clone, Copy)]
pub enum Named {
    /// `adr rd, name`
    Adr,
    /// `ldr rt, name`
    LdrLabel,
    /// `ldr rt, =expr`
    LdrPool,
    /// `b name`
    B,
    /// A conditional branch; the number is its condition, 0 to 13.
    BCond(u8),
    /// `bl name`
    Bl,
    /// `cbnz` (true) or `cbz` (false)
    Cbz(bool),
    /// `b.w name`
    BWide,
    /// `.global`, `.globl`
    Global,
    /// `.type name, %function`
    TypeFunction,
    /// `.type name, %object`
    TypeObject,
    /// `.size`
    Size,
    /// `.word`, `.long`, `.4byte`
    Words,
    /// `.half`, `.short`, `.2byte`
    Halves,
    /// `.byte`
    Bytes,
    /// `.ascii`
    Ascii,
    /// `.asciz`
    Asciz,
}
