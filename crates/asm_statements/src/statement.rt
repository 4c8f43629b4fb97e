//! The statements of docs/rules/sources.md.
ghost use Rattle.std.specs.Prelude.{◌≡◌, IfOk};

use crate::computation::{
    OfRegisterNumber, OfThreeRegisters, OfTwoRegisters, OfTwoRegistersNumber,
};
use crate::exprs::Exprs;
use eh_word::Name;
use std::alloc::{AllocError, Global};
use std::marker::Model;

/// A statement of a source.
#[derive(Drop)]
pub struct Stmt {
    /// The line of the source, counted from 1.
    pub line: u32,
    /// The statement itself.
    pub kind: StmtKind,
}

/// An expression. Names are addresses that the assembler or the linker knows.
#[derive(Drop)]
pub enum Expr {
    /// A number.
    Num(i64),
    /// `name` or `name+n`.
    Of(Name, i64),
    /// `a-b` or `a-b+n`.
    Diff(Name, Name, i64),
    /// `name(prel31)`.
    Prel31(Name),
    /// `name(prel31ref)`: as `prel31` with bit 31 set.
    Prel31Ref(Name),
    /// `name(target2)`.
    Target2(Name),
    /// `name(rel)`.
    Rel(Name),
}

/// The value of a `ldr rt, =value`. It is boxed, because an expression is larger than all other parts of a statement
/// and few statements have one. Contracts see the expression.
#[derive(Drop)]
pub struct PoolValue {
    expr: Box<Expr>,
}

impl Model for PoolValue {
    ghost use Rattle.asm_statements.specs.declared.statement.Expr.{Expr};

    ghost Value = { Expr };

    ghost view = { λ v. v.expr.value };
}

impl PoolValue {
    /// Boxes an expression. Err if memory runs out.
    pub fn of(alloc: Global, expr: Expr) -> Result<PoolValue, AllocError>
        ensures { IfOk result (λ v. v ≡ expr) }
    {
        Ok(PoolValue {
            expr: Box::new(alloc, expr)?,
        })
    }

    /// The expression.
    pub fn expr(&self) -> &Expr
        ensures { result.now ≡ self.now }
    {
        &self.expr
    }
}

/// A statement. The fields are in the order of the text.
///
/// Registers are numbered 0 to 15 (13 is sp, 14 lr, 15 pc); whether an instruction accepts them isn't checked here. In
/// a `list`, bit k is set if register k is listed. Numbers are from -2,147,483,648 to 4,294,967,295. `op` and `cond`
/// are fields of the instruction's encoding (Armv6-M Architecture Reference Manual, DDI 0419; Armv8-M Baseline, DDI
/// 0553).
#[derive(Drop)]
pub enum StmtKind {
    /// `name:`
    Label(Name),
    /// `rd, rm` after the word of the computation `what`
    TwoRegisters {
        what: OfTwoRegisters,
        d: u8,
        m: u8,
    },
    /// `rd, rn, rm` after the word of the computation `what`
    ThreeRegisters {
        what: OfThreeRegisters,
        d: u8,
        n: u8,
        m: u8,
    },
    /// `rd, #imm` after the word of the computation `what`
    RegisterNumber {
        what: OfRegisterNumber,
        d: u8,
        imm: i64,
    },
    /// `rd, rn, #imm` after the word of the computation `what`
    TwoRegistersNumber {
        what: OfTwoRegistersNumber,
        d: u8,
        n: u8,
        imm: i64,
    },
    /// `add rd, sp, #off`
    AddRdSp {
        d: u8,
        off: i64,
    },
    /// `add sp, #off`
    AddSp {
        off: i64,
    },
    /// `sub sp, #off`
    SubSp {
        off: i64,
    },
    /// `rsbs rd, rm, #0`
    Rsbs {
        d: u8,
        m: u8,
    },
    /// `adr rd, name`
    Adr {
        d: u8,
        name: Name,
    },
    /// `ldr rt, name`
    LdrLabel {
        t: u8,
        name: Name,
    },
    /// `ldr rt, =value`
    LdrPool {
        t: u8,
        value: PoolValue,
    },
    /// `rt, [rn, #off]` after `str` (0), `ldr` (1), `strb` (2), `ldrb` (3), `strh` (4) or `ldrh` (5); without `#off` it
    /// is 0. For `str` and `ldr` the base is not sp.
    MemImm {
        op: u8,
        t: u8,
        n: u8,
        off: i64,
    },
    /// `rt, [rn, rm]` after `str` (0), `strh` (1), `strb` (2), `ldrsb` (3), `ldr` (4), `ldrh` (5), `ldrb` (6) or
    /// `ldrsh` (7)
    MemReg {
        op: u8,
        t: u8,
        n: u8,
        m: u8,
    },
    /// `ldr rt, [sp, #off]` if `load`, else `str rt, [sp, #off]`; without `#off` it is 0
    MemSp {
        load: bool,
        t: u8,
        off: i64,
    },
    /// `push {list}`
    Push {
        list: u16,
    },
    /// `pop {list}`
    Pop {
        list: u16,
    },
    /// `stm rn!, {list}`
    Stm {
        n: u8,
        list: u16,
    },
    /// `ldm rn!, {list}`
    LdmBack {
        n: u8,
        list: u16,
    },
    /// `ldm rn, {list}`, where rn is in the list
    Ldm {
        n: u8,
        list: u16,
    },
    /// `b name`
    B(Name),
    /// `beq name` and the other conditions; `cond` is 0 to 13
    BCond {
        cond: u8,
        name: Name,
    },
    /// `bl name`
    Bl(Name),
    /// `cbnz rn, name` if `nonzero`, else `cbz rn, name`
    Cbz {
        nonzero: bool,
        n: u8,
        name: Name,
    },
    /// `b.w name`
    BWide(Name),
    /// `bx rm`
    Bx {
        m: u8,
    },
    /// `blx rm`
    Blx {
        m: u8,
    },
    /// `svc #imm`
    Svc {
        imm: i64,
    },
    /// `udf #imm`
    Udf {
        imm: i64,
    },
    /// `nop` (0), `yield` (1), `wfe` (2), `wfi` (3), `sev` (4)
    Hint {
        n: u8,
    },
    /// `dsb` (0), `dmb` (1), `isb` (2), with option 15
    Barrier {
        op: u8,
    },
    /// `.text`
    Text,
    /// `.data`
    Data,
    /// `.bss`
    Bss,
    /// `.section .rodata`
    Rodata,
    /// `.global name`, `.globl name`
    Global(Name),
    /// `.type name, %function`
    TypeFunction(Name),
    /// `.type name, %object`
    TypeObject(Name),
    /// `.size name, .-name`
    Size(Name),
    /// `.word`, `.long` or `.4byte` with a list
    Words(Exprs),
    /// `.half`, `.short` or `.2byte` with a list
    Halves(Exprs),
    /// `.byte` with a list
    Bytes(Exprs),
    /// `.ascii "text"`; holds the bytes, escapes decoded
    Ascii(Name),
    /// `.asciz "text"`; holds the bytes, escapes decoded, without the closing zero byte
    Asciz(Name),
    /// `.space n`, `.zero n`; n in bytes
    Space(i64),
    /// `.align n`, `.p2align n`: to a multiple of 2^n bytes, n from 0 to 3
    Align(i64),
    /// `.pool`, `.ltorg`
    Pool,
    /// `.fnstart`
    FnStart,
    /// `.fnend`
    FnEnd,
    /// `.save {list}`
    Save {
        list: u16,
    },
    /// `.pad #n`
    Pad(i64),
    /// `.setfp r, sp, #off`
    SetFp {
        r: u8,
        off: i64,
    },
    /// `.cantunwind`
    CantUnwind,
    /// `.personalityindex n`
    PersonalityIndex(i64),
    /// `.handlerdata`
    HandlerData,
}
