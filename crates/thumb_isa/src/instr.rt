//! The instructions of both profiles, with their fields (docs/rules/instructions.md).
/// An instruction with its fields. The last five are only in the second profile (Armv8-M Baseline, DDI 0553), the
/// others in both.
///
/// Registers are numbered 0 to 15 (13 is sp, 14 lr, 15 pc): `d` is the destination, `t` the register that is loaded or
/// stored, `n` and `m` are operands. In a `list`, bit k is set if register k is in it. `off` is in bytes: from the base
/// register or, for a branch, from the instruction's address plus 4. `op` is the opcode field of the encoding, except
/// where a variant says otherwise.
#[derive(Clone, Copy)]
pub enum Instr {
    /// LSL, LSR, ASR (immediate): `op` 0, 1, 2; `n` is the amount, 0 to 31 for LSL and 1 to 32 for the others.
    ShiftImm { op: u8, d: u8, m: u8, n: u32 },
    /// ADD (`sub` false) or SUB (register).
    AddSubReg { sub: bool, d: u8, n: u8, m: u8 },
    /// ADD (`sub` false) or SUB (immediate) with a 3-bit `imm`.
    AddSubImm3 { sub: bool, d: u8, n: u8, imm: u32 },
    /// MOV, CMP, ADD, SUB (immediate) with an 8-bit `imm`: `op` 0 to 3.
    Imm8 { op: u8, d: u8, imm: u32 },
    /// AND, EOR, LSL, LSR, ASR, ADC, SBC, ROR, TST, RSB, CMP, CMN, ORR, MUL, BIC, MVN (register): `op` 0 to 15.
    Alu { op: u8, d: u8, m: u8 },
    /// ADD (register) of any two registers; keeps the flags.
    AddHigh { d: u8, m: u8 },
    /// CMP (register) with at least one high register.
    CmpHigh { n: u8, m: u8 },
    /// MOV (register) of any two registers; keeps the flags.
    MovHigh { d: u8, m: u8 },
    /// BX.
    Bx { m: u8 },
    /// BLX (register).
    Blx { m: u8 },
    /// LDR (literal): `off` is from the instruction's address plus 4, rounded down to a multiple of 4.
    LdrLit { t: u8, off: i32 },
    /// STR, STRH, STRB, LDRSB, LDR, LDRH, LDRB, LDRSH (register): `op` 0 to 7.
    MemReg { op: u8, t: u8, n: u8, m: u8 },
    /// STR, LDR, STRB, LDRB, STRH, LDRH (immediate): `op` 0 to 5 in this order.
    MemImm { op: u8, t: u8, n: u8, off: i32 },
    /// LDR (`load`) or STR (immediate) with base sp.
    MemSp { load: bool, t: u8, off: i32 },
    /// ADR: `off` is from the instruction's address plus 4, rounded down to a multiple of 4.
    Adr { d: u8, off: i32 },
    /// ADD (SP plus immediate) to a low register.
    AddRdSp { d: u8, off: i32 },
    /// ADD (SP plus immediate) to sp.
    AddSp { off: i32 },
    /// SUB (SP minus immediate).
    SubSp { off: i32 },
    /// SXTH, SXTB, UXTH, UXTB: `op` 0 to 3.
    Extend { op: u8, d: u8, m: u8 },
    /// REV, REV16, REVSH: `op` 0, 1, 3.
    Rev { op: u8, d: u8, m: u8 },
    /// PUSH of registers among r0 to r7 and lr.
    Push { list: u16 },
    /// POP of registers among r0 to r7 and pc.
    Pop { list: u16 },
    /// NOP, YIELD, WFE, WFI, SEV (`n` 0 to 4) and the hints without a name.
    Hint { n: u8 },
    /// STM, with write-back.
    Stm { n: u8, list: u16 },
    /// LDM, with write-back exactly if `n` is not in the list.
    Ldm { n: u8, list: u16 },
    /// B with a condition `cond`, 0 to 13.
    BCond { cond: u8, off: i32 },
    /// SVC with the number `imm`.
    Svc { imm: u32 },
    /// B without a condition.
    B { off: i32 },
    /// BL.
    Bl { off: i32 },
    /// DSB, DMB, ISB: `op` 0, 1, 2; `option` is the option field.
    Barrier { op: u8, option: u8 },
    /// CBNZ (`nonzero`) or CBZ: a forward branch if r`n` isn't 0, or is 0.
    Cbz { nonzero: bool, n: u8, off: i32 },
    /// B without a condition, of 32 bits.
    BWide { off: i32 },
    /// MOVW: MOV of the 16-bit `imm`.
    MovW { d: u8, imm: u32 },
    /// MOVT: sets the upper halfword to `imm` and keeps the lower one.
    MovT { d: u8, imm: u32 },
    /// SDIV (`signed`) or UDIV: d = n / m.
    Div { signed: bool, d: u8, n: u8, m: u8 },
}

/// The meaning of a pair of halfwords.
#[derive(Clone, Copy)]
pub enum Decoded {
    /// An instruction, and its size in bytes, 2 or 4.
    Is(Instr, u32),
    /// No instruction: the manual leaves the encoding undefined or assigns it to UDF.
    Undefined,
    /// An encoding that the manual calls unpredictable.
    Unpredictable,
    /// A system instruction of Armv6-M (CPS, BKPT, MSR, MRS) that this machine doesn't have.
    NotInProfile,
}
