//! How an answer writes an instruction: its form, with its operands in the order of its type.
use test_rows::Text;
use thumb_isa::instr::{Decoded, Instr};

/// Appends what two halfwords decode to.
pub fn say_decoded(text: &mut Text, decoded: Decoded) {
    match decoded {
        Decoded::Is(instr, size) => {
            text.say("Is(");
            say_of_registers(text, instr);
            write!(text, ", {size})")
        }
        Decoded::Undefined => text.say("Undefined"),
        Decoded::Unpredictable => text.say("Unpredictable"),
        Decoded::NotInProfile => text.say("NotInProfile"),
    }
}

/// Appends an instruction: first those that compute from registers.
fn say_of_registers(text: &mut Text, instr: Instr) {
    match instr {
        Instr::AddSubReg { sub, d, n, m } => {
            write!(text, "AddSubReg {{ sub: {sub}, d: {d}, n: {n}, m: {m} }}")
        }
        Instr::Alu { op, d, m } => write!(text, "Alu {{ op: {op}, d: {d}, m: {m} }}"),
        Instr::AddHigh { d, m } => write!(text, "AddHigh {{ d: {d}, m: {m} }}"),
        Instr::CmpHigh { n, m } => write!(text, "CmpHigh {{ n: {n}, m: {m} }}"),
        Instr::MovHigh { d, m } => write!(text, "MovHigh {{ d: {d}, m: {m} }}"),
        Instr::Extend { op, d, m } => write!(text, "Extend {{ op: {op}, d: {d}, m: {m} }}"),
        Instr::Rev { op, d, m } => write!(text, "Rev {{ op: {op}, d: {d}, m: {m} }}"),
        Instr::Div { signed, d, n, m } => {
            write!(text, "Div {{ signed: {signed}, d: {d}, n: {n}, m: {m} }}")
        }
        other => say_of_numbers(text, other),
    }
}

/// Those that compute from an immediate.
fn say_of_numbers(text: &mut Text, instr: Instr) {
    match instr {
        Instr::ShiftImm { op, d, m, n } => {
            write!(text, "ShiftImm {{ op: {op}, d: {d}, m: {m}, n: {n} }}")
        }
        Instr::AddSubImm3 { sub, d, n, imm } => {
            write!(
                text,
                "AddSubImm3 {{ sub: {sub}, d: {d}, n: {n}, imm: {imm} }}"
            )
        }
        Instr::Imm8 { op, d, imm } => write!(text, "Imm8 {{ op: {op}, d: {d}, imm: {imm} }}"),
        Instr::Adr { d, off } => write!(text, "Adr {{ d: {d}, off: {off} }}"),
        Instr::AddRdSp { d, off } => write!(text, "AddRdSp {{ d: {d}, off: {off} }}"),
        Instr::AddSp { off } => write!(text, "AddSp {{ off: {off} }}"),
        Instr::SubSp { off } => write!(text, "SubSp {{ off: {off} }}"),
        Instr::MovW { d, imm } => write!(text, "MovW {{ d: {d}, imm: {imm} }}"),
        Instr::MovT { d, imm } => write!(text, "MovT {{ d: {d}, imm: {imm} }}"),
        other => say_of_memory(text, other),
    }
}

/// Adds a load or a store.
fn say_of_memory(text: &mut Text, instr: Instr) {
    match instr {
        Instr::LdrLit { t, off } => write!(text, "LdrLit {{ t: {t}, off: {off} }}"),
        Instr::MemReg { op, t, n, m } => {
            write!(text, "MemReg {{ op: {op}, t: {t}, n: {n}, m: {m} }}")
        }
        Instr::MemImm { op, t, n, off } => {
            write!(text, "MemImm {{ op: {op}, t: {t}, n: {n}, off: {off} }}")
        }
        Instr::MemSp { load, t, off } => {
            write!(text, "MemSp {{ load: {load}, t: {t}, off: {off} }}")
        }
        Instr::Push { list } => write!(text, "Push {{ list: {list} }}"),
        Instr::Pop { list } => write!(text, "Pop {{ list: {list} }}"),
        Instr::Stm { n, list } => write!(text, "Stm {{ n: {n}, list: {list} }}"),
        Instr::Ldm { n, list } => write!(text, "Ldm {{ n: {n}, list: {list} }}"),
        other => say_of_flow(text, other),
    }
}

/// Adds a branch, an SVC or a hint.
fn say_of_flow(text: &mut Text, instr: Instr) {
    match instr {
        Instr::Bx { m } => write!(text, "Bx {{ m: {m} }}"),
        Instr::Blx { m } => write!(text, "Blx {{ m: {m} }}"),
        Instr::BCond { cond, off } => write!(text, "BCond {{ cond: {cond}, off: {off} }}"),
        Instr::B { off } => write!(text, "B {{ off: {off} }}"),
        Instr::Bl { off } => write!(text, "Bl {{ off: {off} }}"),
        Instr::Cbz { nonzero, n, off } => {
            write!(text, "Cbz {{ nonzero: {nonzero}, n: {n}, off: {off} }}")
        }
        Instr::BWide { off } => write!(text, "BWide {{ off: {off} }}"),
        Instr::Svc { imm } => write!(text, "Svc {{ imm: {imm} }}"),
        Instr::Hint { n } => write!(text, "Hint {{ n: {n} }}"),
        Instr::Barrier { op, option } => {
            write!(text, "Barrier {{ op: {op}, option: {option} }}")
        }
        _ => text.say("an instruction of no known form"),
    }
}
