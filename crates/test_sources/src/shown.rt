//! How an answer writes a statement: its form, with its operands in the order of the text.
use crate::texts::say_text;
use asm_statements::{
    Expr, Exprs, ExprsRef, OfRegisterNumber, OfThreeRegisters, OfTwoRegisters,
    OfTwoRegistersNumber, StmtKind,
};
use eh_word::Name;
use test_rows::Text;

/// Appends a name between double quotes.
fn say_name(text: &mut Text, name: &Name) {
    text.say("\"");
    say_text(text, name.bytes());
    text.say("\"");
}

/// Appends a form with one name.
fn say_of(text: &mut Text, form: &str, name: &Name) {
    text.say(form);
    text.say("(");
    say_name(text, name);
    text.say(")");
}

/// Appends a name as the last operand of a form.
fn say_last(text: &mut Text, name: &Name) {
    text.say("name: ");
    say_name(text, name);
    text.say(" }");
}

/// Appends a form with two names and a number.
fn say_difference(text: &mut Text, one: &Name, other: &Name, n: i64) {
    text.say("Diff(");
    say_name(text, one);
    text.say(", ");
    say_name(text, other);
    write!(text, ", {n})")
}

/// Appends an expression.
fn say_expr(text: &mut Text, expr: &Expr) {
    match expr {
        Expr::Num(n) => write!(text, "Num({n})"),
        Expr::Of(name, n) => {
            text.say("Of(");
            say_name(text, name);
            write!(text, ", {n})")
        }
        Expr::Diff(one, other, n) => say_difference(text, one, other, *n),
        Expr::Prel31(name) => say_of(text, "Prel31", name),
        Expr::Prel31Ref(name) => say_of(text, "Prel31Ref", name),
        Expr::Target2(name) => say_of(text, "Target2", name),
        Expr::Rel(name) => say_of(text, "Rel", name),
    }
}

/// Appends numbers as expressions, after those before them.
fn say_numbers(text: &mut Text, numbers: &[i64]) {
    let mut between = "";
    for n in numbers {
        text.say(between);
        write!(text, "Num({n})");
        between = ", ";
    }
}

/// Appends expressions.
fn say_exprs(text: &mut Text, exprs: &[Expr]) {
    let mut between = "";
    for expr in exprs {
        text.say(between);
        say_expr(text, expr);
        between = ", ";
    }
}

/// Appends a form with a list.
fn say_list(text: &mut Text, form: &str, list: &Exprs) {
    text.say(form);
    text.say("([");
    match list.as_exprs_ref() {
        ExprsRef::Numbers(numbers) => say_numbers(text, numbers),
        ExprsRef::Mixed(exprs) => say_exprs(text, exprs),
    }
    text.say("])");
}

fn say_two_registers(text: &mut Text, what: OfTwoRegisters) {
    match what {
        OfTwoRegisters::MovsReg => text.say("MovsReg"),
        OfTwoRegisters::Mov => text.say("Mov"),
        OfTwoRegisters::CmpReg => text.say("CmpReg"),
        OfTwoRegisters::AddReg => text.say("AddReg"),
        OfTwoRegisters::Alu(op) => write!(text, "Alu({op})"),
        OfTwoRegisters::Extend(op) => write!(text, "Extend({op})"),
        OfTwoRegisters::Rev(op) => write!(text, "Rev({op})"),
    }
}

fn say_three_registers(text: &mut Text, what: OfThreeRegisters) {
    match what {
        OfThreeRegisters::AddSubReg(sub) => write!(text, "AddSubReg({sub})"),
        OfThreeRegisters::Div(signed) => write!(text, "Div({signed})"),
    }
}

fn say_register_number(text: &mut Text, what: OfRegisterNumber) {
    match what {
        OfRegisterNumber::MovsImm => text.say("MovsImm"),
        OfRegisterNumber::CmpImm => text.say("CmpImm"),
        OfRegisterNumber::AddSubTwo(sub) => write!(text, "AddSubTwo({sub})"),
        OfRegisterNumber::MovW => text.say("MovW"),
        OfRegisterNumber::MovT => text.say("MovT"),
    }
}

fn say_two_registers_number(text: &mut Text, what: OfTwoRegistersNumber) {
    match what {
        OfTwoRegistersNumber::AddSubThree(sub) => write!(text, "AddSubThree({sub})"),
        OfTwoRegistersNumber::ShiftImm(op) => write!(text, "ShiftImm({op})"),
    }
}

/// Appends a statement's form; first those that compute from operands.
pub fn say_kind(text: &mut Text, kind: &StmtKind) {
    match kind {
        StmtKind::TwoRegisters { what, d, m } => {
            text.say("TwoRegisters { what: ");
            say_two_registers(text, *what);
            write!(text, ", d: {d}, m: {m} }}")
        }
        StmtKind::ThreeRegisters { what, d, n, m } => {
            text.say("ThreeRegisters { what: ");
            say_three_registers(text, *what);
            write!(text, ", d: {d}, n: {n}, m: {m} }}")
        }
        StmtKind::RegisterNumber { what, d, imm } => {
            text.say("RegisterNumber { what: ");
            say_register_number(text, *what);
            write!(text, ", d: {d}, imm: {imm} }}")
        }
        StmtKind::TwoRegistersNumber { what, d, n, imm } => {
            text.say("TwoRegistersNumber { what: ");
            say_two_registers_number(text, *what);
            write!(text, ", d: {d}, n: {n}, imm: {imm} }}")
        }
        other => say_of_numbers(text, other),
    }
}

/// Those with numbers.
fn say_of_numbers(text: &mut Text, kind: &StmtKind) {
    match kind {
        StmtKind::AddRdSp { d, off } => write!(text, "AddRdSp {{ d: {d}, off: {off} }}"),
        StmtKind::AddSp { off } => write!(text, "AddSp {{ off: {off} }}"),
        StmtKind::SubSp { off } => write!(text, "SubSp {{ off: {off} }}"),
        StmtKind::Rsbs { d, m } => write!(text, "Rsbs {{ d: {d}, m: {m} }}"),
        StmtKind::Bx { m } => write!(text, "Bx {{ m: {m} }}"),
        StmtKind::Blx { m } => write!(text, "Blx {{ m: {m} }}"),
        StmtKind::Svc { imm } => write!(text, "Svc {{ imm: {imm} }}"),
        StmtKind::Udf { imm } => write!(text, "Udf {{ imm: {imm} }}"),
        StmtKind::Hint { n } => write!(text, "Hint {{ n: {n} }}"),
        StmtKind::Barrier { op } => write!(text, "Barrier {{ op: {op} }}"),
        other => say_of_memory(text, other),
    }
}

/// Those that load and store, and those with lists of registers.
fn say_of_memory(text: &mut Text, kind: &StmtKind) {
    match kind {
        StmtKind::MemImm { op, t, n, off } => {
            write!(text, "MemImm {{ op: {op}, t: {t}, n: {n}, off: {off} }}")
        }
        StmtKind::MemReg { op, t, n, m } => {
            write!(text, "MemReg {{ op: {op}, t: {t}, n: {n}, m: {m} }}")
        }
        StmtKind::MemSp { load, t, off } => {
            write!(text, "MemSp {{ load: {load}, t: {t}, off: {off} }}")
        }
        StmtKind::Push { list } => write!(text, "Push {{ list: {list} }}"),
        StmtKind::Pop { list } => write!(text, "Pop {{ list: {list} }}"),
        StmtKind::Stm { n, list } => write!(text, "Stm {{ n: {n}, list: {list} }}"),
        StmtKind::LdmBack { n, list } => write!(text, "LdmBack {{ n: {n}, list: {list} }}"),
        StmtKind::Ldm { n, list } => write!(text, "Ldm {{ n: {n}, list: {list} }}"),
        other => say_of_places(text, other),
    }
}

/// Those that have a name beside other operands, and the branches.
fn say_of_places(text: &mut Text, kind: &StmtKind) {
    match kind {
        StmtKind::Adr { d, name } => {
            write!(text, "Adr {{ d: {d}, ");
            say_last(text, name)
        }
        StmtKind::LdrLabel { t, name } => {
            write!(text, "LdrLabel {{ t: {t}, ");
            say_last(text, name)
        }
        StmtKind::LdrPool { t, value } => {
            write!(text, "LdrPool {{ t: {t}, value: PoolValue {{ expr: ");
            say_expr(text, value.expr());
            text.say(" } }")
        }
        StmtKind::BCond { cond, name } => {
            write!(text, "BCond {{ cond: {cond}, ");
            say_last(text, name)
        }
        StmtKind::Cbz { nonzero, n, name } => {
            write!(text, "Cbz {{ nonzero: {nonzero}, n: {n}, ");
            say_last(text, name)
        }
        StmtKind::B(name) => say_of(text, "B", name),
        StmtKind::Bl(name) => say_of(text, "Bl", name),
        StmtKind::BWide(name) => say_of(text, "BWide", name),
        other => say_of_symbols(text, other),
    }
}

/// Labels and directives: those with names and lists.
fn say_of_symbols(text: &mut Text, kind: &StmtKind) {
    match kind {
        StmtKind::Label(name) => say_of(text, "Label", name),
        StmtKind::Global(name) => say_of(text, "Global", name),
        StmtKind::TypeFunction(name) => say_of(text, "TypeFunction", name),
        StmtKind::TypeObject(name) => say_of(text, "TypeObject", name),
        StmtKind::Size(name) => say_of(text, "Size", name),
        StmtKind::Words(list) => say_list(text, "Words", list),
        StmtKind::Halves(list) => say_list(text, "Halves", list),
        StmtKind::Bytes(list) => say_list(text, "Bytes", list),
        StmtKind::Ascii(name) => say_of(text, "Ascii", name),
        StmtKind::Asciz(name) => say_of(text, "Asciz", name),
        other => say_of_unwinding(text, other),
    }
}

/// Directives with numbers, and those for unwinding.
fn say_of_unwinding(text: &mut Text, kind: &StmtKind) {
    match kind {
        StmtKind::Space(n) => write!(text, "Space({n})"),
        StmtKind::Align(n) => write!(text, "Align({n})"),
        StmtKind::Save { list } => write!(text, "Save {{ list: {list} }}"),
        StmtKind::Pad(n) => write!(text, "Pad({n})"),
        StmtKind::SetFp { r, off } => write!(text, "SetFp {{ r: {r}, off: {off} }}"),
        StmtKind::PersonalityIndex(n) => write!(text, "PersonalityIndex({n})"),
        StmtKind::FnStart => text.say("FnStart"),
        StmtKind::FnEnd => text.say("FnEnd"),
        StmtKind::CantUnwind => text.say("CantUnwind"),
        StmtKind::HandlerData => text.say("HandlerData"),
        other => say_of_sections(text, other),
    }
}

/// Adds a directive of sections or pools.
fn say_of_sections(text: &mut Text, kind: &StmtKind) {
    match kind {
        StmtKind::Text => text.say("Text"),
        StmtKind::Data => text.say("Data"),
        StmtKind::Bss => text.say("Bss"),
        StmtKind::Rodata => text.say("Rodata"),
        StmtKind::Pool => text.say("Pool"),
        _ => text.say("a statement of no known form"),
    }
}
