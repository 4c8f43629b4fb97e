//! Builds a statement from its form and the operands that were read (docs/rules/sources.md).
ghost use Rattle.std.specs.Prelude.{◌≡◌, ◌==◌, ◌+◌, ◌<◌, ◌≤◌, ◌++◌, ◌∷◌, [], false, length, count_by, Option, IfOk, OnOk};
ghost use Rattle.asm_read.specs.Tokens.{unescape};
ghost use Rattle.asm_read.specs.Operands.{bytes_of};
ghost use Rattle.asm_read.specs.Expressions.{expr_of, expr_from, expressions_at, exprs_of};
ghost use Rattle.asm_read.specs.Statements.{text_of, computation_of, transfer_of, control_of, directive_of, stmt_of_named, kind_of};

use crate::choice::Statement;
use crate::expression::{Shape, expression_at, list_item_at};
use crate::form::Operands;
use crate::line::{Span, bytes_of};
use crate::makes::{Computation, Control, Directive, Makes, Named, Transfer};
use crate::token::escape;
use asm_statements::{Expr, Exprs, PoolValue, StmtKind};
use eh_word::{Name, NameMemory};
use std::alloc::{AllocError, Global};

/// Copies the bytes of a span as a name.
fn name(alloc: Global, line: &[u8], span: Span) -> Result<Name, NameMemory>
    ensures { IfOk result (λ n. n ≡ bytes_of line.now span) }
{
    Name::of(alloc, bytes_of(line, span))
}

/// The bytes that a quoted text stands for, given the bytes between its quotes.
fn unescape(alloc: Global, inside: &[u8]) -> Result<Vec<u8>, AllocError>
    ensures { IfOk result (λ v. v.items ≡ unescape false inside.now) }
{
    let mut bytes = Vec::new(alloc);
    let mut escaped = false;
    for b in inside {
        if escaped {
            bytes.push(escape(*b).unwrap_or(*b))?;
            escaped = false;
        } else if *b == b'\\' {
            escaped = true;
        } else {
            bytes.push(*b)?;
        }
    }
    Ok(bytes)
}

/// The comma-separated expressions at an offset. Empty if the offset is past the line's end.
#[tactic(auto, using(crate::proofs::Past::exprs_past))]
fn exprs(alloc: Global, word: bool, line: &[u8], from: usize) -> Result<Exprs, NameMemory>
    ensures { IfOk result (λ e. e ≡ exprs_of line.now (expressions_at (length line.now) word line.now from)) }
{
    if from > line.len() {
        return Ok(Exprs::new(alloc));
    }
    let mut exprs = exprs_from(alloc, word, line, from)?;
    // the list ends here
    exprs.shrink_to_fit();
    Ok(exprs)
}

/// The bytes that a quoted text stands for. The span includes the quotes.
fn text(alloc: Global, line: &[u8], span: Span) -> Result<Name, NameMemory>
    ensures { IfOk result (λ n. n ≡ text_of line.now span) }
{
    let quoted = bytes_of(line, span);
    match quoted {
        [_, inside @ .., _] => Ok(Name::of_vec(unescape(alloc, inside)?)),
        _ => Ok(Name::of_vec(Vec::new(alloc))),
    }
}

/// The expression of a shape, with its names copied out of the line.
fn expr(alloc: Global, line: &[u8], shape: Shape) -> Result<Expr, NameMemory>
    ensures { IfOk result (λ e. e ≡ expr_of line.now shape) }
{
    Ok(match shape {
        Shape::Num(n) => Expr::Num(n),
        Shape::Of(a, n) => Expr::Of(name(alloc, line, a)?, n),
        Shape::Diff(a, b, n) => Expr::Diff(name(alloc, line, a)?, name(alloc, line, b)?, n),
        Shape::Prel31(a) => Expr::Prel31(name(alloc, line, a)?),
        Shape::Prel31Ref(a) => Expr::Prel31Ref(name(alloc, line, a)?),
        Shape::Target2(a) => Expr::Target2(name(alloc, line, a)?),
        Shape::Rel(a) => Expr::Rel(name(alloc, line, a)?),
    })
}

/// The expression at an offset, or the number 0 if none starts there.
#[tactic(auto, using(crate::proofs::Past::expr_past), unfolding(crate::specs::Expressions::expr_from))]
fn expr_from(alloc: Global, line: &[u8], from: usize) -> Result<Expr, NameMemory>
    ensures { IfOk result (λ e. e ≡ expr_from line.now from) }
{
    if from > line.len() {
        return Ok(Expr::Num(0));
    }
    match expression_at(false, line, from) {
        Ok(shaped) => expr(alloc, line, shaped.shape),
        Err(_) => Ok(Expr::Num(0)),
    }
}

/// The number of commas plus 1: an upper bound of how many expressions follow. Texts and comments may add commas.
fn most_expressions(bytes: &[u8]) -> usize
    ensures { result ≡ count_by (λ b. b == 44) bytes.now + 1 }
{
    let mut most = 1;
    for b in bytes {
        if *b == b',' {
            most += 1;
        }
    }
    most
}

/// Adds the expression of a shape. `most` is how many expressions the list may hold in the end.
fn push_shape(
    alloc: Global,
    line: &[u8],
    most: usize,
    shape: Shape,
    exprs: &mut Exprs,
) -> Result<(), NameMemory>
    ensures { OnOk result (exprs.new ≡ exprs.old ++ expr_of line.now shape ∷ []) }
{
    match shape {
        Shape::Num(n) => exprs.push_number(most, n)?,
        shape => exprs.push(alloc, most, expr(alloc, line, shape)?)?,
    }
    Ok(())
}

/// The comma-separated expressions at an offset. Empty if no list starts there.
#[tactic(auto, using(crate::proofs::Steps::joined_none, crate::proofs::Steps::joined_stop, crate::proofs::Steps::joined_more, crate::proofs::Steps::joined_last, crate::proofs::Steps::joined_end))]
fn exprs_from(alloc: Global, word: bool, line: &[u8], from: usize) -> Result<Exprs, NameMemory>
    requires { from ≤ length line.now }
    ensures { IfOk result (λ e. e ≡ exprs_of line.now (expressions_at (length line.now) word line.now from)) }
{
    let most = most_expressions(&line[from..]);
    let mut exprs = Exprs::new(alloc);
    let mut at = from;
    let mut left = line.len();
    while left > 0 {
        let Ok(item) = list_item_at(word, line, at) else {
            return Ok(Exprs::new(alloc));
        };
        push_shape(alloc, line, most, item.shape, &mut exprs)?;
        match item.next {
            None => return Ok(exprs),
            Some(next) => at = next,
        }
        left -= 1;
    }
    Ok(Exprs::new(alloc))
}

/// Builds a computation with a fixed operand (sp or 0).
fn computation_of(computation: Computation, operands: Operands) -> StmtKind
    ensures { result ≡ computation_of computation operands }
{
    let d = operands.first;
    let off = operands.number;
    match computation {
        Computation::AddRdSp => StmtKind::AddRdSp { d, off },
        Computation::AddSp => StmtKind::AddSp { off },
        Computation::SubSp => StmtKind::SubSp { off },
        Computation::Rsbs => StmtKind::Rsbs {
            d,
            m: operands.second,
        },
    }
}

/// Builds a load, a store or a push or pop of a register list.
fn transfer_of(transfer: Transfer, operands: Operands) -> StmtKind
    ensures { result ≡ transfer_of transfer operands }
{
    let t = operands.first;
    let n = operands.second;
    let m = operands.third;
    let off = operands.number;
    let list = operands.list;
    match transfer {
        Transfer::MemSp(load) => StmtKind::MemSp { load, t, off },
        Transfer::MemImm(op) => StmtKind::MemImm { op, t, n, off },
        Transfer::MemReg(op) => StmtKind::MemReg { op, t, n, m },
        Transfer::Push => StmtKind::Push { list },
        Transfer::Pop => StmtKind::Pop { list },
        Transfer::Stm => StmtKind::Stm { n: t, list },
        Transfer::LdmBack => StmtKind::LdmBack { n: t, list },
        Transfer::Ldm => StmtKind::Ldm { n: t, list },
    }
}

/// Builds a BX, BLX, SVC, UDF, hint or barrier.
fn control_of(control: Control, operands: Operands) -> StmtKind
    ensures { result ≡ control_of control operands }
{
    let m = operands.first;
    let imm = operands.number;
    match control {
        Control::Bx => StmtKind::Bx { m },
        Control::Blx => StmtKind::Blx { m },
        Control::Svc => StmtKind::Svc { imm },
        Control::Udf => StmtKind::Udf { imm },
        Control::Hint(n) => StmtKind::Hint { n },
        Control::Barrier(op) => StmtKind::Barrier { op },
    }
}

/// Builds a directive that has no name, text or expression.
fn directive_of(directive: Directive, operands: Operands) -> StmtKind
    ensures { result ≡ directive_of directive operands }
{
    let r = operands.first;
    let n = operands.number;
    let list = operands.list;
    match directive {
        Directive::Text => StmtKind::Text,
        Directive::Data => StmtKind::Data,
        Directive::Bss => StmtKind::Bss,
        Directive::Rodata => StmtKind::Rodata,
        Directive::Space => StmtKind::Space(n),
        Directive::Align => StmtKind::Align(n),
        Directive::Pool => StmtKind::Pool,
        Directive::FnStart => StmtKind::FnStart,
        Directive::FnEnd => StmtKind::FnEnd,
        Directive::Save => StmtKind::Save { list },
        Directive::Pad => StmtKind::Pad(n),
        Directive::SetFp => StmtKind::SetFp { r, off: n },
        Directive::CantUnwind => StmtKind::CantUnwind,
        Directive::PersonalityIndex => StmtKind::PersonalityIndex(n),
        Directive::HandlerData => StmtKind::HandlerData,
    }
}

/// Builds a statement that has a name, a text or expressions. Err if memory runs out.
fn stmt_of_named(
    alloc: Global,
    line: &[u8],
    named: Named,
    o: Operands,
) -> Result<StmtKind, NameMemory>
    ensures { IfOk result (λ k. k ≡ stmt_of_named line.now named o) }
{
    let d = o.first;
    Ok(match named {
        Named::Adr => StmtKind::Adr {
            d,
            name: name(alloc, line, o.name)?,
        },
        Named::LdrLabel => StmtKind::LdrLabel {
            t: d,
            name: name(alloc, line, o.name)?,
        },
        Named::LdrPool => StmtKind::LdrPool {
            t: d,
            value: PoolValue::of(alloc, expr_from(alloc, line, o.from)?)?,
        },
        Named::B => StmtKind::B(name(alloc, line, o.name)?),
        Named::BCond(cond) => StmtKind::BCond {
            cond,
            name: name(alloc, line, o.name)?,
        },
        Named::Bl => StmtKind::Bl(name(alloc, line, o.name)?),
        Named::Cbz(nonzero) => StmtKind::Cbz {
            nonzero,
            n: d,
            name: name(alloc, line, o.name)?,
        },
        Named::BWide => StmtKind::BWide(name(alloc, line, o.name)?),
        Named::Global => StmtKind::Global(name(alloc, line, o.name)?),
        Named::TypeFunction => StmtKind::TypeFunction(name(alloc, line, o.name)?),
        Named::TypeObject => StmtKind::TypeObject(name(alloc, line, o.name)?),
        Named::Size => StmtKind::Size(name(alloc, line, o.name)?),
        Named::Words => StmtKind::Words(exprs(alloc, true, line, o.from)?),
        Named::Halves => StmtKind::Halves(exprs(alloc, false, line, o.from)?),
        Named::Bytes => StmtKind::Bytes(exprs(alloc, false, line, o.from)?),
        Named::Ascii => StmtKind::Ascii(text(alloc, line, o.name)?),
        Named::Asciz => StmtKind::Asciz(text(alloc, line, o.name)?),
    })
}

/// The statement of a form that fits. Err if memory runs out.
#[tactic(auto, unfolding(crate::specs::Statements::kind_of))]
pub fn kind_of(alloc: Global, line: &[u8], statement: Statement) -> Result<StmtKind, NameMemory>
    ensures { IfOk result (λ k. k ≡ kind_of line.now statement) }
{
    let operands = statement.operands;
    let d = operands.first;
    let imm = operands.number;
    Ok(match statement.makes {
        Makes::OfTwoRegisters(what) => StmtKind::TwoRegisters {
            what,
            d,
            m: operands.second,
        },
        Makes::OfThreeRegisters(what) => StmtKind::ThreeRegisters {
            what,
            d,
            n: operands.second,
            m: operands.third,
        },
        Makes::OfRegisterNumber(what) => StmtKind::RegisterNumber { what, d, imm },
        Makes::OfTwoRegistersNumber(what) => StmtKind::TwoRegistersNumber {
            what,
            d,
            n: operands.second,
            imm,
        },
        Makes::Computes(computation) => computation_of(computation, operands),
        Makes::Transfers(transfer) => transfer_of(transfer, operands),
        Makes::Controls(control) => control_of(control, operands),
        Makes::Directs(directive) => directive_of(directive, operands),
        Makes::Names(named) => stmt_of_named(alloc, line, named, operands)?,
    })
}
