//! Reads expressions: numbers, names, names with an addend, and differences of names
//! (docs/rules/sources.md, "Directives").
ghost use Rattle.std.specs.Prelude.{◌≡◌, ◌<◌, ◌≤◌, ◌-ℤ◌, pos, length, false, Option, IfOk, IfErr, IfSome};
ghost use Rattle.asm_read.specs.Expressions.{relation_of, read_relation, read_difference, after_name, expression_at, list_expr_at, list_item_at, expressions_at, end_of};

use crate::fault::SourceWhat;
use crate::line::{LineEnd, Span, end_at_token, mark_at, name_at, name_of, number_at};
use crate::token::{TokenKind, is_mark_of, mark_after, token_at};

/// An expression whose names are spans of the line.
#[derive(Clone, Copy)]
pub enum Shape {
    /// A number.
    Num(i64),
    /// `name` or `name+n`.
    Of(Span, i64),
    /// `a-b` or `a-b+n`.
    Diff(Span, Span, i64),
    /// `name(prel31)`.
    Prel31(Span),
    /// `name(prel31ref)`.
    Prel31Ref(Span),
    /// `name(target2)`.
    Target2(Span),
    /// `name(rel)`.
    Rel(Span),
}

/// An expression that was read.
#[derive(Clone, Copy)]
pub struct ParsedExpr {
    /// The expression.
    pub shape: Shape,
    /// The offset in the line, in bytes, after the expression.
    pub end: usize,
}

/// The expression `name(word)`, or None if the word is no relocation operator.
fn relation_of(name: Span, word: &[u8]) -> Option<Shape>
    ensures { result ≡ relation_of name word.now }
{
    if word == b"prel31".as_slice() {
        Some(Shape::Prel31(name))
    } else if word == b"prel31ref".as_slice() {
        Some(Shape::Prel31Ref(name))
    } else if word == b"target2".as_slice() {
        Some(Shape::Target2(name))
    } else if word == b"rel".as_slice() {
        Some(Shape::Rel(name))
    } else {
        None
    }
}

/// Reads the operator of `name(word)`, from the offset after the opening parenthesis.
#[tactic(auto, unfolding(crate::specs::Expressions::read_relation))]
fn related(line: &[u8], name: Span, from: usize) -> Result<ParsedExpr, LineEnd>
    requires { from ≤ length line.now }
    ensures shaped { result ≡ read_relation line.now name from }
    ensures end { IfOk result (λ e. e.end ≤ length line.now) }
    ensures stop { IfErr result (λ s. s.at ≤ length line.now) }
{
    let token = token_at(line, from);
    match relation_of(name, name_of(line, token)) {
        None => Err(end_at_token(token)),
        Some(shape) => {
            let end = mark_at(b')', line, token.end)?;
            Ok(ParsedExpr { shape, end })
        }
    }
}

/// Reads the rest of `a-b` or `a-b+n`, from the offset after the minus sign.
#[tactic(auto, unfolding(crate::specs::Expressions::read_difference))]
fn difference(line: &[u8], name: Span, from: usize) -> Result<ParsedExpr, LineEnd>
    requires { from ≤ length line.now }
    ensures shaped { result ≡ read_difference line.now name from }
    ensures end { IfOk result (λ e. e.end ≤ length line.now) }
    ensures stop { IfErr result (λ s. s.at ≤ length line.now) }
{
    let other = name_at(line, from)?;
    let Some(plus) = mark_after(b'+', line, other.end) else {
        return Ok(ParsedExpr {
            shape: Shape::Diff(name, other, 0),
            end: other.end,
        });
    };
    let number = number_at(line, plus)?;
    Ok(ParsedExpr {
        shape: Shape::Diff(name, other, number.value),
        end: number.end,
    })
}

/// Reads the rest of an expression that begins with a name, from the offset after the name.
#[tactic(auto, unfolding(crate::specs::Expressions::after_name))]
fn after_name(word: bool, line: &[u8], name: Span) -> Result<ParsedExpr, LineEnd>
    requires { name.end ≤ length line.now }
    ensures shaped { result ≡ after_name word line.now name }
    ensures end { IfOk result (λ e. e.end ≤ length line.now) }
    ensures stop { IfErr result (λ s. s.at ≤ length line.now) }
{
    let token = token_at(line, name.end);
    if is_mark_of(b'+', token.kind) {
        let number = number_at(line, token.end)?;
        return Ok(ParsedExpr {
            shape: Shape::Of(name, number.value),
            end: number.end,
        });
    }
    if is_mark_of(b'-', token.kind) {
        return difference(line, name, token.end);
    }
    if word && is_mark_of(b'(', token.kind) {
        return related(line, name, token.end);
    }
    Ok(ParsedExpr {
        shape: Shape::Of(name, 0),
        end: name.end,
    })
}

/// Reads the expression at an offset. `word` allows `name(prel31)` and the other operators of words.
#[tactic(auto, unfolding(crate::specs::Expressions::expression_at))]
pub fn expression_at(word: bool, line: &[u8], from: usize) -> Result<ParsedExpr, LineEnd>
    requires { from ≤ length line.now }
    ensures shaped { result ≡ expression_at word line.now from }
    ensures end { IfOk result (λ e. e.end ≤ length line.now) }
    ensures stop { IfErr result (λ s. s.at ≤ length line.now) }
{
    let token = token_at(line, from);
    match token.kind {
        TokenKind::Number(value) => Ok(ParsedExpr {
            shape: Shape::Num(value),
            end: token.end,
        }),
        TokenKind::Wide => Err(LineEnd {
            at: token.start,
            what: SourceWhat::NumberRange,
        }),
        TokenKind::Word => after_name(
            word,
            line,
            Span {
                start: token.start,
                end: token.end,
            },
        ),
        _ => Err(end_at_token(token)),
    }
}

/// Reads the expression at an offset of a directive's list, where a number may have a `#`.
#[tactic(auto, unfolding(crate::specs::Expressions::list_expr_at))]
fn listed_at(word: bool, line: &[u8], from: usize) -> Result<ParsedExpr, LineEnd>
    requires { from ≤ length line.now }
    ensures shaped { result ≡ list_expr_at word line.now from }
    ensures end { IfOk result (λ e. e.end ≤ length line.now) }
    ensures stop { IfErr result (λ s. s.at ≤ length line.now) }
{
    let Some(hash) = mark_after(b'#', line, from) else {
        return expression_at(word, line, from);
    };
    let number = number_at(line, hash)?;
    Ok(ParsedExpr {
        shape: Shape::Num(number.value),
        end: number.end,
    })
}

/// An expression of a comma-separated list.
#[derive(Clone, Copy)]
pub struct ListItem {
    /// The expression.
    pub shape: Shape,
    /// The offset in the line, in bytes, after the expression.
    pub end: usize,
    /// The offset in the line, in bytes, of the next expression; None if no comma follows.
    pub next: Option<usize>,
}

/// Reads one expression of a list at an offset, and the comma after it.
#[tactic(auto, unfolding(crate::specs::Expressions::list_item_at))]
pub fn list_item_at(word: bool, line: &[u8], from: usize) -> Result<ListItem, LineEnd>
    requires { from ≤ length line.now }
    ensures item { result ≡ list_item_at word line.now from }
    ensures end { IfOk result (λ i. i.end ≤ length line.now) }
    ensures next { IfOk result (λ i. IfSome i.next (λ at. at ≤ length line.now)) }
    ensures stop { IfErr result (λ s. s.at ≤ length line.now) }
{
    let shaped = listed_at(word, line, from)?;
    Ok(ListItem {
        shape: shaped.shape,
        end: shaped.end,
        next: mark_after(b',', line, shaped.end),
    })
}

/// The offset after the comma-separated expressions that begin at an offset. Err at the first that can't be read.
#[tactic(auto, using(crate::proofs::Steps::end_stop, crate::proofs::Steps::end_last, crate::proofs::Steps::end_more, crate::proofs::Steps::end_none))]
pub fn expressions_end(word: bool, line: &[u8], from: usize) -> Result<usize, LineEnd>
    requires { from ≤ length line.now }
    ensures place { result ≡ end_of (expressions_at (length line.now) word line.now from) }
    ensures end { IfOk result (λ at. at ≤ length line.now) }
    ensures stop { IfErr result (λ s. s.at ≤ length line.now) }
{
    let mut at = from;
    let mut left = line.len();
    while left > 0 {
        let item = list_item_at(word, line, at)?;
        match item.next {
            None => return Ok(item.end),
            Some(next) => at = next,
        }
        left -= 1;
    }
    Err(end_at_token(token_at(line, at)))
}
