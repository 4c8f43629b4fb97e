//! Reads the operands of a form, piece by piece (docs/rules/sources.md).
ghost use Rattle.std.specs.Prelude.{◌≡◌, ◌<◌, ◌≤◌, length, IfOk, IfErr, true, false, codes};
ghost use Rattle.asm_read.specs.Fits.{no_operands, with_first, with_second, with_third, with_word, with_mark, with_hash, with_number, with_limited_number, with_name, with_text, with_list, with_expression, with_expressions, piece_at, end_at, read_pieces};
ghost use Rattle.asm_read.specs.Operands.{bytes_of};

use crate::expression::{expression_at, expressions_end};
use crate::fault::SourceWhat;
use crate::line::{
    LineEnd, Span, bytes_of, end_at_token, has_register, limited_at, list_at, mark_at,
    mark_or_nothing, name_at, number_at, register_at, text_at, word_at,
};
use crate::token::{TokenKind, token_at};

/// One piece of a form's operands: what has to come next in the line.
#[derive(Clone, Copy)]
pub enum Piece {
    /// The form's first register.
    First,
    /// The form's second register.
    Second,
    /// The form's third register.
    Third,
    /// The word `sp`.
    Sp,
    /// This byte, as a token of its own.
    Mark(u8),
    /// A `#`, or nothing.
    MaybeHash,
    /// A number.
    Number,
    /// The number 0.
    Zero,
    /// A number from 0 to 3.
    UpToThree,
    /// A name.
    Name,
    /// The name that was read before, once more.
    SameName,
    /// The name `.`.
    Dot,
    /// The word `.rodata`.
    Rodata,
    /// The word `function`.
    Function,
    /// The word `object`.
    Object,
    /// A register list in braces.
    Registers,
    /// A register list in braces that contains the form's first register.
    RegistersWithFirst,
    /// A text in double quotes.
    Text,
    /// An expression.
    Expression,
    /// Comma-separated expressions; a number may have a `#` before it.
    Expressions,
    /// Comma-separated expressions, `name(prel31)` and the other operators of words included.
    WordExpressions,
}

/// The operands that were read so far.
#[derive(Clone, Copy)]
pub struct Operands {
    /// The offset in the line, in bytes, after the last operand.
    pub at: usize,
    /// The number of the first register, 0 to 15.
    pub first: u8,
    /// The number of the second register, 0 to 15.
    pub second: u8,
    /// The number of the third register, 0 to 15.
    pub third: u8,
    /// The register list: bit k is set if register k is in it.
    pub list: u16,
    /// The number that was read last.
    pub number: i64,
    /// The span of the name, or of the text with its quotes.
    pub name: Span,
    /// The offset in the line, in bytes, of the first expression.
    pub from: usize,
}

/// No operands yet, with the offset where they begin.
pub fn no_operands(at: usize) -> Operands
    ensures { result ≡ no_operands at }
{
    Operands {
        at,
        first: 0,
        second: 0,
        third: 0,
        list: 0,
        number: 0,
        name: Span { start: 0, end: 0 },
        from: 0,
    }
}

fn with_first(line: &[u8], operands: Operands) -> Result<Operands, LineEnd>
    requires { operands.at ≤ length line.now }
    ensures operands { result ≡ with_first line.now operands }
    ensures at { IfOk result (λ o. o.at ≤ length line.now) }
    ensures stop { IfErr result (λ s. s.at ≤ length line.now) }
{
    let register = register_at(line, operands.at)?;
    Ok(Operands {
        at: register.end,
        first: register.number,
        ..operands
    })
}

fn with_second(line: &[u8], operands: Operands) -> Result<Operands, LineEnd>
    requires { operands.at ≤ length line.now }
    ensures operands { result ≡ with_second line.now operands }
    ensures at { IfOk result (λ o. o.at ≤ length line.now) }
    ensures stop { IfErr result (λ s. s.at ≤ length line.now) }
{
    let register = register_at(line, operands.at)?;
    Ok(Operands {
        at: register.end,
        second: register.number,
        ..operands
    })
}

fn with_third(line: &[u8], operands: Operands) -> Result<Operands, LineEnd>
    requires { operands.at ≤ length line.now }
    ensures operands { result ≡ with_third line.now operands }
    ensures at { IfOk result (λ o. o.at ≤ length line.now) }
    ensures stop { IfErr result (λ s. s.at ≤ length line.now) }
{
    let register = register_at(line, operands.at)?;
    Ok(Operands {
        at: register.end,
        third: register.number,
        ..operands
    })
}

fn with_word(word: &[u8], line: &[u8], operands: Operands) -> Result<Operands, LineEnd>
    requires { operands.at ≤ length line.now }
    ensures operands { result ≡ with_word word.now line.now operands }
    ensures at { IfOk result (λ o. o.at ≤ length line.now) }
    ensures stop { IfErr result (λ s. s.at ≤ length line.now) }
{
    let at = word_at(word, line, operands.at)?;
    Ok(Operands { at, ..operands })
}

fn with_mark(mark: u8, line: &[u8], operands: Operands) -> Result<Operands, LineEnd>
    requires { operands.at ≤ length line.now }
    ensures operands { result ≡ with_mark mark line.now operands }
    ensures at { IfOk result (λ o. o.at ≤ length line.now) }
    ensures stop { IfErr result (λ s. s.at ≤ length line.now) }
{
    let at = mark_at(mark, line, operands.at)?;
    Ok(Operands { at, ..operands })
}

fn with_hash(line: &[u8], operands: Operands) -> Operands
    requires { operands.at ≤ length line.now }
    ensures operands { result ≡ with_hash line.now operands }
    ensures at { result.at ≤ length line.now }
{
    let at = mark_or_nothing(b'#', line, operands.at);
    Operands { at, ..operands }
}

fn with_number(line: &[u8], operands: Operands) -> Result<Operands, LineEnd>
    requires { operands.at ≤ length line.now }
    ensures operands { result ≡ with_number line.now operands }
    ensures at { IfOk result (λ o. o.at ≤ length line.now) }
    ensures stop { IfErr result (λ s. s.at ≤ length line.now) }
{
    let number = number_at(line, operands.at)?;
    Ok(Operands {
        at: number.end,
        number: number.value,
        ..operands
    })
}

fn with_limited_number(high: i64, line: &[u8], operands: Operands) -> Result<Operands, LineEnd>
    requires { operands.at ≤ length line.now }
    ensures operands { result ≡ with_limited_number high line.now operands }
    ensures at { IfOk result (λ o. o.at ≤ length line.now) }
    ensures stop { IfErr result (λ s. s.at ≤ length line.now) }
{
    let number = limited_at(high, line, operands.at)?;
    Ok(Operands {
        at: number.end,
        number: number.value,
        ..operands
    })
}

fn with_name(line: &[u8], operands: Operands) -> Result<Operands, LineEnd>
    requires { operands.at ≤ length line.now }
    ensures operands { result ≡ with_name line.now operands }
    ensures at { IfOk result (λ o. o.at ≤ length line.now) }
    ensures stop { IfErr result (λ s. s.at ≤ length line.now) }
{
    let name = name_at(line, operands.at)?;
    Ok(Operands {
        at: name.end,
        name,
        ..operands
    })
}

fn with_text(line: &[u8], operands: Operands) -> Result<Operands, LineEnd>
    requires { operands.at ≤ length line.now }
    ensures operands { result ≡ with_text line.now operands }
    ensures at { IfOk result (λ o. o.at ≤ length line.now) }
    ensures stop { IfErr result (λ s. s.at ≤ length line.now) }
{
    let name = text_at(line, operands.at)?;
    Ok(Operands {
        at: name.end,
        name,
        ..operands
    })
}

/// Reads a register list. If `first`, it must contain the form's first register.
fn with_list(first: bool, line: &[u8], operands: Operands) -> Result<Operands, LineEnd>
    requires { operands.at ≤ length line.now }
    ensures operands { result ≡ with_list first line.now operands }
    ensures at { IfOk result (λ o. o.at ≤ length line.now) }
    ensures stop { IfErr result (λ s. s.at ≤ length line.now) }
{
    let listed = list_at(line, operands.at)?;
    if first && !has_register(listed.list, operands.first) {
        return Err(LineEnd {
            at: listed.close,
            what: SourceWhat::BadOperand,
        });
    }
    Ok(Operands {
        at: listed.end,
        list: listed.list,
        ..operands
    })
}

fn with_expression(line: &[u8], operands: Operands) -> Result<Operands, LineEnd>
    requires { operands.at ≤ length line.now }
    ensures operands { result ≡ with_expression line.now operands }
    ensures at { IfOk result (λ o. o.at ≤ length line.now) }
    ensures stop { IfErr result (λ s. s.at ≤ length line.now) }
{
    let shaped = expression_at(false, line, operands.at)?;
    Ok(Operands {
        at: shaped.end,
        from: operands.at,
        ..operands
    })
}

fn with_expressions(word: bool, line: &[u8], operands: Operands) -> Result<Operands, LineEnd>
    requires { operands.at ≤ length line.now }
    ensures operands { result ≡ with_expressions word line.now operands }
    ensures at { IfOk result (λ o. o.at ≤ length line.now) }
    ensures stop { IfErr result (λ s. s.at ≤ length line.now) }
{
    let at = expressions_end(word, line, operands.at)?;
    Ok(Operands {
        at,
        from: operands.at,
        ..operands
    })
}

/// Reads one more piece.
#[tactic(auto, unfolding(crate::specs::Fits::piece_at))]
fn piece_at(piece: Piece, line: &[u8], operands: Operands) -> Result<Operands, LineEnd>
    requires { operands.at ≤ length line.now }
    ensures operands { result ≡ piece_at piece line.now operands }
    ensures at { IfOk result (λ o. o.at ≤ length line.now) }
    ensures stop { IfErr result (λ s. s.at ≤ length line.now) }
{
    match piece {
        Piece::First => with_first(line, operands),
        Piece::Second => with_second(line, operands),
        Piece::Third => with_third(line, operands),
        Piece::Sp => with_word(b"sp", line, operands),
        Piece::Mark(mark) => with_mark(mark, line, operands),
        Piece::MaybeHash => Ok(with_hash(line, operands)),
        Piece::Number => with_number(line, operands),
        Piece::Zero => with_limited_number(0, line, operands),
        Piece::UpToThree => with_limited_number(3, line, operands),
        Piece::Name => with_name(line, operands),
        Piece::SameName => with_word(bytes_of(line, operands.name), line, operands),
        Piece::Dot => with_word(b".", line, operands),
        Piece::Rodata => with_word(b".rodata", line, operands),
        Piece::Function => with_word(b"function", line, operands),
        Piece::Object => with_word(b"object", line, operands),
        Piece::Registers => with_list(false, line, operands),
        Piece::RegistersWithFirst => with_list(true, line, operands),
        Piece::Text => with_text(line, operands),
        Piece::Expression => with_expression(line, operands),
        Piece::Expressions => with_expressions(false, line, operands),
        Piece::WordExpressions => with_expressions(true, line, operands),
    }
}

/// Checks that nothing but blanks and a comment follow the operands.
#[tactic(auto, using(crate::proofs::Marks::end_token), unfolding(crate::specs::Fits::end_at))]
fn end_at(line: &[u8], operands: Operands) -> Result<Operands, LineEnd>
    requires { operands.at ≤ length line.now }
    ensures operands { result ≡ end_at line.now operands }
    ensures at { IfOk result (λ o. o.at ≤ length line.now) }
    ensures stop { IfErr result (λ s. s.at ≤ length line.now) }
{
    if operands.at == line.len() {
        return Ok(operands);
    }
    let token = token_at(line, operands.at);
    match token.kind {
        TokenKind::End => Ok(operands),
        _ => Err(end_at_token(token)),
    }
}

/// Reads these pieces up to the end of the line. Err at the first token that doesn't fit.
#[tactic(auto, using(crate::proofs::Fitting::fits_ok, crate::proofs::Fitting::fits_err, crate::proofs::Fitting::fits_end))]
pub fn read_pieces(pieces: &[Piece], line: &[u8], operands: Operands) -> Result<Operands, LineEnd>
    requires { operands.at ≤ length line.now }
    ensures operands { result ≡ read_pieces pieces.now line.now operands }
    ensures stop { IfErr result (λ s. s.at ≤ length line.now) }
{
    let mut so_far = operands;
    for piece in pieces {
        so_far = piece_at(*piece, line, so_far)?;
    }
    end_at(line, so_far)
}
