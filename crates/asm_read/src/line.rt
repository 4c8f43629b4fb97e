//! Reads single operands: marks, words, names, registers, numbers and register lists (docs/rules/sources.md).
ghost use Rattle.std.specs.Prelude.{◌≡◌, ◌+◌, ◌-◌, ◌*◌, ◌^◌, ◌<◌, ◌≤◌, ◌-ℤ◌, length, IfOk, IfErr, IfSome};
ghost use Rattle.asm_read.specs.Operands.{is_mark_of, bytes_of, register_of, end_at_token, name_of, register_at, mark_at, mark_or_nothing, word_at, name_at, text_at, number_at, limited_number_at, register_mask, has_register, item_at, list_from, list_at};

use crate::fault::SourceWhat;
use crate::token::{Token, TokenKind, is_mark_of, mark_after, token_at};

/// The register number of sp.
pub const SP: u8 = 13;

/// The register number of lr.
pub const LR: u8 = 14;

/// The register number of pc.
pub const PC: u8 = 15;

/// A range of bytes of a line.
#[derive(Clone, Copy)]
pub struct Span {
    /// The offset in the line, in bytes, of the first byte.
    pub start: usize,
    /// The offset in the line, in bytes, after the last byte.
    pub end: usize,
}

/// Where and why reading a line stops.
#[derive(Clone, Copy)]
pub struct LineEnd {
    /// The offset in the line, in bytes.
    pub at: usize,
    /// Why reading stops there.
    pub what: SourceWhat,
}

/// A register, and where its token is.
#[derive(Clone, Copy)]
pub struct Register {
    /// The register's number, 0 to 15.
    pub number: u8,
    /// The offset in the line, in bytes, of the token.
    pub start: usize,
    /// The offset in the line, in bytes, after the token.
    pub end: usize,
}

/// A number that was read.
#[derive(Clone, Copy)]
pub struct Numeral {
    /// The number.
    pub value: i64,
    /// The offset in the line, in bytes, after it.
    pub end: usize,
}

/// The bytes of a span.
pub fn bytes_of(line: &[u8], span: Span) -> &[u8]
    ensures { result.now ≡ bytes_of line.now span }
{
    if span.start < span.end && span.end <= line.len() {
        &line[span.start..span.end]
    } else {
        &[]
    }
}

/// The refusal at a token that no form takes.
pub fn end_at_token(token: Token) -> LineEnd
    ensures { result ≡ end_at_token token }
{
    LineEnd {
        at: token.start,
        what: match token.kind {
            TokenKind::Bad => SourceWhat::BadToken,
            _ => SourceWhat::BadOperand,
        },
    }
}

/// The bytes of a name token; empty for any other token.
pub fn name_of(line: &[u8], token: Token) -> &[u8]
    ensures { result.now ≡ name_of line.now token }
{
    match token.kind {
        TokenKind::Word => bytes_of(
            line,
            Span {
                start: token.start,
                end: token.end,
            },
        ),
        _ => &[],
    }
}

/// The number of the register with this name, or None.
fn register_of(name: &[u8]) -> Option<u8>
    ensures number { result ≡ register_of name.now }
    ensures below { IfSome result (λ r. r < 16) }
{
    if name == b"sp".as_slice() {
        return Some(SP);
    }
    if name == b"lr".as_slice() {
        return Some(LR);
    }
    if name == b"pc".as_slice() {
        return Some(PC);
    }
    match name {
        [b'r', digit] if *digit >= b'0' && *digit <= b'9' => Some(*digit - b'0'),
        [b'r', b'1', digit] if *digit >= b'0' && *digit <= b'2' => Some(10 + (*digit - b'0')),
        _ => None,
    }
}

/// Reads a register at an offset.
#[tactic(auto, unfolding(crate::specs::Operands::register_at))]
pub fn register_at(line: &[u8], from: usize) -> Result<Register, LineEnd>
    requires { from ≤ length line.now }
    ensures register { result ≡ register_at line.now from }
    ensures below { IfOk result (λ r. r.number < 16) }
    ensures start { IfOk result (λ r. r.start ≤ length line.now) }
    ensures end { IfOk result (λ r. r.end ≤ length line.now) }
    ensures stop { IfErr result (λ s. s.at ≤ length line.now) }
{
    let token = token_at(line, from);
    match register_of(name_of(line, token)) {
        Some(number) => Ok(Register {
            number,
            start: token.start,
            end: token.end,
        }),
        None => Err(end_at_token(token)),
    }
}

/// Reads a mark at an offset; gives the offset after it.
#[tactic(auto, unfolding(crate::specs::Operands::mark_at))]
pub fn mark_at(mark: u8, line: &[u8], from: usize) -> Result<usize, LineEnd>
    requires { from ≤ length line.now }
    ensures place { result ≡ mark_at mark line.now from }
    ensures end { IfOk result (λ at. at ≤ length line.now) }
    ensures stop { IfErr result (λ s. s.at ≤ length line.now) }
{
    match mark_after(mark, line, from) {
        Some(end) => Ok(end),
        None => Err(end_at_token(token_at(line, from))),
    }
}

/// Reads an optional mark; gives the offset after it, or the same offset if another token is there.
#[tactic(auto, unfolding(crate::specs::Operands::mark_or_nothing))]
pub fn mark_or_nothing(mark: u8, line: &[u8], from: usize) -> usize
    requires { from ≤ length line.now }
    ensures place { result ≡ mark_or_nothing mark line.now from }
    ensures end { result ≤ length line.now }
{
    mark_after(mark, line, from).unwrap_or(from)
}

/// Reads this word at an offset; gives the offset after it.
#[tactic(auto, unfolding(crate::specs::Operands::word_at))]
pub fn word_at(word: &[u8], line: &[u8], from: usize) -> Result<usize, LineEnd>
    requires { from ≤ length line.now }
    ensures place { result ≡ word_at word.now line.now from }
    ensures end { IfOk result (λ at. at ≤ length line.now) }
    ensures stop { IfErr result (λ s. s.at ≤ length line.now) }
{
    let token = token_at(line, from);
    if name_of(line, token) == word {
        Ok(token.end)
    } else {
        Err(end_at_token(token))
    }
}

/// Reads a name at an offset; gives its span.
#[tactic(auto, unfolding(crate::specs::Operands::name_at))]
pub fn name_at(line: &[u8], from: usize) -> Result<Span, LineEnd>
    requires { from ≤ length line.now }
    ensures name { result ≡ name_at line.now from }
    ensures end { IfOk result (λ name. name.end ≤ length line.now) }
    ensures stop { IfErr result (λ s. s.at ≤ length line.now) }
{
    let token = token_at(line, from);
    match token.kind {
        TokenKind::Word => Ok(Span {
            start: token.start,
            end: token.end,
        }),
        _ => Err(end_at_token(token)),
    }
}

/// Reads a quoted text at an offset; gives its span with the quotes.
#[tactic(auto, unfolding(crate::specs::Operands::text_at))]
pub fn text_at(line: &[u8], from: usize) -> Result<Span, LineEnd>
    requires { from ≤ length line.now }
    ensures name { result ≡ text_at line.now from }
    ensures end { IfOk result (λ text. text.end ≤ length line.now) }
    ensures stop { IfErr result (λ s. s.at ≤ length line.now) }
{
    let token = token_at(line, from);
    match token.kind {
        TokenKind::Quoted => Ok(Span {
            start: token.start,
            end: token.end,
        }),
        _ => Err(end_at_token(token)),
    }
}

/// Reads a number at an offset.
#[tactic(auto, unfolding(crate::specs::Operands::number_at))]
pub fn number_at(line: &[u8], from: usize) -> Result<Numeral, LineEnd>
    requires { from ≤ length line.now }
    ensures number { result ≡ number_at line.now from }
    ensures end { IfOk result (λ n. n.end ≤ length line.now) }
    ensures stop { IfErr result (λ s. s.at ≤ length line.now) }
{
    let token = token_at(line, from);
    match token.kind {
        TokenKind::Number(value) => Ok(Numeral {
            value,
            end: token.end,
        }),
        TokenKind::Wide => Err(LineEnd {
            at: token.start,
            what: SourceWhat::NumberRange,
        }),
        _ => Err(end_at_token(token)),
    }
}

/// Reads a number from 0 to `high` at an offset.
#[tactic(auto, unfolding(crate::specs::Operands::limited_number_at))]
pub fn limited_at(high: i64, line: &[u8], from: usize) -> Result<Numeral, LineEnd>
    requires { from ≤ length line.now }
    ensures number { result ≡ limited_number_at high line.now from }
    ensures end { IfOk result (λ n. n.end ≤ length line.now) }
    ensures stop { IfErr result (λ s. s.at ≤ length line.now) }
{
    let token = token_at(line, from);
    match token.kind {
        TokenKind::Number(value) if 0 <= value && value <= high => Ok(Numeral {
            value,
            end: token.end,
        }),
        _ => Err(end_at_token(token)),
    }
}

/// One item of a register list: a register, or a range of registers.
#[derive(Clone, Copy)]
pub struct Item {
    /// The number of the first register.
    pub low: u8,
    /// The number of the last register, at least `low`.
    pub high: u8,
    /// The offset in the line, in bytes, after the item.
    pub end: usize,
}

/// A register list that was read.
#[derive(Clone, Copy)]
pub struct ListRegisters {
    /// The registers: bit k is set if register k is in the list.
    pub list: u16,
    /// The offset in the line, in bytes, of the closing brace.
    pub close: usize,
    /// The offset in the line, in bytes, after the closing brace.
    pub end: usize,
}

/// The bits of the registers from `low` to `high`.
fn register_mask(low: u8, high: u8) -> u16
    requires order { low ≤ high }
    requires below { high < 16 }
    ensures { result ≡ register_mask low high }
{
    (u16::MAX >> (15 - high)) >> low << low
}

/// Whether a register list contains a register.
pub fn has_register(list: u16, number: u8) -> bool
    ensures { result ≡ has_register list number }
{
    number < 16 && (list >> number) % 2 == 1
}

/// Reads a register, or a range `a-b` with a at most b.
#[tactic(auto, unfolding(crate::specs::Operands::item_at))]
fn item_at(line: &[u8], from: usize) -> Result<Item, LineEnd>
    requires { from ≤ length line.now }
    ensures item { result ≡ item_at line.now from }
    ensures order { IfOk result (λ i. i.low ≤ i.high) }
    ensures below { IfOk result (λ i. i.high < 16) }
    ensures end { IfOk result (λ i. i.end ≤ length line.now) }
    ensures stop { IfErr result (λ s. s.at ≤ length line.now) }
{
    let low = register_at(line, from)?;
    let Some(minus) = mark_after(b'-', line, low.end) else {
        return Ok(Item {
            low: low.number,
            high: low.number,
            end: low.end,
        });
    };
    let high = register_at(line, minus)?;
    if high.number < low.number {
        return Err(LineEnd {
            at: high.start,
            what: SourceWhat::BadOperand,
        });
    }
    Ok(Item {
        low: low.number,
        high: high.number,
        end: high.end,
    })
}

/// Reads the rest of a register list, from one of its items on.
#[tactic(auto, using(crate::proofs::Steps::list_step, crate::proofs::Steps::list_none))]
fn list_from(line: &[u8], from: usize) -> Result<ListRegisters, LineEnd>
    requires { from ≤ length line.now }
    ensures list { result ≡ list_from (length line.now) line.now 0 from }
    ensures close { IfOk result (λ l. l.close ≤ length line.now) }
    ensures end { IfOk result (λ l. l.end ≤ length line.now) }
    ensures stop { IfErr result (λ s. s.at ≤ length line.now) }
{
    let mut list: u16 = 0;
    let mut at = from;
    let mut left = line.len();
    while left > 0 {
        let item = item_at(line, at)?;
        list |= register_mask(item.low, item.high);
        let token = token_at(line, item.end);
        if is_mark_of(b'}', token.kind) {
            return Ok(ListRegisters {
                list,
                close: token.start,
                end: token.end,
            });
        }
        if !is_mark_of(b',', token.kind) {
            return Err(end_at_token(token));
        }
        at = token.end;
        left -= 1;
    }
    Err(end_at_token(token_at(line, at)))
}

/// Reads a register list in braces at an offset.
#[tactic(auto, unfolding(crate::specs::Operands::list_at))]
pub fn list_at(line: &[u8], from: usize) -> Result<ListRegisters, LineEnd>
    requires { from ≤ length line.now }
    ensures list { result ≡ list_at line.now from }
    ensures close { IfOk result (λ l. l.close ≤ length line.now) }
    ensures end { IfOk result (λ l. l.end ≤ length line.now) }
    ensures stop { IfErr result (λ s. s.at ≤ length line.now) }
{
    let open = mark_at(b'{', line, from)?;
    let token = token_at(line, open);
    if is_mark_of(b'}', token.kind) {
        return Ok(ListRegisters {
            list: 0,
            close: token.start,
            end: token.end,
        });
    }
    list_from(line, open)
}
