//! Reads one line: its label and its statement, or the first place at which it is refused
//! (docs/rules/sources.md, "Tokens").
ghost use Rattle.std.specs.Prelude.{◌≡◌, ◌<◌, ◌≤◌, length, Option, None, IfOk, IfErr, IfSome, if◌then◌else◌};
ghost use Rattle.asm_read.specs.Marks.{mark_after};
ghost use Rattle.asm_read.specs.Plans.{is_passed, unknown, word_statement, statement_from_token, statement_at, is_word, plan_of, not_plain, not_plain_at, too_long, earlier_end, line_plan};

use crate::choice::{Statement, form_at};
use crate::fault::SourceWhat;
use crate::line::{LineEnd, Span, end_at_token, name_of};
use crate::token::{Token, TokenKind, mark_after, token_at};

/// The longest line, in bytes.
pub const LONGEST: usize = 256;

/// The content of a line. Both parts may be missing.
#[derive(Clone, Copy)]
pub struct LineContent {
    /// The span of the label's name, without the colon.
    pub label: Option<Span>,
    /// The statement.
    pub statement: Option<Statement>,
}

/// Whether a directive is ignored, together with the rest of its line.
fn is_passed(word: &[u8]) -> bool
    ensures { result ≡ is_passed word.now }
{
    word == b".syntax".as_slice()
        || word == b".thumb".as_slice()
        || word == b".thumb_func".as_slice()
        || word == b".code".as_slice()
        || word == b".cpu".as_slice()
        || word == b".arch".as_slice()
        || word == b".fpu".as_slice()
        || word == b".eabi_attribute".as_slice()
        || word == b".file".as_slice()
        || word == b".ident".as_slice()
}

/// Why a word without forms is refused: as a directive if it begins with a dot, else as a mnemonic.
fn unknown(word: &[u8]) -> SourceWhat
    ensures { result ≡ unknown word.now }
{
    match word {
        [b'.', ..] => SourceWhat::UnknownDirective,
        _ => SourceWhat::UnknownMnemonic,
    }
}

/// The statement that a word begins. Forms are searched first; no ignored directive has one.
#[tactic(auto, using(crate::proofs::Passing::with_form, crate::proofs::Passing::with_stop, crate::proofs::Passing::without_form))]
fn word_statement(line: &[u8], token: Token) -> Result<Option<Statement>, LineEnd>
    requires start { token.start ≤ length line.now }
    requires end { token.end ≤ length line.now }
    ensures statement { result ≡ word_statement line.now token }
    ensures stop { IfErr result (λ s. s.at ≤ length line.now) }
{
    let word = name_of(line, token);
    match form_at(word, line, token.end) {
        Ok(statement) => Ok(Some(statement)),
        Err(Some(stop)) => Err(stop),
        Err(None) if is_passed(word) => Ok(None),
        Err(None) => Err(LineEnd {
            at: token.start,
            what: unknown(word),
        }),
    }
}

/// The statement that a token begins; None at the line's end.
fn statement_from_token(line: &[u8], token: Token) -> Result<Option<Statement>, LineEnd>
    requires start { token.start ≤ length line.now }
    requires end { token.end ≤ length line.now }
    ensures statement { result ≡ statement_from_token line.now token token.kind }
    ensures stop { IfErr result (λ s. s.at ≤ length line.now) }
{
    match token.kind {
        TokenKind::Word => word_statement(line, token),
        TokenKind::End => Ok(None),
        _ => Err(end_at_token(token)),
    }
}

/// The statement at an offset; None at the line's end.
#[tactic(auto, unfolding(crate::specs::Plans::statement_at))]
fn statement_at(line: &[u8], from: usize) -> Result<Option<Statement>, LineEnd>
    requires { from ≤ length line.now }
    ensures statement { result ≡ statement_at line.now from }
    ensures stop { IfErr result (λ s. s.at ≤ length line.now) }
{
    statement_from_token(line, token_at(line, from))
}

/// The offset after a label's colon; None if the line doesn't begin with a label.
fn label_end(line: &[u8], token: Token) -> Option<usize>
    requires { token.end ≤ length line.now }
    ensures place { result ≡ (if is_word token.kind then mark_after 58 line.now token.end else None) }
    ensures end { IfSome result (λ at. at ≤ length line.now) }
{
    match token.kind {
        TokenKind::Word => mark_after(b':', line, token.end),
        _ => None,
    }
}

/// Reads the label and the statement of a line.
#[tactic(auto, unfolding(crate::specs::Plans::plan_of, crate::specs::Plans::statement_at))]
fn plan_of(line: &[u8]) -> Result<LineContent, LineEnd>
    ensures plan { result ≡ plan_of line.now }
    ensures stop { IfErr result (λ s. s.at ≤ length line.now) }
{
    let token = token_at(line, 0);
    if let Some(after) = label_end(line, token) {
        let statement = statement_at(line, after)?;
        let label = Some(Span {
            start: token.start,
            end: token.end,
        });
        return Ok(LineContent { label, statement });
    }
    // no label: the token that was read begins the statement
    let statement = statement_from_token(line, token)?;
    Ok(LineContent {
        label: None,
        statement,
    })
}

/// Whether a byte is not allowed in a source. Most bytes pass the first test.
pub fn not_plain(b: u8) -> bool
    ensures { result ≡ not_plain b }
{
    (b < b' ' || b > b'~') && b != b'\t' && b != b'\r'
}

/// The refusal at the first byte that is not allowed in a source; None if there is none.
fn not_plain_at(line: &[u8]) -> Option<LineEnd>
    ensures first { result ≡ not_plain_at 0 line.now }
    ensures within { IfSome result (λ s. s.at < length line.now) }
{
    for (at, b) in line.iter().enumerate() {
        if not_plain(*b) {
            return Some(LineEnd {
                at,
                what: SourceWhat::NotAscii,
            });
        }
    }
    None
}

/// The refusal of a line that is too long; None if it isn't.
fn too_long(line: &[u8]) -> Option<LineEnd>
    ensures { result ≡ too_long line.now }
{
    if line.len() > LONGEST {
        Some(LineEnd {
            at: LONGEST,
            what: SourceWhat::LineTooLong,
        })
    } else {
        None
    }
}

/// The earlier of two stops; the first of them if both are at one offset.
fn earlier_end(first: Option<LineEnd>, second: Option<LineEnd>) -> Option<LineEnd>
    ensures { result ≡ earlier_end first second }
{
    match (first, second) {
        (Some(a), Some(b)) if b.at < a.at => Some(b),
        (None, second) => second,
        (first, _) => first,
    }
}

/// Reads a line. Err with the earliest refusal; at one offset, forbidden bytes come first, then the line's length.
#[tactic(auto, unfolding(crate::specs::Plans::line_plan))]
pub fn line_plan(line: &[u8]) -> Result<LineContent, LineEnd>
    ensures plan { result ≡ line_plan line.now }
    ensures stop { IfErr result (λ s. s.at ≤ LONGEST) }
{
    let plan = plan_of(line);
    let stop = earlier_end(not_plain_at(line), too_long(line));
    match earlier_end(stop, plan.err()) {
        Some(stop) => Err(stop),
        None => plan,
    }
}
