//! Finds the form that fits the tokens of a line (docs/rules/sources.md).
ghost use Rattle.std.specs.Prelude.{◌≡◌, ◌≤◌, ◌⊎◌, [], true, length, map, Option, None, IfErr, IfSome, MatchOption};
ghost use Rattle.std.specs.List.{prefix_len};
ghost use Rattle.asm_read.specs.Fits.{no_operands, read_pieces};
ghost use Rattle.asm_read.specs.Forms.{CodeRow, row_of, rows};
ghost use Rattle.asm_read.specs.Operands.{same};
ghost use Rattle.asm_read.specs.Patterns.{pieces_of};
ghost use Rattle.asm_read.specs.Search.{farther_end, is_operand, is_before, rises, form_attempt, first_fit};

use crate::fault::SourceWhat;
use crate::form::{Operands, no_operands, read_pieces};
use crate::line::LineEnd;
use crate::makes::Makes;
use crate::pattern::pieces_of;
use crate::table::{Group, Row, forms_in};

/// A statement as it was read: which kind its form makes, and its operands.
#[derive(Clone, Copy)]
pub struct Statement {
    /// Which kind of statement the form makes.
    pub makes: Makes,
    /// The operands that were read.
    pub operands: Operands,
}

/// The stop of the form that got farthest in the line. At equal offsets, a `BadOperand` gives way to the other stop.
fn farther_end(best: Option<LineEnd>, stop: LineEnd) -> LineEnd
    ensures farther_end { result ≡ farther_end best stop }
    ensures one { MatchOption best (result ≡ stop) (λ b. (result ≡ b) ⊎ (result ≡ stop)) }
{
    match best {
        None => stop,
        Some(b) => {
            if b.at < stop.at || b.at == stop.at && is_operand(b.what) {
                stop
            } else {
                b
            }
        }
    }
}

/// Whether a stop is a `BadOperand`.
fn is_operand(what: SourceWhat) -> bool
    ensures { result ≡ is_operand what }
{
    match what {
        SourceWhat::BadOperand => true,
        _ => false,
    }
}

/// Tries one form: the statement if it fits, else the farthest stop so far.
fn try_form(
    row: &Row,
    line: &[u8],
    from: usize,
    best: Option<LineEnd>,
) -> Result<Statement, Option<LineEnd>>
    requires from { from ≤ length line.now }
    requires best { IfSome best (λ s. s.at ≤ length line.now) }
    ensures fit { let form = (row_of row.now).form in result ≡ form_attempt form.makes best (read_pieces (pieces_of form.operands) line.now (no_operands from)) }
    ensures stop { IfErr result (λ b. IfSome b (λ s. s.at ≤ length line.now)) }
{
    let (_, form) = *row;
    match read_pieces(pieces_of(form.operands), line, no_operands(from)) {
        Ok(operands) => Ok(Statement {
            makes: form.makes,
            operands,
        }),
        Err(stop) => Err(Some(farther_end(best, stop))),
    }
}

/// Whether a word sorts before another, byte by byte.
#[tactic(auto, using(crate::proofs::Rising::before_more, crate::proofs::Rising::before_here, crate::proofs::Rising::before_end))]
fn is_before(word: &[u8], other: &[u8]) -> bool
    ensures { result ≡ is_before word.now other.now }
{
    let shared = word.len().min(other.len());
    for i in 0..shared {
        if word[i] != other[i] {
            return word[i] < other[i];
        }
    }
    word.len() < other.len()
}

/// Whether two words have the same bytes.
#[tactic(auto, using(crate::proofs::Rising::same_more, crate::proofs::Rising::same_here, crate::proofs::Rising::same_end, crate::proofs::Rising::same_lengths))]
fn is_same(word: &[u8], other: &[u8]) -> bool
    ensures { result ≡ same word.now other.now }
{
    if word.len() != other.len() {
        return false;
    }
    for i in 0..word.len() {
        if word[i] != other[i] {
            return false;
        }
    }
    true
}

/// The number of rows whose word sorts before a word.
fn begin_of(rows: &[Row], word: &[u8]) -> usize
    requires { rises [] (map row_of rows.now) ≡ true }
    ensures count { result ≡ prefix_len (λ (r : CodeRow). is_before (row_of r).word word.now) rows.now }
    ensures within { result ≤ length rows.now }
{
    rows.partition_point(|row| is_before(row.0, word))
}

/// The first row of this word whose form fits. Err(Some) with the farthest stop if none of its forms fits, Err(None) if
/// no row has this word. The rows are sorted and start at the word or after it.
#[tactic(auto, using(crate::proofs::Rising::row_other, crate::proofs::Rising::row_hit, crate::proofs::Rising::row_miss, crate::proofs::Rising::row_rises, crate::proofs::Fitting::rows_end))]
fn first_fit(
    rows: &[Row],
    word: &[u8],
    line: &[u8],
    from: usize,
) -> Result<Statement, Option<LineEnd>>
    requires from { from ≤ length line.now }
    requires rise { rises word.now (map row_of rows.now) ≡ true }
    ensures fit { result ≡ first_fit (map row_of rows.now) word.now line.now from None }
    ensures stop { IfErr result (λ b. IfSome b (λ s. s.at ≤ length line.now)) }
{
    let mut so_far = None;
    for row in rows {
        if !is_same(row.0, word) {
            return Err(so_far);
        }
        match try_form(row, line, from, so_far) {
            Ok(statement) => return Ok(statement),
            Err(stop) => so_far = stop,
        }
    }
    Err(so_far)
}

/// The statement of the first form of a word that fits. Err(Some) with the stop of the form that got farthest if none
/// fits; Err(None) if the word has no form.
pub fn form_at(word: &[u8], line: &[u8], from: usize) -> Result<Statement, Option<LineEnd>>
    requires { from ≤ length line.now }
    ensures fit { result ≡ first_fit rows word.now line.now from None }
    ensures stop { IfErr result (λ b. IfSome b (λ s. s.at ≤ length line.now)) }
{
    let rows = forms_in(Group::of(word));
    first_fit(&rows[begin_of(rows, word)..], word, line, from)
}
