//! Reads a source into statements, line by line (docs/rules/sources.md).
ghost use Rattle.std.specs.Prelude.{◌≡◌, ◌+◌, ◌<◌, ◌≤◌, ◌⊎◌, ◌++◌, ◌∷◌, [], length, drop, IfErr, OnOk, MatchResult, Ok, Err};
ghost use Rattle.std.specs.List.{prefix_len};
ghost use Rattle.asm_read.specs.Fault.{out_of_memory};
ghost use Rattle.asm_read.specs.Plans.{not_plain};
ghost use Rattle.asm_read.specs.Reading.{is_inside, append_stmts, stmts_of, line_of, excess_fault, source_stmts};

use crate::build::kind_of;
use crate::fault::{SourceFault, SourceWhat};
use crate::line::bytes_of;
use crate::plan::{LineContent, line_plan, not_plain};
use asm_statements::statement::{Stmt, StmtKind};
use eh_word::Name;
use std::alloc::{AllocError, Global};

/// The most lines of a source.
pub const MOST_LINES: u32 = 200_000;

/// Adds a statement. Err if memory runs out.
fn push(stmts: &mut Vec<Stmt>, stmt: Stmt) -> Result<(), AllocError>
    ensures { OnOk result (stmts.new.items ≡ stmts.old.items ++ stmt ∷ []) }
{
    stmts.push(stmt)?;
    Ok(())
}

/// Adds the statements of a line that was read: its label, then its statement.
fn push_plan(
    alloc: Global,
    line: &[u8],
    number: u32,
    plan: LineContent,
    stmts: &mut Vec<Stmt>,
) -> Result<(), SourceFault>
    ensures ok { OnOk result (stmts.new.items ≡ stmts.old.items ++ stmts_of number line.now plan) }
    ensures err { IfErr result (λ f. f ≡ out_of_memory) }
{
    if let Some(label) = plan.label {
        let name = Name::of(alloc, bytes_of(line, label))?;
        let kind = StmtKind::Label(name);
        push(stmts, Stmt { line: number, kind })?;
    }
    if let Some(statement) = plan.statement {
        let kind = kind_of(alloc, line, statement)?;
        push(stmts, Stmt { line: number, kind })?;
    }
    Ok(())
}

/// Reads a line and adds its statements. Err if the line is refused or memory runs out.
fn read_line(
    alloc: Global,
    line: &[u8],
    number: u32,
    stmts: &mut Vec<Stmt>,
) -> Result<(), SourceFault>
    ensures ok { OnOk result (append_stmts stmts.old.items (line_of number line.now) ≡ Ok stmts.new.items) }
    ensures err { IfErr result (λ f. (f ≡ out_of_memory) ⊎ (line_of number line.now ≡ Err f)) }
{
    match line_plan(line) {
        Ok(plan) => push_plan(alloc, line, number, plan, stmts),
        Err(stop) => Err(SourceFault {
            line: number,
            column: stop.at as u32 + 1,
            what: stop.what,
        }),
    }
}

/// The length in bytes of the first line, without its line feed.
fn line_len(text: &[u8]) -> usize
    ensures len { result ≡ prefix_len is_inside text.now }
    ensures within { result ≤ length text.now }
{
    for (i, b) in text.iter().enumerate() {
        if *b == b'\n' {
            return i;
        }
    }
    text.len()
}

/// The text after its first line; `len` is that line's length.
fn after(text: &[u8], len: usize) -> &[u8]
    requires { len ≤ length text.now }
    ensures { result.now ≡ drop (len + 1) text.now }
{
    if len < text.len() {
        &text[len + 1..]
    } else {
        &[]
    }
}

/// Why a line beyond the last allowed one is refused, at its first byte.
fn excess_fault(line: &[u8]) -> SourceWhat
    ensures { result ≡ excess_fault line.now }
{
    match line {
        [b, ..] if not_plain(*b) => SourceWhat::NotAscii,
        _ => SourceWhat::TooManyLines,
    }
}

/// Reads a source into statements, in the order of the text. A label comes before the statement of its line. Err with
/// the earliest refusal; at one place, the first in the order of `SourceWhat`. Err also if memory runs out.
#[tactic(auto, using(crate::proofs::Lines::read_start, crate::proofs::Lines::read_next, crate::proofs::Lines::read_refused, crate::proofs::Lines::read_many, crate::proofs::Lines::read_end))]
pub fn read_source(alloc: Global, text: &[u8]) -> Result<Vec<Stmt>, SourceFault>
    ensures { MatchResult result
        (λ stmts. source_stmts text.now ≡ Ok stmts.items)
        (λ fault. (fault ≡ out_of_memory) ⊎ (source_stmts text.now ≡ Err fault)) }
{
    let mut stmts = Vec::new(alloc);
    let mut rest = text;
    let mut number: u32 = 1;
    while !rest.is_empty() {
        let len = line_len(rest);
        let line = &rest[..len];
        if number > MOST_LINES {
            return Err(SourceFault {
                line: number,
                column: 1,
                what: excess_fault(line),
            });
        }
        read_line(alloc, line, number, &mut stmts)?;
        rest = after(rest, len);
        number += 1;
    }
    Ok(stmts)
}
