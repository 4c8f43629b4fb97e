//! The summary at the end of an audit (docs/guide/audit.md, "The program").
ghost use Rattle.std.specs.Prelude.{◌≡◌, ◌++◌, flat_map, decimal, IfOk, OnOk};
ghost use Rattle.audit_top.specs.Text.{some_count_line, cause_count_line, stray_text, agreement_line, summary_text};

use cmd_lines::push_count;
use frame_audit::{Audit, CAUSES, Question};
use frame_facts::FrameCause;
use gnu_index::RefusedEntry;
use itoa::Buffer;
use std::alloc::{AllocError, Global};

/// Appends the line of a count that isn't 0.
fn push_some_count(lines: &mut Vec<u8>, what: &[u8], count: usize) -> Result<(), AllocError>
    ensures { OnOk result (lines.new.items ≡ lines.old.items ++ some_count_line what.now count) }
{
    if count == 0 {
        Ok(())
    } else {
        push_count(lines, what, count as u128)
    }
}

/// Appends how many functions are refused for each of these causes.
fn push_causes(lines: &mut Vec<u8>, audit: &Audit, causes: &[FrameCause]) -> Result<(), AllocError>
    ensures { OnOk result (lines.new.items ≡ lines.old.items ++ flat_map (cause_count_line audit.now.functions) causes.now) }
{
    for cause in causes {
        push_some_count(lines, cause.name(), audit.count(Question::Cause(*cause)))?;
    }
    Ok(())
}

/// Appends a number in decimal digits.
fn push_number(lines: &mut Vec<u8>, number: u64) -> Result<(), AllocError>
    ensures { OnOk result (lines.new.items ≡ lines.old.items ++ decimal number) }
{
    lines.extend_from_slice(Buffer::new().format(number).as_bytes())
}

/// Appends how many bytes of code belong to no function, if there are any.
fn push_stray(lines: &mut Vec<u8>, bytes: u64) -> Result<(), AllocError>
    ensures { OnOk result (lines.new.items ≡ lines.old.items ++ stray_text bytes) }
{
    if bytes == 0 {
        return Ok(());
    }
    push_number(lines, bytes)?;
    lines.extend_from_slice(b" bytes of code are in no function\n")
}

/// Appends how many of the functions of a kind are accepted.
fn push_agreement(
    lines: &mut Vec<u8>,
    well: usize,
    all: usize,
    kind: &[u8],
) -> Result<(), AllocError>
    ensures { OnOk result (lines.new.items ≡ lines.old.items ++ agreement_line well all kind.now) }
{
    push_number(lines, well as u64)?;
    lines.extend_from_slice(b" of ")?;
    push_number(lines, all as u64)?;
    lines.extend_from_slice(b" functions")?;
    lines.extend_from_slice(kind)?;
    lines.extend_from_slice(b" agree\n")
}

/// The summary of an audit. `refused` entries of the image's index were refused.
#[tactic(auto, unfolding(crate::specs::Text::summary_text))]
pub(crate) fn summary_lines(
    alloc: Global,
    refused: &[RefusedEntry],
    audit: &Audit,
) -> Result<Vec<u8>, AllocError>
    ensures { IfOk result (λ lines. lines.items ≡ summary_text refused.now audit.now) }
{
    let with_table = audit.count(Question::Unwinds);
    let without = audit.count(Question::CantUnwind);
    let mut lines = Vec::new(alloc);
    lines.extend_from_slice(b"-- summary\n")?;
    push_causes(&mut lines, audit, &CAUSES)?;
    push_some_count(&mut lines, b"lsda", refused.len())?;
    push_stray(&mut lines, audit.stray())?;
    push_agreement(
        &mut lines,
        audit.count(Question::UnwindsWell),
        with_table,
        b" with a table",
    )?;
    push_agreement(
        &mut lines,
        audit.count(Question::CantUnwindWell),
        without,
        b" that can't be unwound",
    )?;
    let all = audit.functions().len();
    push_agreement(&mut lines, audit.count(Question::Well), all, b"")?;
    Ok(lines)
}
