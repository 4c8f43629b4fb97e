//! The list of what is refused of an image, line by line (docs/guide/audit.md, "The program").
ghost use Rattle.std.specs.Prelude.{◌≡◌, ◌++◌, flat_map, IfOk, OnOk};
ghost use Rattle.gnu_index.specs.declared.refusal.GnuFault.TheVariants.{Entry};
ghost use Rattle.audit_top.specs.Text.{entry_line, address_end, unwell_line, function_line, types_text, found_text, listed_text, audit_text};
ghost use Rattle.audit_top.specs.Writing.{Writes};

use crate::summary::summary_lines;
use cmd_answers::Stop;
use cmd_lines::{push_cause_text, tables_line, type_line};
use eh_port::{Sink, put_all};
use eh_types::TypeFault;
use eh_word::address_text;
use frame_audit::{Audit, FrameFinding, FunctionAudit};
use gnu_index::{GnuFault, RefusedEntry};
use std::alloc::{AllocError, Global};

/// Writes a text; the stop if the write fails.
fn write_text<O: Sink>(out: &mut O, text: &[u8]) -> Result<(), Stop>
    ensures { Writes text.now result (O.written out.old) (O.written out.new) (O.faults out.old) (O.faults out.new) }
{
    match put_all(out, text) {
        Ok(()) => Ok(()),
        Err(_) => Err(Stop::Write),
    }
}

/// Writes the line of a refused entry.
fn write_entry<O: Sink>(out: &mut O, e: &RefusedEntry) -> Result<(), Stop>
    ensures { Writes (entry_line e.now) result (O.written out.old) (O.written out.new) (O.faults out.old) (O.faults out.new) }
{
    write_text(out, tables_line(GnuFault::Entry(*e)).as_slice())
}

/// Writes the lines of refused entries.
fn write_refused<O: Sink>(out: &mut O, refused: &[RefusedEntry]) -> Result<(), Stop>
    ensures { Writes (flat_map entry_line refused.now) result (O.written out.old) (O.written out.new) (O.faults out.old) (O.faults out.new) }
{
    for e in refused {
        match write_entry(out, e) {
            Ok(()) => {}
            Err(stop) => return Err(stop),
        }
    }
    Ok(())
}

/// Appends an address and a line feed.
fn push_address(line: &mut Vec<u8>, at: u32) -> Result<(), AllocError>
    ensures { OnOk result (line.new.items ≡ line.old.items ++ address_end at) }
{
    let address = address_text(at);
    line.extend_from_slice(b" at ")?;
    line.extend_from_slice(&address)?;
    line.extend_from_slice(b"\n")
}

/// Appends the line of a refused function.
fn push_unwell(
    line: &mut Vec<u8>,
    a: &FunctionAudit,
    unwell: FrameFinding,
) -> Result<(), AllocError>
    ensures { OnOk result (line.new.items ≡ line.old.items ++ unwell_line a.now unwell) }
{
    let offset = unwell.at.saturating_sub(a.start);
    push_cause_text(line, a.name, offset, unwell.cause)?;
    push_address(line, unwell.at)
}

/// The line of a refused function; no bytes for an accepted one.
fn function_line(alloc: Global, a: &FunctionAudit) -> Result<Vec<u8>, AllocError>
    ensures { IfOk result (λ line. line.items ≡ function_line a.now) }
{
    let mut line = Vec::new(alloc);
    match a.unwell {
        None => {}
        Some(unwell) => push_unwell(&mut line, a, unwell)?,
    }
    Ok(line)
}

/// Writes the line of a function if it is refused.
fn write_function<O: Sink>(alloc: Global, out: &mut O, a: &FunctionAudit) -> Result<(), Stop>
    ensures { Writes (function_line a.now) result (O.written out.old) (O.written out.new) (O.faults out.old) (O.faults out.new) }
{
    match function_line(alloc, a) {
        Ok(line) => write_text(out, line.as_slice()),
        Err(_) => Err(Stop::Memory),
    }
}

/// Writes the lines of refused functions. Each is written as soon as it is made, since a line may be as long as a file.
fn write_functions<O: Sink>(
    alloc: Global,
    out: &mut O,
    functions: &[FunctionAudit],
) -> Result<(), Stop>
    ensures { Writes (flat_map function_line functions.now) result (O.written out.old) (O.written out.new) (O.faults out.old) (O.faults out.new) }
{
    for a in functions {
        match write_function(alloc, out, a) {
            Ok(()) => {}
            Err(stop) => return Err(stop),
        }
    }
    Ok(())
}

/// Writes the line of types that form no graph, if they don't.
fn write_types<O: Sink>(out: &mut O, types: Option<TypeFault>) -> Result<(), Stop>
    ensures { Writes (types_text types) result (O.written out.old) (O.written out.new) (O.faults out.old) (O.faults out.new) }
{
    match types {
        None => write_text(out, b""),
        Some(fault) => write_text(out, type_line(fault).as_slice()),
    }
}

/// Writes all that is found against the functions and the types.
fn write_found<O: Sink>(alloc: Global, out: &mut O, audit: &Audit) -> Result<(), Stop>
    ensures { Writes (found_text audit.now) result (O.written out.old) (O.written out.new) (O.faults out.old) (O.faults out.new) }
{
    match write_functions(alloc, out, audit.functions()) {
        Ok(()) => write_types(out, audit.types()),
        Err(stop) => Err(stop),
    }
}

/// Writes all that is found against the image: refused entries come first.
fn write_list<O: Sink>(
    alloc: Global,
    out: &mut O,
    refused: &[RefusedEntry],
    audit: &Audit,
) -> Result<(), Stop>
    ensures { Writes (listed_text refused.now audit.now) result (O.written out.old) (O.written out.new) (O.faults out.old) (O.faults out.new) }
{
    match write_refused(out, refused) {
        Ok(()) => write_found(alloc, out, audit),
        Err(stop) => Err(stop),
    }
}

/// Writes an audit: all that is found against the image, and the summary.
pub(crate) fn write_audit<O: Sink>(
    alloc: Global,
    out: &mut O,
    refused: &[RefusedEntry],
    audit: &Audit,
) -> Result<(), Stop>
    ensures { Writes (audit_text refused.now audit.now) result (O.written out.old) (O.written out.new) (O.faults out.old) (O.faults out.new) }
{
    match write_list(alloc, out, refused, audit) {
        Ok(()) => match summary_lines(alloc, refused, audit) {
            Ok(lines) => write_text(out, lines.as_slice()),
            Err(_) => Err(Stop::Memory),
        },
        Err(stop) => Err(stop),
    }
}
