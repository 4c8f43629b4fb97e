//! The audit of an image, after some entries of its index may have been refused (docs/guide/audit.md, "The program").
ghost use Rattle.std.specs.Prelude.{◌≡◌, [], IfOk};
ghost use Rattle.eh_index.specs.Refusal.{index_refusal};
ghost use Rattle.frame_check.specs.Accepts.{IsAccepted};
ghost use Rattle.audit_top.specs.Does.{Tells};
ghost use Rattle.audit_top.specs.Report.{status_of, IndexAudits};
ghost use Rattle.audit_top.specs.Text.{audit_text};
ghost use Rattle.audit_top.specs.Writing.{Writes};

use crate::listing::write_audit;
use cmd_answers::Stop;
use cmd_answers::answer::answer_text;
use cmd_answers::status::{DONE, REFUSED};
use cmd_lines::index_line;
use eh_port::Sink;
use elf_image::Image;
use frame_audit::{Audit, AuditFault, audit_image};
use gnu_index::RefusedEntry;
use std::alloc::Global;

/// The status: whether an entry is refused or anything is listed against the image.
fn status_of(refused: &[RefusedEntry], audit: &Audit) -> u8
    ensures { result ≡ status_of refused.now audit.now }
{
    if refused.is_empty() && audit.is_clear() {
        DONE
    } else {
        REFUSED
    }
}

/// Writes an audit and returns its status.
fn answer_audit<O: Sink>(
    alloc: Global,
    out: &mut O,
    refused: &[RefusedEntry],
    audit: &Audit,
) -> Result<u8, Stop>
    ensures writes { Writes (audit_text refused.now audit.now) result (O.written out.old) (O.written out.new) (O.faults out.old) (O.faults out.new) }
    ensures status { IfOk result (λ status. status ≡ status_of refused.now audit.now) }
{
    match write_audit(alloc, out, refused, audit) {
        Ok(()) => Ok(status_of(refused, audit)),
        Err(stop) => Err(stop),
    }
}

/// Writes the audit of an image, or the line of an index that can't be read, and returns its status.
pub(crate) fn answer_audited<O: Sink>(
    alloc: Global,
    out: &mut O,
    refused: &[RefusedEntry],
    image: &Image,
) -> Result<u8, Stop>
    ensures { Tells (IndexAudits refused.now (index_refusal image.now) image.now) ((refused.now ≡ []) × IsAccepted image.now) result (O.written out.old) (O.written out.new) (O.faults out.old) (O.faults out.new) }
{
    match audit_image(alloc, image) {
        Ok(audit) => answer_audit(alloc, out, refused, &audit),
        Err(AuditFault::Index(fault)) => { answer_text(out, index_line(fault).as_slice(), REFUSED) }
        Err(AuditFault::OutOfMemory) => Err(Stop::Memory),
    }
}
