//! The audit of an image with GNU C++ unwind tables: they are rewritten, and entries that can't be are listed first
//! (docs/guide/audit.md, "Tables of C++ compilers").
ghost use Rattle.std.specs.Prelude.{◌≡◌, []};
ghost use Rattle.elf_image.specs.Image.{image_of};
ghost use Rattle.elf_write.specs.Layout.{write_result};
ghost use Rattle.gnu_rewrite.specs.Refusal.{rewrite_refusal};
ghost use Rattle.audit_top.specs.Does.{Tells};
ghost use Rattle.audit_top.specs.Report.{ReadAudits, WrittenAudits, TablesReports, IsChecked, IsWrittenChecked, AreTablesAccepted};
ghost use Rattle.audit_top.specs.Tables.{has_generic};

use crate::audited::answer_audited;
use cmd_answers::Stop;
use cmd_answers::answer::answer_text;
use cmd_answers::status::REFUSED;
use cmd_lines::{image_fault_line, tables_line};
use eh_index::Index;
use eh_port::Sink;
use elf_image::read::read_image;
use elf_image::{Image, ImageFault};
use elf_write::{ImageParts, write_image};
use gnu_index::{GnuFault, RefusedEntry};
use gnu_lsda::{Generic, row_count};
use gnu_rewrite::rewrite;
use std::alloc::Global;

/// Whether an entry of the index is generic.
#[tactic(auto, using(eh_index::proofs::Search::entries_len, crate::proofs::Generics::generics))]
pub(crate) fn has_generic(index: &Index) -> bool
    ensures { result ≡ has_generic index.now }
{
    for k in 0..row_count(index.image()) {
        if Generic::of(index, k).is_some() {
            return true;
        }
    }
    false
}

/// Writes the audit of the rewritten image that these bytes are, and returns its status.
fn answer_read<O: Sink>(
    alloc: Global,
    out: &mut O,
    refused: &[RefusedEntry],
    bytes: &[u8],
) -> Result<u8, Stop>
    ensures { Tells (ReadAudits refused.now (image_of bytes.now)) ((refused.now ≡ []) × IsChecked (image_of bytes.now)) result (O.written out.old) (O.written out.new) (O.faults out.old) (O.faults out.new) }
{
    match read_image(alloc, bytes) {
        Ok(image) => answer_audited(alloc, out, refused, &image),
        Err(fault) => {
            if let ImageFault::OutOfMemory = fault {
                return Err(Stop::Memory);
            }
            answer_text(out, image_fault_line(fault).as_slice(), REFUSED)
        }
    }
}

/// The same for the image that these parts are written as.
fn answer_written<O: Sink>(
    alloc: Global,
    out: &mut O,
    refused: &[RefusedEntry],
    parts: &ImageParts,
) -> Result<u8, Stop>
    ensures { Tells (WrittenAudits refused.now (write_result parts.now)) ((refused.now ≡ []) × IsWrittenChecked (write_result parts.now)) result (O.written out.old) (O.written out.new) (O.faults out.old) (O.faults out.new) }
{
    match write_image(alloc, parts) {
        Ok(bytes) => answer_read(alloc, out, refused, bytes.as_slice()),
        Err(fault) => {
            if let ImageFault::OutOfMemory = fault {
                return Err(Stop::Memory);
            }
            answer_text(out, image_fault_line(fault).as_slice(), REFUSED)
        }
    }
}

/// Writes the refused entries of an image and the audit of the rewritten one, or the line of one that is too large. Returns its status.
pub(crate) fn answer_tables<O: Sink>(
    alloc: Global,
    out: &mut O,
    image: &Image,
    index: &Index,
) -> Result<u8, Stop>
    requires { index.now ≡ image.now }
    ensures { Tells (TablesReports image.now (rewrite_refusal image.now)) (AreTablesAccepted image.now) result (O.written out.old) (O.written out.new) (O.faults out.old) (O.faults out.new) }
{
    match rewrite(alloc, image, index) {
        Ok((translated, refused)) => answer_written(
            alloc,
            out,
            refused.as_slice(),
            &translated.parts,
        ),
        Err(fault) => {
            if let GnuFault::OutOfMemory = fault {
                return Err(Stop::Memory);
            }
            answer_text(out, tables_line(fault).as_slice(), REFUSED)
        }
    }
}
