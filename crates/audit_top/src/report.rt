//! From the name of a file to the audit and the status (docs/guide/audit.md, "The program").
ghost use Rattle.std.specs.Prelude.{◌≡◌, Some};
ghost use Rattle.elf_image.specs.Image.{image_of};
ghost use Rattle.audit_top.specs.Does.{Does, Tells};
ghost use Rattle.audit_top.specs.Report.{ImageReports, ReadReports, IsAcceptedImage, IsAcceptedRead};
ghost use Rattle.cmd_answers.specs.Files.{file_state};

use crate::audited::answer_audited;
use crate::tables::{answer_tables, has_generic};
use cmd_answers::Stop;
use cmd_answers::answer::{answer_missing, answer_text, answer_too_long};
use cmd_answers::status::REFUSED;
use cmd_lines::{image_fault_line, index_line};
use eh_index::Index;
use eh_port::{FileAnswer, Files, Sink};
use elf_image::read::read_image;
use elf_image::{Image, ImageFault};
use std::alloc::Global;

/// The greatest number of bytes of a file: room for an image with debug information.
pub const MOST_BYTES: usize = 67_108_864;

/// Writes the audit of an image and returns its status. If an entry is generic, the rewritten image is audited; if the index can't be read,
/// its line is written.
fn answer_image<O: Sink>(alloc: Global, out: &mut O, image: &Image) -> Result<u8, Stop>
    ensures { Tells (ImageReports image.now) (IsAcceptedImage image.now) result (O.written out.old) (O.written out.new) (O.faults out.old) (O.faults out.new) }
{
    match Index::read(image) {
        Ok(index) => {
            if has_generic(&index) {
                answer_tables(alloc, out, image, &index)
            } else {
                answer_audited(alloc, out, &[], image)
            }
        }
        Err(fault) => answer_text(out, index_line(fault).as_slice(), REFUSED),
    }
}

/// Writes the audit of the image that these bytes are, or the line that says why they are none, and returns its status.
fn answer_bytes<O: Sink>(alloc: Global, out: &mut O, bytes: &[u8]) -> Result<u8, Stop>
    ensures { Tells (ReadReports (image_of bytes.now)) (IsAcceptedRead (image_of bytes.now)) result (O.written out.old) (O.written out.new) (O.faults out.old) (O.faults out.new) }
{
    match read_image(alloc, bytes) {
        Ok(image) => answer_image(alloc, out, &image),
        Err(fault) => {
            if let ImageFault::OutOfMemory = fault {
                return Err(Stop::Memory);
            }
            answer_text(out, image_fault_line(fault).as_slice(), REFUSED)
        }
    }
}

/// Writes the audit of the image in a file and returns its status.
pub(crate) fn answer_file<F: Files, O: Sink>(
    alloc: Global,
    name: &str,
    files: &mut F,
    out: &mut O,
) -> Result<u8, Stop>
    ensures { Does (Some name.now) (file_state (F.held files.old) (F.faults files.old) (F.asked files.old) F.with_name) (file_state (F.held files.new) (F.faults files.new) (F.asked files.new) F.with_name)
        result (O.written out.old) (O.written out.new) (O.faults out.old) (O.faults out.new) }
{
    match files.read(alloc, name, MOST_BYTES)? {
        FileAnswer::Found(bytes) => answer_bytes(alloc, out, bytes.as_slice()),
        FileAnswer::Missing => answer_missing(out, name),
        FileAnswer::TooLong => answer_too_long(out, name),
    }
}
