//! `flat FILE N`: runs the bytes of a file as raw code, without an ELF image.
ghost use Rattle.std.specs.Prelude.{Some};
ghost use Rattle.cmd_perform.specs.FlatReport.{IsTooLarge, code_report};
ghost use Rattle.cmd_perform.specs.Report.{Does};
ghost use Rattle.cmd_input.specs.Words.{FlatFile};
ghost use Rattle.cmd_perform.specs.Yields.{Only, Yields, streams};
ghost use Rattle.cmd_answers.specs.Files.{file_state};

use crate::answer::answer_end;
use cmd_answers::Stop;
use cmd_answers::answer::answer_text;
use cmd_answers::status::REFUSED;
use cmd_input::refusal::answer_files_fault;
use cmd_input::sources::read_file;
use cmd_lines::image_fault_line;
use eh_bus::map::MAX_IMAGE_SIZE;
use eh_port::{Files, Sink, Source};
use elf_image::ImageFault;
use run_flat::flat_run;
use run_images::{CODE_START, code_memory, start_regs};
use std::alloc::Global;

// Runs these bytes as raw code.
fn run_code<I: Source, O: Sink>(
    alloc: Global,
    code: &[u8],
    budget: u64,
    input: &mut I,
    out: &mut O,
) -> Result<u8, Stop>
    ensures { Yields (Only (code_report budget code.now)) (IsTooLarge code.now)
        (streams (I.left input.old) (I.faults input.old) (O.written out.old) (O.faults out.old))
        (streams (I.left input.new) (I.faults input.new) (O.written out.new) (O.faults out.new)) result }
{
    if code.len() > MAX_IMAGE_SIZE as usize {
        return answer_text(
            out,
            image_fault_line(ImageFault::TooLarge).as_slice(),
            REFUSED,
        );
    }
    let mut regs = start_regs(CODE_START);
    let mut bus = match code_memory(alloc, code) {
        Ok(bus) => bus,
        Err(_) => return Err(Stop::Memory),
    };
    let end = flat_run(&mut regs, &mut bus, budget, input, out);
    answer_end(out, b"\n", end)
}

/// Runs the bytes of a file as raw code.
pub(crate) fn flat<F: Files, I: Source, O: Sink>(
    alloc: Global,
    name: &str,
    budget: u64,
    files: &mut F,
    input: &mut I,
    out: &mut O,
) -> Result<u8, Stop>
    ensures { Does (Some (FlatFile name.now budget)) (file_state (F.held files.old) (F.faults files.old) (F.asked files.old) F.with_name) (file_state (F.held files.new) (F.faults files.new) (F.asked files.new) F.with_name)
        (streams (I.left input.old) (I.faults input.old) (O.written out.old) (O.faults out.old))
        (streams (I.left input.new) (I.faults input.new) (O.written out.new) (O.faults out.new)) result }
{
    match read_file(alloc, name, files) {
        Ok(Ok(code)) => run_code(alloc, code.as_slice(), budget, input, out),
        Ok(Err(fault)) => answer_files_fault(out, &fault),
        Err(stop) => Err(stop),
    }
}
