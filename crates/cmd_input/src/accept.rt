//! From the bytes of a file to an accepted image, or to the reason why they are refused. `run`, `walk`, `check` and `gen` begin with it
//! (docs/rules/acceptance.md).
ghost use Rattle.std.specs.Prelude.{◌≡◌, ◌≢◌, ◌⊎◌, ◌-◌, MatchResult};
ghost use Rattle.frame_check.specs.declared.fault.CheckFault.TheVariants.{OutOfMemory};
ghost use Rattle.cmd_input.specs.Accepting.{Judges, check_fault_line, bytes_fault_line};
ghost use Rattle.cmd_lines.specs.CheckText.{cause_line};
ghost use Rattle.cmd_answers.specs.Writes.{Answers, StopsEarly};
ghost use Rattle.cmd_answers.specs.declared.status.TheConstants.{REFUSED};
ghost use Rattle.cmd_answers.specs.declared.stop.Stop.TheVariants.{Memory};

use cmd_answers::Stop;
use cmd_answers::answer::answer_text;
use cmd_answers::status::REFUSED;
use cmd_lines::{image_fault_line, index_line, push_cause, type_line};
use eh_port::Sink;
use elf_image::ImageFault;
use elf_image::read::read_image;
use frame_check::{Accepted, CheckFault, Rejected, check};
use std::alloc::Global;

/// Why the bytes of a file are refused.
#[derive(Drop)]
pub enum BytesFault {
    /// They are no image.
    NoImage(ImageFault),
    /// They are an image that the checker doesn't accept.
    NotAccepted(CheckFault),
}

/// The accepted image that these bytes are, or why they are refused. Stops only for lack of memory.
pub fn accept_bytes<'a>(
    alloc: Global,
    bytes: &'a [u8],
) -> Result<Result<Accepted<'a>, BytesFault>, Stop>
    ensures { MatchResult result (λ judged. Judges bytes.now judged) (λ stop. stop ≡ Memory) }
{
    let image = match read_image(alloc, bytes) {
        Ok(image) => image,
        Err(fault) => {
            if let ImageFault::OutOfMemory = fault {
                return Err(Stop::Memory);
            }
            return Ok(Err(BytesFault::NoImage(fault)));
        }
    };
    match check(alloc, image) {
        Ok(accepted) => {
            accepted.holds();
            Ok(Ok(accepted))
        }
        Err(fault) => {
            if let CheckFault::OutOfMemory = fault {
                return Err(Stop::Memory);
            }
            Ok(Err(BytesFault::NotAccepted(fault)))
        }
    }
}

// Writes the line of a refused function and returns its status.
fn answer_rejected<O: Sink>(alloc: Global, out: &mut O, rejected: &Rejected) -> Result<u8, Stop>
    ensures { Answers (cause_line rejected.now.function (rejected.now.at - rejected.now.start) rejected.now.cause) REFUSED result (O.written out.old) (O.written out.new) (O.faults out.old) (O.faults out.new)
        ⊎ StopsEarly Memory result (O.written out.old) (O.written out.new) (O.faults out.old) (O.faults out.new) }
{
    let mut line = Vec::new(alloc);
    match push_cause(&mut line, rejected) {
        Ok(()) => answer_text(out, line.as_slice(), REFUSED),
        Err(_) => Err(Stop::Memory),
    }
}

// Writes the line of an image that isn't accepted and returns its status.
fn answer_fault<O: Sink>(alloc: Global, out: &mut O, fault: &CheckFault) -> Result<u8, Stop>
    ensures { ((fault.now ≢ OutOfMemory) × Answers (check_fault_line fault.now) REFUSED result (O.written out.old) (O.written out.new) (O.faults out.old) (O.faults out.new))
        ⊎ StopsEarly Memory result (O.written out.old) (O.written out.new) (O.faults out.old) (O.faults out.new) }
{
    match fault {
        CheckFault::Index(fault) => answer_text(out, index_line(*fault).as_slice(), REFUSED),
        CheckFault::Function(rejected) => answer_rejected(alloc, out, rejected),
        CheckFault::Types(fault) => answer_text(out, type_line(*fault).as_slice(), REFUSED),
        CheckFault::OutOfMemory => Err(Stop::Memory),
    }
}

/// Writes the line that says why bytes are refused, and returns its status.
pub fn answer_refused<O: Sink>(alloc: Global, out: &mut O, fault: &BytesFault) -> Result<u8, Stop>
    ensures { Answers (bytes_fault_line fault.now) REFUSED result (O.written out.old) (O.written out.new) (O.faults out.old) (O.faults out.new)
        ⊎ StopsEarly Memory result (O.written out.old) (O.written out.new) (O.faults out.old) (O.faults out.new) }
{
    match fault {
        BytesFault::NoImage(fault) => {
            answer_text(out, image_fault_line(*fault).as_slice(), REFUSED)
        }
        BytesFault::NotAccepted(fault) => answer_fault(alloc, out, fault),
    }
}
