//! `gen K M`: builds, checks and runs the generated program of a number, and counts its events (docs/guide/command-line.md).
ghost use Rattle.std.specs.Prelude.{◌≡◌, ◌<◌, ◌≤◌, [], ◌∷◌, ℕ, List, Option, Some, Ok, Err, MatchResult, true, false};
ghost use Rattle.cmd_input.specs.Accepting.{BytesReportsBy, IsUnaccepted};
ghost use Rattle.cmd_input.specs.Building.{build_image, fault_line, is_memory};
ghost use Rattle.cmd_perform.specs.GenerateReport.{CountsAccepted, generated_source};
ghost use Rattle.cmd_perform.specs.Report.{Does};
ghost use Rattle.cmd_input.specs.Words.{GenerateProgram};
ghost use Rattle.cmd_answers.specs.Files.{FileState};
ghost use Rattle.cmd_perform.specs.Yields.{Yields, streams};

use crate::answer::answer_summary;
use crate::recorded::runs_same;
use cmd_answers::Stop;
use cmd_input::accept::{accept_bytes, answer_refused};
use cmd_input::build::build_image;
use cmd_input::named::SourceText;
use cmd_input::refusal::{BuildFault, answer_build_fault, is_memory};
use cmd_input::words::MOST_INSTRUCTIONS;
use eh_kit::{MAX_FUNCTIONS, generate};
use eh_machine::Machine;
use eh_port::{Bytes, Sink, SureSink, SureSource};
use frame_check::Accepted;
use std::alloc::Global;

// An input without bytes.
fn empty_source(alloc: Global) -> SureSource
    ensures { result.left ≡ [] }
{
    SureSource {
        left: Bytes::of_vec(Vec::new(alloc)),
    }
}

// Runs an accepted image without input, and counts its events.
fn count_accepted<O: Sink>(alloc: Global, accepted: &Accepted, out: &mut O) -> Result<u8, Stop>
    ensures { (input : Option (List ℕ)) (faults : ℕ) → Yields (CountsAccepted accepted.now) ⊥
        (streams input faults (O.written out.old) (O.faults out.old)) (streams input faults (O.written out.new) (O.faults out.new)) result }
{
    let mut machine = match Machine::start(alloc, accepted, MOST_INSTRUCTIONS) {
        Ok(machine) => machine,
        Err(_) => return Err(Stop::Memory),
    };
    runs_same(accepted, &machine.shared.bus);
    let mut input = empty_source(alloc);
    let mut dropped = SureSink { taken: 0 };
    let end = machine.run(&mut input, &mut dropped);
    let functions = accepted.image().functions().len();
    answer_summary(alloc, out, functions, machine.events(), end)
}

// The same for the image that these bytes are, if it is accepted.
fn count_bytes<O: Sink>(alloc: Global, bytes: &[u8], out: &mut O) -> Result<u8, Stop>
    ensures { (input : Option (List ℕ)) (faults : ℕ) → Yields (BytesReportsBy CountsAccepted bytes.now) (IsUnaccepted bytes.now)
        (streams input faults (O.written out.old) (O.faults out.old)) (streams input faults (O.written out.new) (O.faults out.new)) result }
{
    match accept_bytes(alloc, bytes) {
        Ok(Ok(accepted)) => count_accepted(alloc, &accepted, out),
        Ok(Err(fault)) => answer_refused(alloc, out, &fault),
        Err(stop) => Err(stop),
    }
}

// A list of one source.
fn list_of_one<'a>(
    alloc: Global,
    source: SourceText<'a>,
) -> Result<Vec<SourceText<'a>>, BuildFault<'a>>
    ensures { MatchResult result (λ all. all.items ≡ source.entry ∷ []) (λ fault. is_memory fault ≡ true) }
{
    let mut all = Vec::new(alloc);
    all.push(source)?;
    Ok(all)
}

// The bytes of the image of the generated program of this number.
fn built_program<'a>(alloc: Global, number: u32, functions: u32) -> Result<Vec<u8>, BuildFault<'a>>
    requires some { 0 < functions }
    requires most { functions ≤ MAX_FUNCTIONS }
    ensures { MatchResult result (λ bytes. build_image (generated_source number functions ∷ []) ≡ Ok bytes.items)
        (λ fault. is_memory fault ≡ false → build_image (generated_source number functions ∷ []) ≡ Err (fault_line fault)) }
{
    let text = generate(alloc, number, functions)?;
    let source = SourceText::new("generated", Bytes::of_vec(text));
    let sources = list_of_one(alloc, source)?;
    build_image(alloc, sources)
}

/// Runs the generated program of this number and counts its events. Files and input aren't used.
pub(crate) fn count_program<O: Sink>(
    alloc: Global,
    number: u32,
    functions: u32,
    out: &mut O,
) -> Result<u8, Stop>
    requires some { 0 < functions }
    requires most { functions ≤ MAX_FUNCTIONS }
    ensures { (files : FileState) (input : Option (List ℕ)) (faults : ℕ) → Does (Some (GenerateProgram number functions)) files files
        (streams input faults (O.written out.old) (O.faults out.old)) (streams input faults (O.written out.new) (O.faults out.new)) result }
{
    match built_program(alloc, number, functions) {
        Ok(bytes) => count_bytes(alloc, bytes.as_slice(), out),
        Err(fault) => {
            if is_memory(&fault) {
                return Err(Stop::Memory);
            }
            answer_build_fault(out, &fault)
        }
    }
}
