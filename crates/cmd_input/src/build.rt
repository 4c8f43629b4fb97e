//! From sources to the bytes of an image (docs/guide/command-line.md, docs/rules/linking.md).
ghost use Rattle.std.specs.Prelude.{◌≡◌, ◌++◌, [], ◌∷◌, Ok, Err, IsOk, MatchResult, false};
ghost use Rattle.cmd_input.specs.AsksFor.{AsksFor, FindingLacks};
ghost use Rattle.cmd_input.specs.Building.{statements_of, assemble_source, linked_parts, written_bytes, stubs, build_image, image_bytes, is_memory, fault_line};
ghost use Rattle.cmd_input.specs.Finding.{Finds};
ghost use Rattle.cmd_input.specs.Sources.{NamedText, all_answers};
ghost use Rattle.cmd_answers.specs.Words.{texts};
ghost use Rattle.cmd_answers.specs.Files.{file_state};

use crate::named::{SourceStmts, SourceText};
use crate::refusal::{BuildFault, FilesFault, is_memory};
use crate::sources::{LoadedFiles, load};
use asm_object::assemble;
use asm_read::read_source;
use asm_relocatable::Object;
use cmd_answers::Stop;
use eh_kit::stubs;
use eh_link::link;
use eh_port::Files;
use elf_write::{ImageParts, write_image};
use std::alloc::Global;

// The statements of a source.
fn statements_of<'a>(
    alloc: Global,
    name: &'a str,
    text: &[u8],
) -> Result<SourceStmts<'a>, BuildFault<'a>>
    ensures { let source : NamedText = record { name = name.now; text = text.now } in
        MatchResult result (λ read. statements_of source ≡ Ok read) (λ fault. is_memory fault ≡ false → statements_of source ≡ Err (fault_line fault)) }
{
    match read_source(alloc, text) {
        Ok(stmts) => Ok(SourceStmts::new(name, stmts)),
        Err(fault) => Err(BuildFault::InSource(name, fault)),
    }
}

// The statements of all sources, followed by those of the stubs.
fn all_statements<'a>(
    alloc: Global,
    sources: &[SourceText<'a>],
) -> Result<Vec<SourceStmts<'a>>, BuildFault<'a>>
    ensures { let answer = all_answers statements_of (sources.now ++ stubs ∷ []) in
        MatchResult result (λ all. answer ≡ Ok all.items) (λ fault. is_memory fault ≡ false → answer ≡ Err (fault_line fault)) }
{
    let mut all = Vec::new(alloc);
    for source in sources {
        all.push(statements_of(alloc, source.name(), source.text())?)?;
    }
    all.push(statements_of(alloc, "stubs", stubs())?)?;
    Ok(all)
}

// The object assembled from a source.
fn assemble_source<'a>(alloc: Global, source: &SourceStmts<'a>) -> Result<Object, BuildFault<'a>>
    ensures { MatchResult result (λ object. assemble_source source.now ≡ Ok object)
        (λ fault. is_memory fault ≡ false → assemble_source source.now ≡ Err (fault_line fault)) }
{
    match assemble(alloc, source.stmts()) {
        Ok(object) => Ok(object),
        Err(fault) => Err(BuildFault::InObject(source.name(), fault)),
    }
}

// The objects of all sources.
fn all_objects<'a>(
    alloc: Global,
    sources: &[SourceStmts<'a>],
) -> Result<Vec<Object>, BuildFault<'a>>
    ensures { let answer = all_answers assemble_source sources.now in
        MatchResult result (λ all. answer ≡ Ok all.items) (λ fault. is_memory fault ≡ false → answer ≡ Err (fault_line fault)) }
{
    let mut all = Vec::new(alloc);
    for source in sources {
        all.push(assemble_source(alloc, source)?)?;
    }
    Ok(all)
}

// The parts of the image linked from objects.
fn linked_parts<'a>(alloc: Global, objects: &[Object]) -> Result<ImageParts, BuildFault<'a>>
    ensures { MatchResult result (λ parts. linked_parts objects.now ≡ Ok parts)
        (λ fault. is_memory fault ≡ false → linked_parts objects.now ≡ Err (fault_line fault)) }
{
    match link(alloc, objects, b"_start") {
        Ok(parts) => Ok(parts),
        Err(fault) => Err(BuildFault::InLink(fault)),
    }
}

/// The bytes of the image with these parts, or why there are none.
pub fn written_bytes<'a>(alloc: Global, parts: &ImageParts) -> Result<Vec<u8>, BuildFault<'a>>
    ensures { MatchResult result (λ bytes. written_bytes parts.now ≡ Ok bytes.items)
        (λ fault. is_memory fault ≡ false → written_bytes parts.now ≡ Err (fault_line fault)) }
{
    match write_image(alloc, parts) {
        Ok(bytes) => Ok(bytes),
        Err(fault) => Err(BuildFault::InImage(fault)),
    }
}

/// The bytes of the image built from sources and the stubs, or why there are none.
pub fn build_image<'a>(
    alloc: Global,
    sources: Vec<SourceText<'a>>,
) -> Result<Vec<u8>, BuildFault<'a>>
    ensures { MatchResult result (λ bytes. build_image sources.entry.items ≡ Ok bytes.items)
        (λ fault. is_memory fault ≡ false → build_image sources.entry.items ≡ Err (fault_line fault)) }
{
    let read = all_statements(alloc, sources.as_slice())?;
    // what isn't needed any more is freed before more is allocated
    drop(sources);
    let objects = all_objects(alloc, read.as_slice())?;
    drop(read);
    let parts = linked_parts(alloc, objects.as_slice())?;
    drop(objects);
    written_bytes(alloc, &parts)
}

/// The bytes of the image built from the source files of these names, or why there are none.
pub fn built_files<'a, F: Files>(
    alloc: Global,
    names: &[&'a str],
    files: &mut F,
) -> Result<Result<Vec<u8>, FilesFault<'a>>, Stop>
    ensures found { Finds (λ bytes. bytes.items) (image_bytes (texts names.now)) (file_state (F.held files.old) (F.faults files.old) (F.asked files.old) F.with_name) (file_state (F.held files.new) (F.faults files.new) (F.asked files.new) F.with_name) result }
    ensures asked { AsksFor (texts names.now) (IsOk result) (FindingLacks result) (file_state (F.held files.old) (F.faults files.old) (F.asked files.old) F.with_name) (file_state (F.held files.new) (F.faults files.new) (F.asked files.new) F.with_name) }
{
    let sources = match load(alloc, names, files)? {
        LoadedFiles::All(sources) => sources,
        LoadedFiles::Lacks(name) => return Ok(Err(FilesFault::Missing(name))),
        LoadedFiles::Exceeds(name) => return Ok(Err(FilesFault::TooLong(name))),
    };
    match build_image(alloc, sources) {
        Ok(bytes) => Ok(Ok(bytes)),
        Err(fault) => {
            if is_memory(&fault) {
                return Err(Stop::Memory);
            }
            Ok(Err(FilesFault::Sources(fault)))
        }
    }
}
