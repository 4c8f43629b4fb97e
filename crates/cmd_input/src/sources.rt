//! Reading the files of a command.
ghost use Rattle.std.specs.Prelude.{◌≡◌, ◌∷◌, [], IfOk, IfSome, IsErrOf, IsOk, OnOk};
ghost use Rattle.eh_port.specs.Causes.{Rose};
ghost use Rattle.cmd_input.specs.AsksFor.{AsksFor, FindingLacks, LoadedLacks};
ghost use Rattle.cmd_input.specs.Building.{files_of, loaded_texts};
ghost use Rattle.cmd_input.specs.Finding.{Finds, file_bytes};
ghost use Rattle.cmd_answers.specs.Words.{texts};
ghost use Rattle.cmd_answers.specs.Files.{file_state};

use crate::named::SourceText;
use crate::refusal::FilesFault;
use cmd_answers::Stop;
use eh_port::{Bytes, FileAnswer, Files};
use std::alloc::Global;

/// The greatest number of bytes of a file.
pub const FILE_LIMIT: usize = 4_194_304;

/// The bytes of the file of this name, or why there are none. The file is asked for once.
pub fn read_file<'a, F: Files>(
    alloc: Global,
    name: &'a str,
    files: &mut F,
) -> Result<Result<Bytes, FilesFault<'a>>, Stop>
    ensures found { Finds (λ bytes. bytes) (file_bytes name.now) (file_state (F.held files.old) (F.faults files.old) (F.asked files.old) F.with_name) (file_state (F.held files.new) (F.faults files.new) (F.asked files.new) F.with_name) result }
    ensures asked { AsksFor (name.now ∷ []) (IsOk result) (FindingLacks result) (file_state (F.held files.old) (F.faults files.old) (F.asked files.old) F.with_name) (file_state (F.held files.new) (F.faults files.new) (F.asked files.new) F.with_name) }
{
    match files.read(alloc, name, FILE_LIMIT)? {
        FileAnswer::Found(bytes) => Ok(Ok(bytes)),
        FileAnswer::Missing => Ok(Err(FilesFault::Missing(name))),
        FileAnswer::TooLong => Ok(Err(FilesFault::TooLong(name))),
    }
}

/// The result of reading files in order.
#[derive(Drop)]
pub enum LoadedFiles<'a> {
    /// All of them, in order.
    All(Vec<SourceText<'a>>),
    /// The name of the first file that gives no bytes: it is missing.
    Lacks(&'a str),
    /// The name of the first file that gives no bytes: it is too long.
    Exceeds(&'a str),
}

/// Reads the named files in order, each once, and stops at the first that is missing or too long.
pub fn load<'a, F: Files>(
    alloc: Global,
    names: &[&'a str],
    files: &mut F,
) -> Result<LoadedFiles<'a>, Stop>
    ensures told { IfOk result (λ all. IfSome (F.held files.old) (λ held. loaded_texts all ≡ files_of held (texts names.now))) }
    ensures read { IsErrOf result Stop.Read → Rose (F.faults files.old) (F.faults files.new) }
    ensures write { IsErrOf result Stop.Write → ⊥ }
    ensures memory { IsErrOf result Stop.Memory → F.faults files.new ≡ F.faults files.old }
    ensures kept { OnOk result (F.faults files.new ≡ F.faults files.old) }
    ensures asked { AsksFor (texts names.now) (IsOk result) (LoadedLacks result)
        (file_state (F.held files.old) (F.faults files.old) (F.asked files.old) F.with_name) (file_state (F.held files.new) (F.faults files.new) (F.asked files.new) F.with_name) }
{
    let mut all = Vec::new(alloc);
    for name in names {
        match files.read(alloc, name, FILE_LIMIT)? {
            FileAnswer::Found(bytes) => all.push(SourceText::new(name, bytes))?,
            FileAnswer::Missing => return Ok(LoadedFiles::Lacks(name)),
            FileAnswer::TooLong => return Ok(LoadedFiles::Exceeds(name)),
        }
    }
    Ok(LoadedFiles::All(all))
}
