//! Commands over files of the system or one file in memory, and an output in memory.
use crate::programs::Programs;
use eh_port::{Bytes, FileList, HostFiles, HostSink, MemFile, SureFiles, SureSource};
use std::alloc::{AllocError, Global};
use std::io::Error;

/// The result of a command.
#[derive(Drop)]
pub struct CommandResult {
    /// What it wrote.
    pub written: Vec<u8>,
    /// Its status.
    pub status: u8,
}

/// A file of this name and these bytes.
pub fn file(alloc: Global, name: &str, bytes: &[u8]) -> Result<MemFile, AllocError> {
    Ok(MemFile {
        name: Bytes::of_vec(name.as_bytes().to_vec(alloc)?),
        bytes: Bytes::of_vec(bytes.to_vec(alloc)?),
    })
}

fn source(input: Vec<u8>) -> SureSource {
    SureSource {
        left: Bytes::of_vec(input),
    }
}

fn output(alloc: Global) -> HostSink<Vec<u8>> {
    HostSink {
        writer: Vec::new(alloc),
        faults: 0,
    }
}

/// The result of `check` of a file of these bytes.
pub fn run_check<P: Programs>(
    programs: &P,
    alloc: Global,
    bytes: &[u8],
) -> Result<CommandResult, AllocError> {
    let mut list = Vec::new(alloc);
    list.push(file(alloc, "x", bytes)?)?;
    let mut files = SureFiles {
        files: FileList::of_vec(list),
    };
    let mut input = source(Vec::new(alloc));
    let mut out = output(alloc);
    let status = programs.run(alloc, &["check", "x"], &mut files, &mut input, &mut out);
    Ok(CommandResult {
        written: out.writer,
        status,
    })
}

/// The result of a command over the files of the system and an input.
pub fn run_command<P: Programs>(
    host: &HostRuntime,
    programs: &P,
    words: &[&str],
    input: Vec<u8>,
) -> CommandResult {
    let alloc = host.alloc();
    let mut files = HostFiles {
        host,
        faults: 0,
        asked: 0,
    };
    let mut input = source(input);
    let mut out = output(alloc);
    let status = programs.run(alloc, words, &mut files, &mut input, &mut out);
    CommandResult {
        written: out.writer,
        status,
    }
}

/// The bytes that `build` writes for a source in the folder where the program runs.
pub fn run_build<P: Programs>(
    host: &HostRuntime,
    programs: &P,
    source: &str,
) -> Result<Vec<u8>, Error> {
    let CommandResult { written, status } = run_command(
        host,
        programs,
        &["build", source],
        Vec::new(host.alloc()),
    );
    if status != 0 {
        println!(host; "{source} isn't built: status {status}")?;
    }
    Ok(written)
}
