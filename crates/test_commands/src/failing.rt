//! Counts the calls of files, input and output that a command makes, and lets each of them fail in turn.
use crate::command::file;
use crate::programs::Programs;
use eh_port::{Bytes, CallNumbers, FileList, MemFile, MemFiles, MemSink, MemSource};
use std::alloc::{AllocError, Global};
use std::fs;
use test_rows::{Asked, Unanswered};

/// The files that commands find, besides the images.
const FILES: [&str; 4] = ["c.bin", "echo.bin", "a.s", "b.s"];

/// The name of the image that reads its input.
const READING: &str = "reading.elf";

/// The name of the image of which two functions are refused.
const UNWELL: &str = "unwell.elf";

/// The first word of a row for `ehabi_audit`; the other words are its own.
const AUDIT: &str = "audit";

/// A number above that of the calls that any command of a row makes of one port.
const MANY: u64 = 64;

const READ_FAILED: u8 = 7;

const WRITE_FAILED: u8 = 8;

/// Commands over the files of the folder where the program runs, and two images.
#[derive(Drop)]
pub struct Calls<'a, P> {
    /// The system that the tests run on.
    pub host: &'a HostRuntime,
    /// The programs that are asked.
    pub programs: &'a P,
    /// The bytes of the image that reads.
    pub reading: &'a [u8],
    /// The bytes of the image of which two functions are refused.
    pub unwell: &'a [u8],
}

/// The words of a command, and its input.
#[derive(Drop)]
struct Command<'a> {
    words: Vec<&'a str>,
    input: &'a str,
}

#[derive(Clone, Copy, PartialEq, Eq, Debug)]
enum Port {
    Files,
    Input,
    Output,
}

/// The call of a port that fails, by its number.
#[derive(Clone, Copy)]
struct Fault {
    port: Port,
    number: u64,
}

/// The result of a command.
#[derive(Drop)]
struct Outcome {
    written: Bytes,
    status: u8,
    /// The number of calls that failed.
    faults: u64,
}

/// The numbers of a port's calls that fail.
fn failing(alloc: Global, fault: Option<Fault>, port: Port) -> Result<CallNumbers, AllocError> {
    let mut numbers = CallNumbers::new(alloc);
    if let Some(fault) = fault {
        if fault.port == port {
            numbers.push(fault.number)?;
        }
    }
    Ok(numbers)
}

/// An input of this text; one of its calls may fail.
fn input_of(alloc: Global, text: &str, fault: Option<Fault>) -> Result<MemSource, AllocError> {
    Ok(MemSource {
        left: Bytes::of_vec(text.as_bytes().to_vec(alloc)?),
        next: 1,
        failing: failing(alloc, fault, Port::Input)?,
        faults: 0,
    })
}

/// An output; one of its calls may fail.
fn output_of(alloc: Global, fault: Option<Fault>) -> Result<MemSink, AllocError> {
    Ok(MemSink {
        written: Bytes::of_vec(Vec::new(alloc)),
        next: 1,
        failing: failing(alloc, fault, Port::Output)?,
        faults: 0,
    })
}

/// The status of a command if a call of a port fails.
fn status_of(port: Port) -> u8 {
    match port {
        Port::Files | Port::Input => READ_FAILED,
        Port::Output => WRITE_FAILED,
    }
}

impl Outcome {
    /// Why this can't be the result of a command if a call of a port failed. `whole` is its result without a failure.
    fn wrong(&self, port: Port, whole: &Outcome) -> Option<&'static str> {
        let part = self.written.as_slice();
        let all = whole.written.as_slice();
        if self.faults != 1 {
            Some("a call behind the one that failed")
        } else if self.status != status_of(port) {
            Some("another status")
        } else if part.len() >= all.len() || !all.starts_with(part) {
            Some("no first part of what is written else")
        } else if port == Port::Files && !part.is_empty() {
            Some("something written in front of a file's fault")
        } else {
            None
        }
    }

    fn is_same(&self, whole: &Outcome) -> bool {
        self.status == whole.status && self.written.as_slice() == whole.written.as_slice()
    }
}

impl<P: Programs> Calls<'_, P> {
    /// Adds a file of the folder.
    fn add_read(
        &self,
        alloc: Global,
        files: &mut Vec<MemFile>,
        name: &str,
    ) -> Result<(), Unanswered> {
        let bytes = fs::read(self.host, name)?;
        Ok(files.push(file(alloc, name, bytes.as_slice())?)?)
    }

    /// Adds the files of the folder.
    fn add_folder(&self, alloc: Global, files: &mut Vec<MemFile>) -> Result<(), Unanswered> {
        for name in FILES {
            self.add_read(alloc, files, name)?;
        }
        Ok(())
    }

    /// Adds the images.
    fn add_images(&self, alloc: Global, files: &mut Vec<MemFile>) -> Result<(), AllocError> {
        files.push(file(alloc, READING, self.reading)?)?;
        files.push(file(alloc, UNWELL, self.unwell)?)?;
        Ok(())
    }

    fn files(&self, alloc: Global) -> Result<FileList, Unanswered> {
        let mut files = Vec::new(alloc);
        self.add_folder(alloc, &mut files)?;
        self.add_images(alloc, &mut files)?;
        Ok(FileList::of_vec(files))
    }

    /// The files; one of their calls may fail.
    fn files_with_fault(
        &self,
        alloc: Global,
        fault: Option<Fault>,
    ) -> Result<MemFiles, Unanswered> {
        Ok(MemFiles {
            files: self.files(alloc)?,
            next: 1,
            failing: failing(alloc, fault, Port::Files)?,
            faults: 0,
        })
    }

    /// The status of a command over files, an input and an output.
    fn status(
        &self,
        alloc: Global,
        words: &[&str],
        files: &mut MemFiles,
        input: &mut MemSource,
        out: &mut MemSink,
    ) -> u8 {
        match words {
            [first, after @ ..] if *first == AUDIT => self.programs.audit(alloc, after, files, out),
            _ => self.programs.run(alloc, words, files, input, out),
        }
    }

    /// The result of a command of which a call may fail.
    fn perform(
        &self,
        alloc: Global,
        command: &Command,
        fault: Option<Fault>,
    ) -> Result<Outcome, Unanswered> {
        let mut files = self.files_with_fault(alloc, fault)?;
        let mut input = input_of(alloc, command.input, fault)?;
        let mut out = output_of(alloc, fault)?;
        let words = command.words.as_slice();
        let status = self.status(alloc, words, &mut files, &mut input, &mut out);
        let read_faults = files.faults.saturating_add(input.faults);
        Ok(Outcome {
            written: out.written,
            status,
            faults: read_faults.saturating_add(out.faults),
        })
    }

    /// The number of calls of a port that a command makes. The first call that it doesn't make is the first that doesn't fail.
    fn count(
        &self,
        alloc: Global,
        command: &Command,
        port: Port,
        whole: &Outcome,
    ) -> Result<u64, Unanswered> {
        let mut made = 0;
        for number in 1..MANY {
            let outcome = self.perform(alloc, command, Some(Fault { port, number }))?;
            if outcome.faults == 0 && outcome.is_same(whole) {
                return Ok(made);
            }
            if let Some(why) = outcome.wrong(port, whole) {
                return Err(Unanswered::Because(why));
            }
            made = number;
        }
        Err(Unanswered::Because("too many calls"))
    }

    /// The number of calls that a command makes of each port.
    fn counts(
        &self,
        alloc: Global,
        command: &Command,
        whole: &Outcome,
    ) -> Result<String, Unanswered> {
        let files = self.count(alloc, command, Port::Files, whole)?;
        let reads = self.count(alloc, command, Port::Input, whole)?;
        let writes = self.count(alloc, command, Port::Output, whole)?;
        Ok(format!(in alloc; "files {files}, input {reads}, output {writes}")?)
    }
}

impl<P: Programs> Asked for Calls<'_, P> {
    /// The number of calls that `COMMAND < INPUT` makes of each port.
    fn answer(&self, alloc: Global, question: &str) -> Result<String, Unanswered> {
        let (words, input) = question.split_once(" < ").unwrap_or((question, ""));
        let words = words.split(' ').collect(alloc)?;
        let command = Command { words, input };
        let whole = self.perform(alloc, &command, None)?;
        self.counts(alloc, &command, &whole)
    }
}
