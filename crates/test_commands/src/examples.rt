//! Runs the examples of data/examples/, each by the command in its own head comment, or in the text beside a compiler's image. What it
//! writes and its status are compared with what is said there. Sources are also built, and the image read back is compared with the parts
//! that they link to.
use crate::command::{CommandResult, run_command};
use crate::parts::is_image_of;
use crate::programs::Programs;
use std::alloc::{AllocError, Global};
use std::fs;
use std::io::Error;
use test_rows::sources::parts_of_sources;

/// The examples that have a command: programs that run; for each cause a source that `check` refuses; and programs that throw. Among the
/// latter one is in the second profile, one would have spoilt what a throw needs, one is walked and one is unwound by force. The threads of
/// two run by a schedule. Last the compilers' images with GNU tables, by the text beside each.
static EXAMPLES: [&str; 49] = [
    "hello.s",
    "shout.s",
    "counter.s",
    "two_main.s",
    "frame.s",
    "table.s",
    "check/undecodable.s",
    "check/branch_out.s",
    "check/indirect_branch.s",
    "check/call_not_function.s",
    "check/sp_write.s",
    "check/join_depth.s",
    "check/return_state.s",
    "check/call_state.s",
    "check/frame_pointer_lost.s",
    "check/bad_bytecode.s",
    "check/bad_descriptor.s",
    "check/pad_depth.s",
    "check/throw_in_leaf_scope.s",
    "check/split_entry.s",
    "throw.s",
    "baseline.s",
    "cleanups.s",
    "rethrow.s",
    "destructor.s",
    "frame_pointer.s",
    "variable_frame.s",
    "classes.s",
    "specification.s",
    "specification_bare.s",
    "uncaught.s",
    "throw_in_cleanup.s",
    "saved_slot.s",
    "walk.s",
    "force.s",
    "threads.s",
    "threads_saved_slot.s",
    "gnu/frames.txt",
    "gnu/cleanup.txt",
    "gnu/types.txt",
    "gnu/virtual.txt",
    "gnu/pointers.txt",
    "gnu/nested.txt",
    "gnu/noexcept.txt",
    "gnu/uncaught.txt",
    "gnu/long.txt",
    "gnu/globals.txt",
    "gnu/spec.txt",
    "gnu/clang.txt",
];

/// What the head comment of an example says: the words of its command after the program's name, its input, what it writes, and its status.
#[derive(Drop)]
struct Head<'a> {
    words: Vec<&'a str>,
    input: Vec<u8>,
    wrote: Vec<u8>,
    status: Option<u8>,
}

/// Adds a line of text.
fn add_line(bytes: &mut Vec<u8>, text: &str) -> Result<(), AllocError> {
    bytes.extend_from_slice(text.as_bytes())?;
    bytes.push(b'\n')?;
    Ok(())
}

impl<'a> Head<'a> {
    fn new(alloc: Global) -> Head<'a> {
        Head {
            words: Vec::new(alloc),
            input: Vec::new(alloc),
            wrote: Vec::new(alloc),
            status: None,
        }
    }

    /// Reads a line of the example. In a source it is a comment.
    fn take(&mut self, alloc: Global, line: &'a str) -> Result<(), AllocError> {
        let line = line.strip_prefix("@ ").unwrap_or(line);
        if let Some(text) = line.strip_prefix("< ") {
            add_line(&mut self.input, text)
        } else if let Some(text) = line.strip_prefix(">") {
            add_line(&mut self.wrote, text.strip_prefix(" ").unwrap_or(text))
        } else if let Some(command) = line.strip_prefix("$ ./ehabi_run ") {
            self.words = command.split(' ').collect(alloc)?;
            Ok(())
        } else {
            self.take_status(line);
            Ok(())
        }
    }

    /// Reads the status, if the line has it.
    fn take_status(&mut self, line: &str) {
        if let Some(status) = line.strip_prefix("exit status ") {
            self.status = status.parse().ok();
        }
    }
}

fn head_of(alloc: Global, text: &str) -> Result<Head<'_>, AllocError> {
    let mut head = Head::new(alloc);
    for line in text.lines() {
        head.take(alloc, line)?;
    }
    Ok(head)
}

/// The words of a command that builds an image from sources.
fn build_words<'a>(alloc: Global, sources: &[&'a str]) -> Result<Vec<&'a str>, AllocError> {
    let mut words = Vec::new(alloc);
    words.push("build")?;
    for name in sources {
        words.push(*name)?;
    }
    Ok(words)
}

/// The texts of sources.
fn texts_of(host: &HostRuntime, sources: &[&str]) -> Result<Vec<String>, Error> {
    let mut texts = Vec::new(host.alloc());
    for name in sources {
        texts.push(fs::read_to_string(host, *name)?)?;
    }
    Ok(texts)
}

/// Whether the result of a build reads back as the image of the parts that these texts link to.
fn came_of_parts(alloc: Global, texts: &[String], came: &CommandResult) -> bool {
    match parts_of_sources(alloc, texts) {
        Some(parts) => came.status == 0 && is_image_of(alloc, came.written.as_slice(), &parts),
        None => false,
    }
}

/// Whether the image built from sources reads back as the image of the parts that they link to.
fn is_built<P: Programs>(
    host: &HostRuntime,
    programs: &P,
    sources: &[&str],
) -> Result<bool, Error> {
    let alloc = host.alloc();
    let words = build_words(alloc, sources)?;
    let texts = texts_of(host, sources)?;
    let came = run_command(host, programs, words.as_slice(), Vec::new(alloc));
    Ok(came_of_parts(alloc, texts.as_slice(), &came))
}

/// The sources among the words of a command.
fn sources_of<'a>(alloc: Global, words: &[&'a str]) -> Result<Vec<&'a str>, AllocError> {
    let mut sources = Vec::new(alloc);
    for word in words {
        if word.ends_with(".s") {
            sources.push(*word)?;
        }
    }
    Ok(sources)
}

/// The result of the command of an example, compared with what its head says.
fn verdict_on<P: Programs>(host: &HostRuntime, programs: &P, head: Head) -> &'static str {
    let Head {
        words,
        input,
        wrote,
        status: said,
    } = head;
    let CommandResult { written, status } = run_command(host, programs, words.as_slice(), input);
    if written.as_slice() != wrote.as_slice() {
        "not what its head says"
    } else if said != Some(status) {
        "another status than its head says"
    } else {
        "as its head says"
    }
}

/// Whether the image built from the sources of a command, if it has any, is the image of their parts.
fn are_built<P: Programs>(host: &HostRuntime, programs: &P, words: &[&str]) -> Result<bool, Error> {
    let sources = sources_of(host.alloc(), words)?;
    if sources.is_empty() {
        return Ok(true);
    }
    is_built(host, programs, sources.as_slice())
}

/// The verdict on an example.
fn verdict<P: Programs>(
    host: &HostRuntime,
    programs: &P,
    name: &str,
) -> Result<&'static str, Error> {
    let path = format!(in host.alloc(); "examples/{name}")?;
    let text = fs::read_to_string(host, path.as_str())?;
    let head = head_of(host.alloc(), text.as_str())?;
    if head.words.is_empty() {
        return Ok("no command");
    }
    if !are_built(host, programs, head.words.as_slice())? {
        return Ok("another image than its parts'");
    }
    Ok(verdict_on(host, programs, head))
}

/// Runs the examples and writes the verdict on each.
pub fn run_examples<P: Programs>(host: &HostRuntime, programs: &P) -> Result<(), Error> {
    for name in &EXAMPLES {
        let verdict = verdict(host, programs, name)?;
        println!(host; "{name}: {verdict}")?;
    }
    Ok(())
}
