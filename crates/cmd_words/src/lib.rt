//! The words that a program gets from its system, and how it ends (docs/rules/memory.md). Every program of this repository that takes words uses
//! this crate.
#![tactic(auto)]

ghost use Rattle.std.specs.Prelude.{◌≡◌, drop, map, IfOk, MatchResult, string_bytes};
ghost use Rattle.std.specs.Process.{exit_status};
ghost use Rattle.std.specs.Vec.Iter.{into_iter_items};
ghost use Rattle.cmd_answers.specs.Words.{texts};

use cmd_answers::status::NO_MEMORY;
use std::alloc::{AllocError, Global};
use std::io::ErrorKind;
use std::process::ExitCode;
use std::{env, rt};

/// All words that the system gives, the program's name first. `AllocError` if there was no memory for them.
pub fn all_of(alloc: Global, mut args: env::Args) -> Result<Vec<String>, AllocError>
    ensures { IfOk result (λ words. words.items ≡ into_iter_items args) }
{
    let mut words = Vec::new(alloc);
    while let Some(word) = args.next() {
        words.push(word)?;
    }
    Ok(words)
}

/// The words after the program's name, in order. An empty word is a word.
pub fn after_name(words: &[String]) -> &[String]
    ensures { result.now ≡ drop 1 words.now }
{
    match words {
        [] => &[],
        [_name, after @ ..] => after,
    }
}

/// The words as texts. `AllocError` if there was no memory for the list.
pub fn texts_of<'a>(alloc: Global, words: &'a [String]) -> Result<Vec<&'a str>, AllocError>
    ensures { IfOk result (λ all. texts all.items ≡ map string_bytes words.now) }
{
    let mut texts = Vec::new(alloc);
    for word in words {
        texts.push(word.as_str())?;
    }
    Ok(texts)
}

/// All words that the system gives. If one of them is no text, there are none, which form no command. `AllocError` if there was no memory
/// for them.
pub fn words_of<R: rt::Env + AllocGlobal>(host: &R) -> Result<Vec<String>, AllocError> {
    match env::args(host) {
        Ok(args) => all_of(host.alloc(), args),
        Err(error) => match error.kind() {
            ErrorKind::OutOfMemory => Err(AllocError),
            _ => Ok(Vec::new(host.alloc())),
        },
    }
}

/// The exit code of a program: the status that the call gave, or `NO_MEMORY` if there was no memory for its words.
pub fn exit_code(status: Result<u8, AllocError>) -> ExitCode
    ensures { MatchResult status (λ n. exit_status result ≡ n) (λ _. exit_status result ≡ NO_MEMORY) }
{
    match status {
        Ok(status) => ExitCode::from(status),
        Err(AllocError) => ExitCode::from(NO_MEMORY),
    }
}
