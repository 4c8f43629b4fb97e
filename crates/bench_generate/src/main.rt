//! Prints the source text of a generated program (docs/guide/command-line.md). Its two words are the program's number and how many
//! functions it has. For other words it prints nothing and ends with status 2.
#![tactic(auto)]

use eh_kit::{KitMemory, MAX_FUNCTIONS, generate};
use std::env;
use std::process::ExitCode;
use std::str::from_utf8;

/// The status for words that name no program.
const USAGE: u8 = 2;
/// The status if there is no memory or the text can't be written.
const FAILED: u8 = 1;

/// The program's number and number of functions, if the words after the program's name are these two.
fn parse_arguments(host: &HostRuntime) -> Option<(u32, u32)> {
    let mut args = env::args(host).ok()?;
    let _name = args.next()?;
    let number = args.next()?.as_str().parse().ok()?;
    let functions = args.next()?.as_str().parse().ok()?;
    if args.next().is_none() {
        Some((number, functions))
    } else {
        None
    }
}

fn print_text(host: &HostRuntime, text: &[u8]) -> bool {
    match from_utf8(text) {
        Ok(text) => print!(host; "{text}").is_ok(),
        Err(_) => false,
    }
}

fn status(host: &HostRuntime) -> u8 {
    let Some((number, functions)) = parse_arguments(host) else {
        return USAGE;
    };
    if functions == 0 || functions > MAX_FUNCTIONS {
        return USAGE;
    }
    match generate(host.alloc(), number, functions) {
        Ok(text) if print_text(host, text.as_slice()) => 0,
        Ok(_) | Err(KitMemory::OutOfMemory) => FAILED,
    }
}

fn main(host: HostRuntime) -> ExitCode {
    ExitCode::from(status(&host))
}
