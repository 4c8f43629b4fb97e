//! Writes the words that its system gives it, one a line between brackets, and ends with their number as the status. So a dropped word,
//! even an empty one, shows in both. What every program is given, and how it ends, is on the page docs/rules/memory.md.
#![tactic(auto)]

use cmd_words::{after_name, exit_code, words_of};
use std::io::Error;
use std::process::ExitCode;

/// Writes the words, and returns their number.
fn tell(host: &HostRuntime) -> Result<u8, Error> {
    let words = words_of(host)?;
    let told = after_name(&words);
    for word in told {
        println!(host; "[{word}]")?;
    }
    Ok(u8::try_from(told.len()).unwrap_or(u8::MAX))
}

fn main(host: HostRuntime) -> ExitCode {
    match tell(&host) {
        Ok(count) => exit_code(Ok(count)),
        Err(_fault) => ExitCode::FAILURE,
    }
}
