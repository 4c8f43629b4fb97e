//! The entry point of `ehabi_run`; the work is in `host`. Words and statuses are those of docs/guide/command-line.md.
#![tactic(auto)]

mod host;

use crate::host::program;
use std::process::ExitCode;

fn main(host: HostRuntime) -> ExitCode {
    program(&host)
}
