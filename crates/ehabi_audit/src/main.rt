//! The entry point of `ehabi_audit`; the work is in `host`. Words and statuses are those of docs/guide/audit.md.
#![tactic(auto)]

mod host;

use crate::host::program;
use std::process::ExitCode;

fn main(host: HostRuntime) -> ExitCode {
    program(&host)
}
