//! Runs the cases of audit/, in the data/ of test_layers_main, on audits of images, and on what `ehabi_audit` writes of them. Answers are
//! by hand from docs/guide/audit.md, docs/rules/acceptance.md and docs/rules/acceptance.md.
#![tactic(auto)]

mod audits;
mod findings;
mod reports;

use audits::Audits;
use reports::Reports;
use std::io::Error;
use test_rows::run_telling;

/// Runs all rows. Err if a file can't be read or the output fails.
pub fn run(host: &HostRuntime) -> Result<(), Error> {
    run_telling(host, "audit/audits.txt", &Audits)?;
    run_telling(host, "audit/reports.txt", &Reports { host })
}
