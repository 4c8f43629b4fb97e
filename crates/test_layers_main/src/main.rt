//! Runs the cases of layers: it asks the rows of each folder of data/, through the public calls of its layer. Writes what differs, and of
//! each file how many rows are right.
#![tactic(auto)]

use std::io::Error;

fn main(host: HostRuntime) -> Result<(), Error> {
    test_core::words::run(&host)?;
    test_core::instructions::run(&host)?;
    test_images::images::run(&host)?;
    test_exceptions::run(&host)?;
    test_core::threads::run(&host)?;
    test_images::gnu::run(&host)?;
    test_tables::run(&host)?;
    test_sources::run(&host)?;
    test_checker::run(&host)?;
    test_audit::run(&host)
}
