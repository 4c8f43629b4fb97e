//! Runs the cases of core/, in the data/ of test_layers_main, on the decoder and the core. A line is a question, ` : ` and its answer, by
//! hand from the Armv6-M Architecture Reference Manual (DDI 0419), and from the Armv8-M one (DDI 0553) for rows of the second profile.
//! Writes what differs, and of each file how many lines are right.

mod decoding;
mod shown;
mod start;
mod steps;

use decoding::{BothProfiles, Decoding, Widths};
use std::io::Error;
use steps::Steps;
use test_rows::run_telling;
use thumb_isa::profile::Profile;

/// Asks all rows.
pub fn run(host: &HostRuntime) -> Result<(), Error> {
    run_telling(host, "core/instructions.txt", &Decoding)?;
    run_telling(host, "core/no_instructions.txt", &Decoding)?;
    run_telling(host, "core/widths.txt", &Widths)?;
    run_telling(host, "core/both_profiles.txt", &BothProfiles)?;
    let first = Steps {
        profile: Profile::One,
    };
    let second = Steps {
        profile: Profile::Two,
    };
    run_telling(host, "core/flags.txt", &first)?;
    run_telling(host, "core/programs.txt", &first)?;
    run_telling(host, "core/second_profile.txt", &second)
}
