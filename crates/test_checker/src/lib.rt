//! Runs the cases of checker/, in the data/ of test_layers_main, on the checker: effects of instructions on facts, prologues, sites, what
//! is reached, functions and images. Answers are by hand from docs/rules/acceptance.md and docs/rules/acceptance.md; instructions from DDI 0419 and DDI
//! 0553, words of the index and of tables from IHI 0038.
#![tactic(auto)]

mod accepted;
mod called;
mod causes;
mod effects;
mod facts;
mod frames;
mod laws;
mod prologues;
mod reached;
mod runs;
mod sites;
mod source;
mod verdicts;

use accepted::Accepting;
use called::Called;
use effects::Effects;
use frames::Frames;
use laws::laws_at_numbers;
use reached::Reaching;
use runs::Runs;
use sites::Sites;
use std::io::Error;
use test_rows::run_telling;

/// Runs all rows. Err if a file can't be read or the output fails.
pub fn run(host: &HostRuntime) -> Result<(), Error> {
    laws_at_numbers();
    run_telling(host, "checker/effects.txt", &Effects)?;
    run_telling(host, "checker/prologues.txt", &Runs)?;
    run_telling(host, "checker/sites.txt", &Sites)?;
    run_telling(host, "checker/reached.txt", &Reaching)?;
    run_telling(host, "checker/frames.txt", &Frames)?;
    run_telling(host, "checker/images.txt", &Accepting)?;
    run_telling(host, "checker/variable_frames.txt", &Called)?;
    run_telling(host, "checker/profiles.txt", &Called)
}
