//! The gates by which a program allocates, throws, catches and cleans up (IHI 0038, IHI 0041; docs/rules/machine.md): their effect on
//! registers, memory, globals and events. The gates 0 to 2, which every machine has, are those of run_gates.
#![tactic(auto)]

pub mod calls;
pub mod gates;
pub mod landing;
pub mod laws;
pub mod resuming;
pub mod state;
pub mod throwing;

pub use gates::gate;
pub use state::{Core, Turned};
pub use throwing::throw_to;
