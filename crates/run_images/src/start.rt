//! The registers at the start of a run.
ghost use Rattle.std.specs.Prelude.{◌≡◌};
ghost use Rattle.run_images.specs.Start.{start_regs};

use eh_bus::map::STACK_END;
use run_gates::NO_CALLER;
use thumb_core::regs::Regs;

/// The registers at the start of a run: sp is the end of the stack, lr the address that ends the run, and all others
/// are 0.
pub fn start_regs(pc: u32) -> Regs
    ensures { result ≡ start_regs pc }
{
    Regs {
        r: [0, 0, 0, 0, 0, 0, 0, 0, 0, 0, 0, 0, 0, STACK_END, NO_CALLER],
        pc,
        n: false,
        z: false,
        c: false,
        v: false,
    }
}
