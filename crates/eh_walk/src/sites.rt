//! The site of a state's innermost frame (docs/guide/walks-and-threads.md, "Sites").
ghost use Rattle.std.specs.Prelude.{◌≡◌};
ghost use Rattle.sim_machines.specs.Checked.{program_of};
ghost use Rattle.eh_walk.specs.Sites.{site_by, site_state};

use eh_bus::bus::Bus;
use eh_machine::{Core, Shared};
use frame_check::Accepted;
use thumb_core::step::fetch_for;
use thumb_isa::instr::Instr;

/// The site of an instruction at an address. For an SVC and BLX it is the address, for BL that of its second halfword. No other instruction
/// has one.
fn site_by(pc: u32, i: Instr) -> Option<u32>
    ensures { result ≡ site_by pc i }
{
    if let Instr::Bl { .. } = i {
        return Some(pc.wrapping_add(2));
    }
    if let Instr::Blx { .. } = i {
        return Some(pc);
    }
    if let Instr::Svc { .. } = i {
        return Some(pc);
    }
    None
}

/// The site at which a state stands, by the rows of the image's profile. None if the checker reached no instruction at pc, and if the
/// instruction in memory there is no SVC and no call.
#[tactic(auto, unfolding(crate::specs::Sites::site_state))]
pub fn site<B: Bus>(a: &Accepted, core: &Core, shared: &Shared<B>) -> Option<u32>
    ensures { result ≡ site_state (program_of a.now) core.now.regs (B.memory shared.now.bus) }
{
    if !a.is_instr(core.regs.pc) {
        return None;
    }
    match fetch_for(a.profile(), &core.regs, &shared.bus) {
        Err(_) => None,
        Ok((i, _)) => site_by(core.regs.pc, i),
    }
}
