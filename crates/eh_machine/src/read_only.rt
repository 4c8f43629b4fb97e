//! Whether the memory may be written where code stands (docs/rules/machine.md, "An event").
ghost use Rattle.std.specs.Prelude.{◌≡◌, true};
ghost use Rattle.eh_bus.specs.Map.{IsFixed};
ghost use Rattle.thumb_core.specs.Standing.{HasHalfwords};
ghost use Rattle.eh_machine.specs.Cached.{StandFast};

use eh_bus::bus::Bus;
use eh_bus::fault::BusFault;
use thumb_core::halfwords::Halfwords;
use thumb_isa::decode::is_wide;

/// Whether the halfword at an address lies in a segment that may not be written. Only a store tells that, so the value that stands there is
/// stored again: the store is refused, or changes nothing.
fn is_read_only<B: Bus>(address: u32, bus: &mut B) -> bool
    ensures same { B.memory bus.new ≡ B.memory bus.old }
    ensures fixed { result ≡ true → IsFixed 2 (B.memory bus.old).segments address }
{
    let Ok(value) = bus.load16(address) else {
        return false;
    };
    match bus.store16(address, value) {
        Err(BusFault::ReadOnly(_)) => true,
        Err(_) => false,
        Ok(()) => {
            // the second store restores what stood there before the first
            let _ = bus.store16(address, value);
            false
        }
    }
}

/// Whether these halfwords at an address are the same in every memory with the same segments.
pub(crate) fn are_read_only<B: Bus>(halfwords: &Halfwords, address: u32, bus: &mut B) -> bool
    ensures same { B.memory bus.new ≡ B.memory bus.old }
    ensures fast { result ≡ true → HasHalfwords (B.memory bus.old) address halfwords.now → StandFast (B.memory bus.old) address halfwords.now }
{
    if !is_read_only(address, bus) {
        return false;
    }
    if !is_wide(halfwords.first) {
        return true;
    }
    is_read_only(address.wrapping_add(2), bus)
}
