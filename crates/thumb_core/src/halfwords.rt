//! The halfwords of an instruction in memory (docs/rules/instructions.md, "One step").
ghost use Rattle.std.specs.Prelude.{◌≡◌, true, IfSome};
ghost use Rattle.thumb_core.specs.Standing.{HasHalfwords, IsPair};

use eh_bus::bus::Bus;
use thumb_isa::decode::is_wide;

/// The halfwords from which an instruction is decoded.
#[derive(Clone, Copy)]
pub struct Halfwords {
    /// The first halfword.
    pub first: u16,
    /// The second halfword; 0 if the first doesn't begin a 32-bit encoding.
    pub second: u16,
}

/// Fetches the halfwords at an address; None if one can't be fetched. The second, at `address` + 2, is fetched only if
/// the first begins a 32-bit encoding (DDI 0419).
#[inline(always)]
pub fn halfwords_at<B: Bus>(address: u32, bus: &B) -> Option<Halfwords>
    ensures { IfSome result (λ halfwords. HasHalfwords (B.memory bus.now) address halfwords) }
{
    let Ok(first) = bus.fetch16(address) else {
        return None;
    };
    if !is_wide(first) {
        return Some(Halfwords { first, second: 0 });
    }
    match bus.fetch16(address.wrapping_add(2)) {
        Ok(second) => Some(Halfwords { first, second }),
        Err(_) => None,
    }
}

/// Whether memory still holds these halfwords at an address. The second is ignored if the first doesn't begin a 32-bit
/// encoding.
#[inline(always)]
pub fn are_unchanged<B: Bus>(halfwords: &Halfwords, address: u32, bus: &B) -> bool
    ensures { result ≡ true → IsPair halfwords.now → HasHalfwords (B.memory bus.now) address halfwords.now }
{
    let Ok(first) = bus.fetch16(address) else {
        return false;
    };
    if first != halfwords.first {
        return false;
    }
    if !is_wide(halfwords.first) {
        return true;
    }
    let Ok(second) = bus.fetch16(address.wrapping_add(2)) else {
        return false;
    };
    if second != halfwords.second {
        return false;
    }
    true
}
