//! Laws on the difference of the two profiles (docs/rules/instructions.md, "Profiles").
ghost use Rattle.thumb_isa.specs.Laws.{AddsToUndefined, LateAreUndefined, AddsFive, FirstHasNone};

/// The second profile gives new meanings only to pairs that are undefined in the first.
#[tactic(auto, using(crate::proofs::BothProfiles::adds_to_undefined))]
pub fn second_adds_to_undefined()
    ensures { AddsToUndefined }
{}

/// A pair that fits a row of the second profile's own is undefined in the first.
#[tactic(auto, using(crate::proofs::BothProfiles::late_are_undefined))]
pub fn late_rows_are_undefined()
    ensures { LateAreUndefined }
{}

/// The second profile's instructions are those of the first, and the five of its own rows, with fields in range.
#[tactic(auto, using(crate::proofs::LateFields::adds_five))]
pub fn second_adds_five()
    ensures { AddsFive }
{}

/// The first profile never decodes to one of those five.
#[tactic(auto, using(crate::proofs::LateFields::first_has_none))]
pub fn first_has_none()
    ensures { FirstHasNone }
{}
