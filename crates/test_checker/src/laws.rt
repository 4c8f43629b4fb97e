//! The laws of dataflow, at a concrete kind of facts: this shows that they can be called.
ghost use Rattle.std.specs.Prelude.{◌≡◌};

use frame_dataflow::{Vagueness, valid_facts_bound, valid_facts_decide};

/// Numbers, none of which is less precise than another.
struct Numbers;

impl Vagueness<u8> for Numbers {
    ghost at_most = { λ a b. a ≡ b };
}

/// The laws for numbers.
pub fn laws_at_numbers() {
    valid_facts_bound::<u8, u8, Numbers>();
    valid_facts_decide::<u8, u8, Numbers>();
}
