//! What the machine asks of an accepted image besides its look-ups (docs/rules/machine.md).
ghost use Rattle.std.specs.Prelude.{◌≡◌};
ghost use Rattle.elf_image.specs.Image.{IsSound as IsImage};
ghost use Rattle.frame_check.specs.Accepts.{IsSound};

use eh_phase::Tables;
use frame_check::Accepted;

/// The image's index and its types, as the exception runtime takes them.
pub fn tables<'b, 'a>(a: &'b Accepted<'a>) -> Tables<'b, 'a>
    ensures index { result.index ≡ a.now.image }
    ensures types { result.types.now ≡ a.now.types }
{
    Tables {
        index: a.index(),
        types: a.types(),
    }
}

/// Tells the prover what holds of every accepted image and of what the checker found.
pub(crate) fn holds(a: &Accepted)
    ensures image { IsImage a.now.image }
    ensures sound { IsSound a.now }
{
    a.holds();
    let _ = a.image().functions();
}
