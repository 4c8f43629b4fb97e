//! The profile by which an image is decoded (docs/rules/instructions.md, "Profiles").
ghost use Rattle.std.specs.Prelude.{◌≡◌};
ghost use Rattle.run_images.specs.Profiles.{profile_of, SecondIsNamed};

use elf_image::image::Image;
use thumb_isa::profile::Profile;

/// The symbol by which an image asks for the second profile.
pub const PROFILE_SYMBOL: &[u8] = b"__ehabi_profile";

/// The word at that symbol in an image of the second profile.
pub const SECOND_PROFILE: u32 = 2;

/// The profile of an image. It is the second exactly if the image has the symbol `__ehabi_profile` and `read_word` at
/// its address gives 2. Searches all symbols; allocates nothing.
#[tactic(auto, unfolding(crate::specs::Profiles::profile_of))]
pub fn profile_of(image: &Image) -> Profile
    ensures { result ≡ profile_of image.now }
{
    let Some(at) = image.symbol(PROFILE_SYMBOL) else {
        return Profile::One;
    };
    match image.read_word(at) {
        Some(SECOND_PROFILE) => Profile::Two,
        _ => Profile::One,
    }
}

/// An image is of the second profile exactly if its first symbol named `__ehabi_profile` is the address of a word 2 in
/// the bytes of a read-only segment. So an image without that symbol is of the first.
pub fn second_is_named()
    ensures { SecondIsNamed }
{}
