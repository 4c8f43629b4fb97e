//! Whether a function begins at an address.
ghost use Rattle.std.specs.Prelude.{◌≡◌, ◌<◌, Some, length, option_map, slice_get};
ghost use Rattle.elf_image.specs.Functions.{Function as Range};
ghost use Rattle.run_images.specs.Start.{begins_function};

use elf_image::function::Function;
use elf_image::image::Image;

/// The start of a function by its number.
fn start_of(functions: &[Function], number: usize) -> u32
    requires { number < length functions.now }
    ensures { option_map (λ (f : Range). f.start) (slice_get functions.now number) ≡ Some result }
{
    functions[number].start()
}

/// Whether a function begins at an address.
pub fn begins_function(image: &Image, a: u32) -> bool
    ensures { result ≡ begins_function image.now.functions a }
{
    let functions = image.functions();
    match image.function_of(a) {
        None => false,
        Some(number) => start_of(functions, number) == a,
    }
}
