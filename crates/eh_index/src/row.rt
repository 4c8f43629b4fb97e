//! The rows of an index (docs/rules/unwind-tables.md).
ghost use Rattle.std.specs.Prelude.{◌≡◌, ◌+◌, ◌*◌, ◌≤◌, length};
ghost use Rattle.eh_codes.specs.declared.row.TheConstants.{ROW_SIZE};
ghost use Rattle.eh_index.specs.Rows.{first_word, second_word, entry_at};

use byteorder::{ByteOrder, LittleEndian};
use eh_codes::row::{Entry, ROW_SIZE, entry_of, even};
use eh_word::prel31;
use elf_image::image::Image;

/// The first word of row `k`.
pub(crate) fn first_word(image: &Image, k: u32) -> u32
    requires { ROW_SIZE * k + ROW_SIZE ≤ length image.now.index_bytes }
    ensures { result ≡ first_word image.now k }
{
    LittleEndian::read_u32(&image.index_bytes()[ROW_SIZE as usize * k as usize..])
}

/// The second word of row `k`.
fn second_word(image: &Image, k: u32) -> u32
    requires { ROW_SIZE * k + ROW_SIZE ≤ length image.now.index_bytes }
    ensures { result ≡ second_word image.now k }
{
    LittleEndian::read_u32(&image.index_bytes()[ROW_SIZE as usize * k as usize + 4..])
}

/// The start of row `k`, which its first word gives.
#[tactic(auto, using(crate::proofs::Places::places))]
pub(crate) fn start_at(image: &Image, k: u32) -> u32
    requires { ROW_SIZE * k + ROW_SIZE ≤ length image.now.index_bytes }
    ensures { result ≡ (entry_at image.now k).start }
{
    let place = image.index_start() + ROW_SIZE * k;
    even(prel31(place, first_word(image, k)))
}

/// Row `k` as an unwind entry.
#[tactic(auto, using(crate::proofs::Places::places))]
pub(crate) fn entry_at(image: &Image, k: u32) -> Entry
    requires { ROW_SIZE * k + ROW_SIZE ≤ length image.now.index_bytes }
    ensures { result ≡ entry_at image.now k }
{
    let place = image.index_start() + ROW_SIZE * k;
    entry_of(place, first_word(image, k), second_word(image, k))
}
