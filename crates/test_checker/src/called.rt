//! A function v that main calls, in a whole image: at which of its addresses sp is lowered by an amount that is known only at run time, and
//! by which profile v is decoded.
use crate::source::count_of;
use crate::verdicts::{Placing, accept_in};
use test_rows::images::image_of_text;
use test_rows::{Telling, Text, first_word};

/// The address of v.
const CALLED: u32 = 0x8010;

/// The part before v's size. main is `push {r4, lr}; movs r0, #16; bl v; pop {r4, pc}` at 8000; `subs r3, r3, r0` follows at 800E, in no
/// function.
const FRONT: &str = "entry 8000 ; index 8100 18 ; function main 8000 A ; function v 8010 ";

/// The part after v's size: the symbol at 80F0 that tells the profile, v, the profile's word and that of v's row. f is `bx lr` at 8080, and
/// the index is at 8100.
const AFTER: &str =
    "{} ; function f 8080 2 ; segment 8000 200 ; code 8000 B510 2010 F000 F804 BD10 BF00 BF00 1A1B ; code 8010 {} ; code 8080 4770 ; words 80F0 {} ; words 8100 >8000 80A8B0B0 >8010 {} >8080 80B0B0B0";

/// Questions on v.
pub struct Called;

impl Telling for Called {
    /// `PROFILE ENTRY ; HALFWORDS`: the word at the symbol `__ehabi_profile`, or `-` for no symbol; the word of v's row; and v.
    fn tell(&self, text: &mut Text, question: &str) {
        let (profile, rest) = first_word(question);
        let (entry, code) = rest.split_once(" ; ").unwrap_or((rest, ""));
        let size = count_of(code).wrapping_mul(2);
        if let Some(file) = file_of(text, profile, entry, code, size) {
            say_file(text, file.as_slice(), size);
        }
    }
}

fn file_of<'a>(
    text: &mut Text,
    profile: &'a str,
    entry: &'a str,
    code: &'a str,
    size: u32,
) -> Option<Vec<u8>> {
    let (symbol, word) = if profile == "-" {
        ("", "0")
    } else {
        (" ; object __ehabi_profile 80F0 4", profile)
    };
    let mut image = Text::new(text.alloc());
    image.say(FRONT);
    image.say_hex(size);
    image.fill(AFTER, &[symbol, code, word, entry]);
    image_of_text(text, image)
}

/// Appends which addresses of v are lowering places, or why the image is refused.
fn say_file(text: &mut Text, file: &[u8], size: u32) {
    let Some(accepted) = accept_in(text, file, Placing::Distance) else {
        return;
    };
    text.say("accepted");
    for offset in 0..size {
        if accepted.lowers_at(CALLED.wrapping_add(offset)) {
            text.say(", lowers at v+");
            text.say_hex(offset);
        }
    }
}
