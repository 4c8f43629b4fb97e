//! Images of three functions: what is known of the addresses of an accepted one, and which refusal comes first.
use crate::verdicts::{Placing, accept_in};
use frame_check::Accepted;
use test_rows::images::image_by;
use test_rows::{Telling, Text, Unanswered, first_word};

/// An image of three functions. To be filled in are the words of main's entry and of far's, where the second row begins, and further parts.
/// main is `push {r3, r4, lr}; movs r4, #1; bl leaf; pop {r3, r4, pc}` at 8000; leaf `bx lr` at 8010; far `push {r7, lr}; svc #18; pop {r7,
/// pc}` in a segment of its own at 20000000. The index is at 8100.
const IMAGE: &str =
    "entry 8000 ; index 8100 18 ; function main 8000 A ; function leaf 8010 2 ; function far 20000000 6 ; segment 8000 200 ; code 8000 B518 2401 F000 F804 BD18 ; code 8010 4770 ; words 8100 >8000 {} >{} 80B0B0B0 >20000000 {} ; segment 20000000 6 ; code 20000000 B580 DF12 BD80{}{}{}";

/// The words with which the image is accepted.
const WELL: &str = "8000A8B0 808408B0 8010";

/// A question about an image.
#[derive(Clone, Copy)]
enum Ask {
    Verdict,
    Address(u32),
    Type(u32),
    Whole,
}

/// Questions on images.
pub struct Accepting;

impl Telling for Accepting {
    fn tell(&self, text: &mut Text, question: &str) {
        let (what, words) = first_word(question);
        match what {
            "check" => say_image(text, words, Ask::Verdict),
            "address" => {
                let a = text.hex(words);
                say_image(text, WELL, Ask::Address(a));
            }
            "type" => {
                let a = text.hex(words);
                say_image(text, WELL, Ask::Type(a));
            }
            "whole" => say_image(text, WELL, Ask::Whole),
            _ => text.refuse(Unanswered::NotKnown),
        }
    }
}

/// `MAIN FAR SECOND [TYPE]`: the image with these words of main's entry and of far's, this start of the second row, and a type symbol.
fn file_of(text: &mut Text, words: &str) -> Option<Vec<u8>> {
    let (main, words) = first_word(words);
    let (far, words) = first_word(words);
    let (second, ty) = first_word(words);
    let (front, size) = if ty.is_empty() {
        ("", "")
    } else {
        (" ; object _ZTI1A ", " 8")
    };
    image_by(text, IMAGE, &[main, second, far, front, ty, size])
}

/// Appends the answer for the image with these words, or why it is refused.
fn say_image(text: &mut Text, words: &str, ask: Ask) {
    if let Some(file) = file_of(text, words) {
        say_file(text, file.as_slice(), ask);
    }
}

fn say_file(text: &mut Text, file: &[u8], ask: Ask) {
    if let Some(accepted) = accept_in(text, file, Placing::Addresses) {
        say_accepted(text, &accepted, ask);
    }
}

fn say_accepted(text: &mut Text, accepted: &Accepted, ask: Ask) {
    match ask {
        Ask::Verdict => text.say("accepted"),
        Ask::Address(a) => say_address(text, accepted, a),
        Ask::Type(a) => text.say(if accepted.types().holds(a) {
            "yes"
        } else {
            "no"
        }),
        Ask::Whole => say_whole(text, accepted),
    }
}

/// `address ADDRESS`: whether a checked instruction stands there, whether a function begins there, and its saves, as bits from the lowest
/// word up.
fn say_address(text: &mut Text, accepted: &Accepted, a: u32) {
    let saves = accepted.saves_at(a);
    let what = match (accepted.is_instr(a), accepted.is_function(a)) {
        (true, true) => "function",
        (true, false) => "instruction",
        (false, false) => "nothing",
        (false, true) => "no instruction",
    };
    text.say(what);
    text.say(", saves ");
    text.say_bits(saves);
}

/// `whole`: the entry, and how many rows the index has.
fn say_whole(text: &mut Text, accepted: &Accepted) {
    text.say("entry ");
    text.say_hex(accepted.image().entry());
    text.say(", ");
    text.say_count(accepted.index().len());
    text.say(" rows");
}
