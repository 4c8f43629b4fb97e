//! Images, and what an audit finds in them (docs/guide/audit.md).
use crate::findings::{say_findings, say_refused};
use frame_audit::{AuditFault, audit_image};
use test_rows::images::{image_by, image_of_text, open_image_in};
use test_rows::{Telling, Text, Unanswered, first_word};

/// An image of three functions. To be filled in are the words of main's entry and of far's, where the second row begins, and further parts.
/// main is `push {r3, r4, lr}; movs r4, #1; bl leaf; pop {r3, r4, pc}`, leaf `bx lr`, and far `push {r7, lr}; svc #18; pop {r7, pc}`.
const ROWS: &str =
    "entry 8000 ; index 8100 18 ; function main 8000 A ; function leaf 8010 2 ; function far 20000000 6 ; segment 8000 200 ; code 8000 B518 2401 F000 F804 BD18 ; code 8010 4770 ; words 8100 >8000 {} >{} 80B0B0B0 >20000000 {} ; segment 20000000 6 ; code 20000000 B580 DF12 BD80{}{}{}";

/// An image where main's entry is generic. To be filled in are leaf's code, the words of the entry's record and its action, the word of
/// leaf's row and further parts. main is as above, followed by its landing pad `pop {r3, r4, pc}`; the type is int. The word at 80A8 begins
/// a generic entry of another routine.
const GENERIC: &str =
    "entry 8000 ; vtables ; index 80C0 18 ; function main 8000 C ; function leaf 8010 2 ; function __gxx_personality_v0 8012 2 ; object _ZTIi 80B0 8 ; segment 8000 100 ; thumb 8000 ; data 8014 ; code 8000 B518 2401 F000 F804 BD18 BD18 ; code 8010 {} 4770 ; words 8090 >8012 A8B0 10D00FF {} {} C >8010 B0B0B0 fundamental 80B8 ; names 80B8 i ; words 80C0 >8000 >8090 >8010 {} >8012 1{}{}";

/// The address of the first function of `many`.
const MANY: u32 = 0x8000;

/// Questions on audits.
pub struct Audits;

impl Telling for Audits {
    fn tell(&self, text: &mut Text, question: &str) {
        if let Some(file) = file_of(text, question) {
            say_file(text, file.as_slice());
        }
    }
}

/// The file of the image that a question describes.
pub fn file_of(text: &mut Text, question: &str) -> Option<Vec<u8>> {
    let (what, rest) = first_word(question);
    match what {
        "rows" => rows(text, rest),
        "image" => image_by(text, rest, &[]),
        "generic" => generic(text, rest),
        "many" => many(text, rest),
        "long" => long(text, rest),
        _ => {
            text.refuse(Unanswered::NotKnown);
            None
        }
    }
}

/// `rows MAIN FAR SECOND [TYPE]`: an image with these words of main's entry and of far's, this start of the second row, and a type symbol.
fn rows(text: &mut Text, words: &str) -> Option<Vec<u8>> {
    let (main, words) = first_word(words);
    let (far, words) = first_word(words);
    let (second, ty) = first_word(words);
    let (front, size) = if ty.is_empty() {
        ("", "")
    } else {
        (" ; object _ZTI1A ", " 8")
    };
    image_by(text, ROWS, &[main, second, far, front, ty, size])
}

/// `generic SITE ACTION LEAF ROW [PART ; ..]`: an image where main has a generic entry with these words of its record and its action, leaf
/// has this code and this word in its row, and there are further parts.
fn generic(text: &mut Text, words: &str) -> Option<Vec<u8>> {
    let (site, words) = first_word(words);
    let (action, words) = first_word(words);
    let (leaf, words) = first_word(words);
    let (row, parts) = first_word(words);
    let between = if parts.is_empty() { "" } else { " ; " };
    image_by(text, GENERIC, &[leaf, site, action, row, between, parts])
}

/// `many N`: an image of N functions of one name, each `mov pc, r0`, and no index.
fn many(text: &mut Text, words: &str) -> Option<Vec<u8>> {
    let count = text.decimal(words);
    let mut image = Text::new(text.alloc());
    image.say("entry 8000");
    for i in 0..count {
        image.say(" ; function f ");
        image.say_hex(MANY.wrapping_add(i.wrapping_mul(2)));
        image.say(" 2");
    }
    image.say(" ; segment 8000 ");
    image.say_hex(count.wrapping_mul(2));
    image.say(" ; code 8000");
    for _i in 0..count {
        image.say(" 4687");
    }
    image_of_text(text, image)
}

/// `long N`: an image of one function, `mov pc, r0`, with a name of N bytes, and no index.
fn long(text: &mut Text, words: &str) -> Option<Vec<u8>> {
    let count = text.decimal(words);
    let mut image = Text::new(text.alloc());
    image.say("entry 8000 ; function ");
    for _i in 0..count {
        image.say("f");
    }
    image.say(" 8000 2 ; segment 8000 2 ; code 8000 4687");
    image_of_text(text, image)
}

/// Appends what an audit finds in the image of a file.
fn say_file(text: &mut Text, file: &[u8]) {
    let Some(image) = open_image_in(text, file) else {
        return;
    };
    match audit_image(text.alloc(), &image) {
        Ok(audit) => say_findings(text, &audit),
        Err(AuditFault::Index(fault)) => say_refused(text, fault),
        Err(AuditFault::OutOfMemory) => text.want_memory(),
    }
}
