//! Indexes of three rows at 0x8018. The segment begins at 0x8000: 16 bytes of code, a table at 0x8010, the rows, one byte more, and one
//! byte of memory that the file doesn't have.
use crate::images::answers::tell_of_image;
use test_rows::images::image_by;
use test_rows::{Text, first_word};

/// The rows: 8000 with an inline entry, 8008 with a table, 8010 with neither. Their size precedes them.
const ROWS: &str = "18 >8000 8001A8B0 >8008 >8010 >8010 1";

/// The image, in which the index's words and size are to be filled in.
const FORM: &str =
    "entry 8000 ; function _start 8000 10 ; segment 8000 32 ; words 8010 80A8B0B0 0 {} ; text 8030 . ; index 8018 {}";

/// `read SIZE WORDS`: what is read of an index of SIZE bytes that begins with these words. `find ADDRESS` and `table ADDRESS`: the same in
/// one of three rows.
pub fn tell(text: &mut Text, question: &str) {
    let (what, rest) = first_word(question);
    let index = if what == "read" { rest } else { ROWS };
    let (size, words) = first_word(index);
    if let Some(file) = image_by(text, FORM, &[words, size]) {
        tell_of_image(text, &file, what, rest);
    }
}
