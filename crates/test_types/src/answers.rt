//! Answers in words.
use test_rows::Text;

/// Appends a name and a number after it, in hexadecimal digits.
pub fn say_number(text: &mut Text, name: &str, number: u32) {
    text.say(name);
    text.say(" ");
    text.say_hex(number);
}

/// Appends `yes` or `no`.
pub fn say_yes_or_no(text: &mut Text, is_so: bool) {
    text.say(if is_so { "yes" } else { "no" });
}

/// Appends a piece if something holds.
pub fn say_if(text: &mut Text, holds: bool, piece: &str) {
    if holds {
        text.say(piece);
    }
}

/// Appends a byte as two hexadecimal digits, after a space if something precedes it.
pub fn say_byte(text: &mut Text, byte: u8) {
    text.say_between(" ");
    write!(text, "{byte:02X}");
}
