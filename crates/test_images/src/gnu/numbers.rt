//! LEB128 numbers. `BYTES` asks for the number at their start, and how many of them it takes.
use gnu_lsda::{SignedNumber, sleb128, uleb128_at};
use test_rows::Text;

/// Answers for an SLEB128 number.
pub fn say_sleb128(text: &mut Text, question: &str) {
    let bytes = text.bytes(question);
    match sleb128(&bytes, 0) {
        None => text.say("none"),
        Some((SignedNumber::Plus(n), next)) => write!(text, "{n} in {next}"),
        Some((SignedNumber::Minus(n), next)) => write!(text, "-{n} in {next}"),
    }
}

/// Answers for a ULEB128 number.
pub fn say_uleb128(text: &mut Text, question: &str) {
    let bytes = text.bytes(question);
    match uleb128_at(&bytes, 0) {
        None => text.say("none"),
        Some((n, next)) => write!(text, "{n} in {next}"),
    }
}
