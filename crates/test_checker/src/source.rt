//! Instructions of source text, with `; ` in place of the ends of lines; and how many words there are.
use asm_object::assemble;
use asm_read::read_source;
use eh_word::words::get_half;
use std::alloc::Global;
use test_rows::{Text, Unanswered};
use thumb_isa::decode::decode_for;
use thumb_isa::instr::{Decoded, Instr};
use thumb_isa::profile::Profile;

/// The number of words.
pub fn count_of(words: &str) -> u32 {
    let mut count = 0u32;
    for word in words.split(' ') {
        if !word.is_empty() {
            count = count.saturating_add(1);
        }
    }
    count
}

/// The source whose lines words write.
fn source_of(text: &mut Text, words: &str) -> Option<String> {
    let mut source = Text::new(text.alloc());
    for line in words.split("; ") {
        source.say(line);
        source.say("\n");
    }
    text.taken(source.finish())
}

/// The bytes that a source assembles to. None if it is refused.
fn assemble_text(alloc: Global, source: &str) -> Option<Vec<u8>> {
    let stmts = read_source(alloc, source.as_bytes()).ok()?;
    let object = assemble(alloc, stmts.as_slice()).ok()?;
    Some(object.text.into_vec())
}

/// The bytes of the instructions that words write.
pub fn code_of(text: &mut Text, words: &str) -> Option<Vec<u8>> {
    let source = source_of(text, words)?;
    let code = assemble_text(text.alloc(), source.as_str());
    if code.is_none() {
        text.refuse(Unanswered::Because("no code"));
    }
    code
}

/// The instruction at an offset in bytes, in the second profile, which has all of the first one's; and its size in bytes.
pub fn instruction_at(text: &mut Text, code: &[u8], at: usize) -> Option<(Instr, u32)> {
    let first = get_half(code, at).unwrap_or(0);
    let second = get_half(code, at.wrapping_add(2)).unwrap_or(0);
    match decode_for(Profile::Two, first, second) {
        Decoded::Is(i, size) => Some((i, size)),
        Decoded::Undefined | Decoded::Unpredictable | Decoded::NotInProfile => {
            text.refuse(Unanswered::Because("no instruction"));
            None
        }
    }
}

/// The first instruction that words write.
pub fn instruction(text: &mut Text, words: &str) -> Option<Instr> {
    let code = code_of(text, words)?;
    let (i, _size) = instruction_at(text, code.as_slice(), 0)?;
    Some(i)
}
