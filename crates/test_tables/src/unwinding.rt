//! Unwinding by an inline entry over a stack of known words.
use eh_bus::bus::Bus;
use eh_bytecode::{Codes, CodesFault, UnwindEnd, Vrs, unwind};
use mem_buses::flat::FlatBus;
use test_rows::{Text, Unanswered, first_word};
use test_types::answers::{say_byte, say_number};
use test_types::stack::{lay, memory};

/// The stack pointer. 64 words follow from there up; the first is 100, and each is one more than the word below it.
const SP: u32 = 0x3FFF_F000;

/// `unwind WORD [SP [WORD..]]`: how the codes of an inline entry end, and the registers that they change. The further words are stored from
/// the stack pointer up. `codes BYTE..`: the bytes of a table's codes, or why there are none.
pub fn tell(text: &mut Text, question: &str) {
    let (what, rest) = first_word(question);
    match what {
        "unwind" => tell_unwound(text, rest),
        "codes" => {
            let bytes = text.bytes(rest);
            say_codes(text, &bytes);
        }
        _ => text.refuse(Unanswered::NotKnown),
    }
}

/// Why an entry has no unwind instructions.
pub fn fault_text(fault: CodesFault) -> &'static str {
    match fault {
        CodesFault::Short => "no codes: too short",
        CodesFault::Generic => "no codes: the generic model",
        CodesFault::Reserved => "no codes: reserved",
    }
}

fn say_codes(text: &mut Text, bytes: &[u8]) {
    match Codes::table(bytes) {
        Ok(codes) => say_bytes(text, codes),
        Err(fault) => text.say(fault_text(fault)),
    }
}

fn say_bytes(text: &mut Text, codes: Codes) {
    text.say("bytes");
    for byte in codes {
        say_byte(text, byte);
    }
}

fn tell_unwound(text: &mut Text, words: &str) {
    let (word, rest) = text.first_hex(words);
    match Codes::inline(word) {
        Ok(codes) => say_unwound(text, &codes, rest),
        Err(fault) => text.say(fault_text(fault)),
    }
}

/// Unwinds over a stack that has further words from the stack pointer up.
fn say_unwound(text: &mut Text, codes: &Codes, words: &str) {
    let (sp, words) = sp_of(text, words);
    if let Some(mut bus) = memory(text) {
        lay_known(&mut bus);
        lay(text, &mut bus, sp, words);
        say_unwound_over(text, codes, &bus, sp);
    }
}

/// The stack pointer that precedes further words.
fn sp_of<'a>(text: &mut Text, words: &'a str) -> (u32, &'a str) {
    if words.is_empty() {
        (SP, "")
    } else {
        text.first_hex(words)
    }
}

/// Stores the known words.
fn lay_known(bus: &mut FlatBus) {
    for k in 0..64u32 {
        let _done = bus.store32(SP + 4 * k, 0x100 + k);
    }
}

/// The registers: r0 to r12 and lr have numbers of their own, and pc another.
fn registers(sp: u32) -> [u32; 16] {
    let mut r = [0; 16];
    for k in 0..16u32 {
        r[k as usize] = 0x9000 + k;
    }
    r[13] = sp;
    r
}

/// Appends how codes end over a stack, and the registers that they change.
fn say_unwound_over(text: &mut Text, codes: &Codes, bus: &FlatBus, sp: u32) {
    let before = registers(sp);
    let mut vrs = Vrs { r: before };
    let end = unwind(codes, &mut vrs, bus);
    say_end(text, end);
    say_changed(text, &before, &vrs.r);
}

/// Appends how an unwinding ends.
fn say_end(text: &mut Text, end: UnwindEnd) {
    match end {
        UnwindEnd::Finished => text.say("finished"),
        UnwindEnd::Refused => text.say("refused"),
        UnwindEnd::BadCode(at) => write!(text, "bad code at {at}"),
        UnwindEnd::Unreadable(a) => say_number(text, "unreadable", a),
    }
}

/// Appends the registers that have changed.
pub fn say_changed(text: &mut Text, before: &[u32; 16], after: &[u32; 16]) {
    for k in 0..16usize {
        say_register(text, k, before[k], after[k]);
    }
}

fn say_register(text: &mut Text, k: usize, old: u32, new: u32) {
    if old != new {
        write!(text, " r{k}={new:X}");
    }
}
