//! What a question gives a core: a program, registers and flags, a number of steps, and the words of memory to be shown.
use crate::instructions::decoding::halfword;
use test_rows::{Pieces, Text, Unanswered};
use thumb_core::regs::Regs;

/// The address of the program.
pub const PROGRAM: u32 = 0x8000;

/// The state that a core begins with.
#[derive(Drop)]
pub struct CoreStart {
    /// The bytes of the program.
    pub code: Vec<u8>,
    /// The registers and flags.
    pub regs: Regs,
    /// How many steps it does.
    pub steps: u32,
    /// The addresses of the words to be shown afterwards.
    pub asked: Vec<u32>,
}

/// Registers and flags, all zero; pc is the program's address.
fn zeros() -> Regs {
    Regs {
        r: [0; 15],
        pc: PROGRAM,
        n: false,
        z: false,
        c: false,
        v: false,
    }
}

/// The four bits of a word of a question.
fn bits(text: &mut Text, word: &str) -> u8 {
    match u8::from_str_radix(word, 2) {
        Ok(bits) => bits,
        Err(_why) => {
            text.refuse(Unanswered::NotNumber);
            0
        }
    }
}

/// Sets the flags N, Z, C and V by four bits, highest first.
fn set_flags(regs: &mut Regs, bits: u8) {
    regs.n = bits / 8 % 2 == 1;
    regs.z = bits / 4 % 2 == 1;
    regs.c = bits / 2 % 2 == 1;
    regs.v = bits % 2 == 1;
}

/// The number of a register, `r0` to `r14`.
fn register(text: &mut Text, name: &str) -> usize {
    match name.strip_prefix("r") {
        Some(number) => text.decimal(number) as usize,
        None => {
            text.refuse(Unanswered::NotKnown);
            0
        }
    }
}

/// Sets the register of this name.
fn set_register(text: &mut Text, regs: &mut Regs, name: &str, value: u32) {
    let register = register(text, name);
    if register < 15 {
        regs.r[register] = value;
    } else {
        text.refuse(Unanswered::NotKnown);
    }
}

/// Asks for the word at an address.
fn ask(text: &mut Text, asked: &mut Vec<u32>, address: u32) {
    if asked.push(address).is_err() {
        text.want_memory();
    }
}

/// Reads `WHAT=VALUE`, except for the flags.
fn apply_setting(text: &mut Text, start: &mut CoreStart, what: &str, value: u32) {
    match what {
        "steps" => start.steps = value,
        "pc" => start.regs.pc = value,
        "at" => ask(text, &mut start.asked, value),
        _ => set_register(text, &mut start.regs, what, value),
    }
}

/// Reads `WHAT=VALUE`.
fn take_setting(text: &mut Text, start: &mut CoreStart, what: &str, value: &str) {
    if what == "flags" {
        set_flags(&mut start.regs, bits(text, value));
    } else {
        let value = text.hex(value);
        apply_setting(text, start, what, value);
    }
}

/// Adds a halfword of the program.
fn push_halfword(text: &mut Text, start: &mut CoreStart, word: &str) {
    let halfword = halfword(text, word);
    text.note(start.code.extend_from_slice(&halfword.to_le_bytes()));
}

impl Pieces for CoreStart {
    /// Reads a word of a question: a halfword of the program, or `WHAT=VALUE`.
    fn tell_piece(&mut self, text: &mut Text, piece: &str) {
        match piece.split_once('=') {
            None => push_halfword(text, self, piece),
            Some((what, value)) => take_setting(text, self, what, value),
        }
    }
}

/// The state that a question gives: halfwords of a program, `r0=VALUE` to `r14=VALUE`, `pc=VALUE`, `flags=NZCV` by bits, `steps=COUNT`, and
/// `at=ADDRESS` for each word to be shown.
pub fn start_of(text: &mut Text, question: &str) -> CoreStart {
    let mut start = CoreStart {
        code: Vec::new(text.alloc()),
        regs: zeros(),
        steps: 1,
        asked: Vec::new(text.alloc()),
    };
    text.tell_pieces(&mut start, question, " ");
    start
}
