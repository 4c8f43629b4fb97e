//! An image with a table and an index of eight functions, and the places in it at which throws begin.
//!
//! The functions: main at 0x8000 with a table at 0x9000; f at 0x801C, which saves r4 and lr; the stub of a throw at 0x8040, which saves
//! nothing; the start at 0x8050, like f; one at 0x8060 whose unwind instructions lower the stack pointer; one at 0x8070 that saves only lr;
//! one at 0x8080 whose frame has 0x100 bytes; and no function from 0x8090 on.
use eh_bus::bus::Bus;
use eh_bytecode::Vrs;
use mem_buses::flat::FlatBus;
use test_rows::Text;
use test_types::stack::lay;

/// The image, in which the words of main's table are to be filled in.
pub const FORM: &str =
    "entry 8000 ; index 9100 40 ; function _start 8000 10 ; segment 8000 2000 ; words 9000 {} ; words 9100 >8000 >9000 >801C 80A8B0B0 >8040 80B0B0B0 >8050 80A8B0B0 >8060 8040B0B0 >8070 808400B0 >8080 803FB0B0 >8090 1";

/// The place where a phase begins.
#[derive(Clone, Copy)]
pub struct PhaseStart {
    /// The registers of the innermost frame.
    pub vrs: Vrs,
    /// Its site.
    pub site: u32,
}

/// The start of `SP LR SITE`; the other registers are 33.
pub fn start_of(text: &mut Text, words: &str) -> PhaseStart {
    let (sp, rest) = text.first_hex(words);
    let (lr, site) = text.first_hex(rest);
    let site = text.hex(site);
    let mut r = [0x33; 16];
    r[13] = sp;
    r[14] = lr;
    PhaseStart {
        vrs: Vrs { r },
        site,
    }
}

/// Stores the stack of a throw from f: r4 and lr of f, of main and of the start.
pub fn lay_frames(text: &mut Text, bus: &mut FlatBus) {
    lay(text, bus, 0x3FFF_FFE8, "11 8007 22 8057 0 FFFFFFFF");
}

/// Fills the 65,536 bytes of the stack with copies of one word.
pub fn flood(bus: &mut FlatBus, word: u32) {
    for k in 0..0x4000u32 {
        let _done = bus.store32(0x3FFF_0000 + 4 * k, word);
    }
}
