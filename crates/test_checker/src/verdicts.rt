//! Images that are checked whole, and why one is refused.
use crate::causes::say_cause;
use eh_index::IndexFault;
use eh_types::TypeFault;
use frame_check::{Accepted, CheckFault, Rejected, check};
use test_rows::Text;
use test_rows::images::open_image_in;

/// How the place of a cause is written.
#[derive(Clone, Copy)]
pub enum Placing {
    /// As the addresses of the function and of the cause.
    Addresses,
    /// As the offset in bytes of the cause from the function's start.
    Distance,
}

/// Appends the place of the cause why a function is refused.
fn say_place(text: &mut Text, start: u32, at: u32, placing: Placing) {
    match placing {
        Placing::Addresses => {
            text.say(" of ");
            text.say_hex(start);
            text.say(" at ");
            text.say_hex(at);
        }
        Placing::Distance => {
            text.say("+");
            text.say_hex(at.wrapping_sub(start));
        }
    }
}

fn say_rejected(text: &mut Text, rejected: &Rejected, placing: Placing) {
    text.say_ascii(rejected.function.bytes());
    say_place(text, rejected.start, rejected.at, placing);
    text.say(": ");
    say_cause(text, rejected.cause);
}

/// The row that a refusal of the index names.
fn row_of(fault: IndexFault) -> Option<u32> {
    match fault {
        IndexFault::OutsideImage(row) | IndexFault::Unsorted(row) => Some(row),
        IndexFault::Length => None,
    }
}

/// The type that a refusal of types names.
fn type_of(fault: TypeFault) -> Option<u32> {
    match fault {
        TypeFault::Unreadable(a)
        | TypeFault::Writable(a)
        | TypeFault::NameTooLong(a)
        | TypeFault::Cyclic(a)
        | TypeFault::TooManyPaths(a) => Some(a),
        TypeFault::OutOfMemory => None,
    }
}

/// Appends a refusal by its name, and what it names.
fn say_refusal(text: &mut Text, of: &str, name: &[u8], named: Option<u32>) {
    text.say(of);
    text.say_ascii(name);
    if let Some(named) = named {
        text.say(" ");
        text.say_hex(named);
    }
}

/// Appends why an image is refused.
fn say_fault(text: &mut Text, fault: &CheckFault, placing: Placing) {
    match fault {
        CheckFault::Function(rejected) => say_rejected(text, rejected, placing),
        CheckFault::Index(fault) => say_refusal(text, "the index: ", fault.name(), row_of(*fault)),
        CheckFault::Types(fault) => say_refusal(text, "the types: ", fault.name(), type_of(*fault)),
        CheckFault::OutOfMemory => text.want_memory(),
    }
}

/// The image of a file, if it is accepted. Otherwise the reason is appended.
pub fn accept_in<'a>(text: &mut Text, file: &'a [u8], placing: Placing) -> Option<Accepted<'a>> {
    let image = open_image_in(text, file)?;
    match check(text.alloc(), image) {
        Ok(accepted) => Some(accepted),
        Err(fault) => {
            say_fault(text, &fault, placing);
            None
        }
    }
}
