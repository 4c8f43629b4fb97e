//! The lines that give the checker's verdict (docs/guide/command-line.md).
ghost use Rattle.std.specs.Prelude.{◌≡◌, ◌-◌, ◌++◌, OnOk};
ghost use Rattle.cmd_lines.specs.Text.{after_blank};
ghost use Rattle.cmd_lines.specs.CheckText.{accepted_line, index_line, register_name, cause_detail, cause_text, cause_line, type_line};

use crate::line::{Line, append, refusal_line, refusal_line_with};
use eh_index::IndexFault;
use eh_trace::push_named_place;
use eh_types::TypeFault;
use eh_word::address_text;
use frame_check::Rejected;
use frame_facts::FrameCause;
use itoa::Buffer;
use std::alloc::AllocError;

/// The line of an accepted image, with the number of its functions.
pub fn accepted_line(count: usize) -> Line
    ensures { result.items ≡ accepted_line count }
{
    let mut line = Line::new();
    append(&mut line, b"accepted ");
    append(&mut line, Buffer::new().format(count).as_bytes());
    append(&mut line, b" functions\n");
    line
}

/// The line of an index that can't be read.
pub fn index_line(fault: IndexFault) -> Line
    ensures { result.items ≡ index_line fault }
{
    match fault {
        IndexFault::Length => refusal_line(b"index", fault.name()),
        IndexFault::OutsideImage(row) | IndexFault::Unsorted(row) => {
            refusal_line_with(b"index", fault.name(), Buffer::new().format(row).as_bytes())
        }
    }
}

/// The line of types that can't be read.
pub fn type_line(fault: TypeFault) -> Line
    ensures { result.items ≡ type_line fault }
{
    match fault {
        TypeFault::Unreadable(ty)
        | TypeFault::Writable(ty)
        | TypeFault::NameTooLong(ty)
        | TypeFault::Cyclic(ty)
        | TypeFault::TooManyPaths(ty) => {
            refusal_line_with(b"types", fault.name(), &address_text(ty))
        }
        TypeFault::OutOfMemory => refusal_line(b"types", fault.name()),
    }
}

/// Appends a blank and the name of a register. `AllocError` if there was no memory.
fn push_register(line: &mut Vec<u8>, number: u8) -> Result<(), AllocError>
    ensures { OnOk result (line.new.items ≡ line.old.items ++ after_blank (register_name number)) }
{
    line.extend_from_slice(b" ")?;
    match number {
        13 => line.extend_from_slice(b"sp"),
        14 => line.extend_from_slice(b"lr"),
        15 => line.extend_from_slice(b"pc"),
        _ => {
            line.extend_from_slice(b"r")?;
            line.extend_from_slice(Buffer::new().format(number).as_bytes())
        }
    }
}

/// Appends the detail of a cause: the register, if the cause names one.
fn push_cause_detail(line: &mut Vec<u8>, cause: FrameCause) -> Result<(), AllocError>
    ensures { OnOk result (line.new.items ≡ line.old.items ++ cause_detail cause) }
{
    match cause {
        FrameCause::CallState { reg } | FrameCause::FramePointerLost { reg } => {
            push_register(line, reg)
        }
        _ => Ok(()),
    }
}

/// Appends where a function is refused, by its name and an offset in bytes, and why. `AllocError` if there was no memory.
pub fn push_cause_text(
    line: &mut Vec<u8>,
    name: &[u8],
    offset: u32,
    cause: FrameCause,
) -> Result<(), AllocError>
    ensures { OnOk result (line.new.items ≡ line.old.items ++ cause_text name.now offset cause) }
{
    push_named_place(line, name, offset)?;
    line.extend_from_slice(b": ")?;
    line.extend_from_slice(cause.name())?;
    push_cause_detail(line, cause)
}

/// Appends the line of a refused function. `AllocError` if there was no memory.
pub fn push_cause(line: &mut Vec<u8>, rejected: &Rejected) -> Result<(), AllocError>
    ensures { OnOk result (line.new.items ≡ line.old.items ++ cause_line rejected.now.function (rejected.now.at - rejected.now.start) rejected.now.cause) }
{
    push_cause_text(
        line,
        rejected.function.bytes(),
        rejected.at.saturating_sub(rejected.start),
        rejected.cause,
    )?;
    line.extend_from_slice(b"\n")
}
