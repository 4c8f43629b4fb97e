//! Short lines of output, each built before it is written.
ghost use Rattle.std.specs.Prelude.{◌≡◌, ◌≤◌, ◌+◌, ◌++◌, [], length};
ghost use Rattle.arrayvec.specs.ArrayVec.{array_vec_len};
ghost use Rattle.eh_word.specs.Address.{address_text};
ghost use Rattle.cmd_lines.specs.Text.{end_line, refusal_line, after_blank, image_fault_line};

use arrayvec::ArrayVec;
use eh_word::address_text;
use elf_image::ImageFault;
use itoa::Buffer;
use thumb_core::ends::End;

/// A line of output, with room for the longest.
pub type Line = ArrayVec<u8, 80>;

/// Appends a text to a line that has room for it.
pub fn append(line: &mut Line, text: &[u8])
    requires { array_vec_len line.old + length text.now ≤ 80 }
    ensures items { line.new.items ≡ line.old.items ++ text.now }
    ensures len { array_vec_len line.new ≡ array_vec_len line.old + length text.now }
{
    line.try_extend_from_slice(text).unwrap();
}

/// The last line of a run, which names its end.
pub fn end_line(end: End) -> Line
    ensures { result.items ≡ end_line end }
{
    let mut line = Line::new();
    match end {
        End::Exit(number) => {
            append(&mut line, b"-- exit ");
            append(&mut line, Buffer::new().format(number).as_bytes());
            append(&mut line, b"\n");
        }
        End::Terminate(cause) => {
            append(&mut line, b"-- terminate ");
            append(&mut line, cause.name());
            append(&mut line, b"\n");
        }
        End::Trap(kind, value, pc) => {
            append(&mut line, b"-- trap ");
            append(&mut line, kind.name());
            append(&mut line, b" ");
            append(&mut line, &address_text(value));
            append(&mut line, b" at ");
            append(&mut line, &address_text(pc));
            append(&mut line, b"\n");
        }
        End::Budget => append(&mut line, b"-- budget\n"),
        End::ReadFault | End::WriteFault => {}
    }
    line
}

/// The line of a refusal: a place and what is refused there.
pub fn refusal_line(place: &[u8], what: &[u8]) -> Line
    requires place { length place.now ≤ 8 }
    requires what { length what.now ≤ 16 }
    ensures { result.items ≡ refusal_line place.now what.now [] }
{
    let mut line = Line::new();
    append(&mut line, place);
    append(&mut line, b": ");
    append(&mut line, what);
    append(&mut line, b"\n");
    line
}

/// The line of a refusal with a detail: where, what, and the detail.
pub fn refusal_line_with(place: &[u8], what: &[u8], said: &[u8]) -> Line
    requires place { length place.now ≤ 8 }
    requires what { length what.now ≤ 16 }
    requires said { length said.now ≤ 40 }
    ensures { result.items ≡ refusal_line place.now what.now (after_blank said.now) }
{
    let mut line = Line::new();
    append(&mut line, place);
    append(&mut line, b": ");
    append(&mut line, what);
    append(&mut line, b" ");
    append(&mut line, said);
    append(&mut line, b"\n");
    line
}

/// The line that says why a file is no image.
#[tactic(auto, using(crate::proofs::Lines::image_name_short))]
pub fn image_fault_line(fault: ImageFault) -> Line
    ensures { result.items ≡ image_fault_line fault }
{
    match fault {
        ImageFault::Truncated(need) => {
            refusal_line_with(
                b"image",
                fault.name(),
                Buffer::new().format(need).as_bytes(),
            )
        }
        _ => refusal_line(b"image", fault.name()),
    }
}
