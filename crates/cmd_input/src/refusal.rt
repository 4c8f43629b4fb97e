//! Why the named files give no image, and the lines that say so.
ghost use Rattle.std.specs.Prelude.{◌≡◌, ◌≢◌, ◌≤◌, ◌++◌, length, codes, IfOk, true, false};
ghost use Rattle.cmd_input.specs.Building.{is_memory, is_link_memory, fault_line, wants_memory, refusal_of};
ghost use Rattle.cmd_input.specs.RefusalText.{source_place, asm_place, link_line, schedule_place};
ghost use Rattle.cmd_lines.specs.Text.{refusal_line, after_blank};
ghost use Rattle.cmd_answers.specs.Statuses.{IsOfCommand};
ghost use Rattle.cmd_answers.specs.Writes.{Answers};

use asm_layout::{AsmFault, AsmWhat};
use asm_read::{SourceFault, SourceWhat};
use cmd_answers::Stop;
use cmd_answers::answer::{
    answer_both, answer_missing, answer_text, answer_three, answer_too_long,
};
use cmd_answers::status::REFUSED;
use cmd_lines::{
    Line, append, image_fault_line, index_line, refusal_line, refusal_line_with, tables_line,
};
use eh_index::IndexFault;
use eh_kit::KitMemory;
use eh_link::LinkFault;
use eh_port::Sink;
use eh_word::{Name, address_text};
use elf_image::ImageFault;
use gnu_index::GnuFault;
use itoa::Buffer;
use std::alloc::AllocFailed;

/// Why sources give no image, or why a schedule file is refused.
#[derive(Drop)]
pub enum BuildFault<'a> {
    /// The file of this name is no valid source.
    InSource(&'a str, SourceFault),
    /// The source of this name can't be assembled.
    InObject(&'a str, AsmFault),
    /// The objects can't be linked.
    InLink(LinkFault),
    /// The linked parts can't be written as an image.
    InImage(ImageFault),
    /// The image's index can't be read.
    InIndex(IndexFault),
    /// The image's unwind tables can't be rewritten.
    InTables(GnuFault),
    /// The file of this name holds no schedule. The number is the offset in bytes of the first byte that isn't allowed, or the file's
    /// length if it has no digit.
    InSchedule(&'a str, usize),
    /// There was no memory.
    OutOfMemory,
}

/// Why the named files give no image.
#[derive(Drop)]
pub enum FilesFault<'a> {
    /// The file of this name is missing.
    Missing(&'a str),
    /// The file of this name is too long.
    TooLong(&'a str),
    /// Their contents give no image.
    Sources(BuildFault<'a>),
}

impl<T: Drop> From<AllocFailed<T>> for BuildFault<'_> {
    ghost use Rattle.std.specs.Prelude.{◌≡◌};
    ghost use Rattle.cmd_input.specs.declared.refusal.BuildFault.TheVariants.{OutOfMemory};

    ghost from_gives = { λ _ fault. fault ≡ OutOfMemory };

    fn from(_: AllocFailed<T>) -> Self {
        BuildFault::OutOfMemory
    }
}

impl From<KitMemory> for BuildFault<'_> {
    ghost use Rattle.std.specs.Prelude.{◌≡◌};
    ghost use Rattle.cmd_input.specs.declared.refusal.BuildFault.TheVariants.{OutOfMemory};

    ghost from_gives = { λ _ fault. fault ≡ OutOfMemory };

    fn from(_: KitMemory) -> Self {
        BuildFault::OutOfMemory
    }
}

/// Whether the reason is lack of memory.
pub fn is_memory(fault: &BuildFault) -> bool
    ensures { result ≡ is_memory fault.now }
{
    match fault {
        BuildFault::InSource(_, fault) => matches!(fault.what, SourceWhat::OutOfMemory),
        BuildFault::InObject(_, fault) => matches!(fault.what, AsmWhat::OutOfMemory),
        BuildFault::InLink(fault) => matches!(fault, LinkFault::OutOfMemory),
        BuildFault::InImage(fault) => matches!(fault, ImageFault::OutOfMemory),
        BuildFault::InIndex(_) => false,
        BuildFault::InTables(fault) => matches!(fault, GnuFault::OutOfMemory),
        BuildFault::InSchedule(_, _) => false,
        BuildFault::OutOfMemory => true,
    }
}

/// The text after the name of a source that is refused: where in it.
fn source_place(fault: SourceFault) -> Line
    ensures { result.items ≡ source_place fault }
{
    let mut line = Line::new();
    append(&mut line, b":");
    append(&mut line, Buffer::new().format(fault.line).as_bytes());
    append(&mut line, b":");
    append(&mut line, Buffer::new().format(fault.column).as_bytes());
    append(&mut line, b": ");
    append(&mut line, fault.what.name());
    append(&mut line, b"\n");
    line
}

/// The text after the name of a source that can't be assembled: where in it.
fn asm_place(fault: AsmFault) -> Line
    ensures { result.items ≡ asm_place fault }
{
    let mut line = Line::new();
    append(&mut line, b":");
    append(&mut line, Buffer::new().format(fault.line).as_bytes());
    append(&mut line, b": ");
    append(&mut line, fault.what.name());
    append(&mut line, b"\n");
    line
}

/// The text after the name of a file that holds no schedule: where in it.
fn schedule_place(at: usize) -> Line
    ensures { result.items ≡ schedule_place at }
{
    let mut line = Line::new();
    append(&mut line, b": BadSchedule ");
    append(&mut line, Buffer::new().format(at).as_bytes());
    append(&mut line, b"\n");
    line
}

/// The text before the name in a refusal of the linker.
fn link_head(what: &[u8]) -> Line
    requires { length what.now ≤ 16 }
    ensures { result.items ≡ codes "link: " ++ what.now ++ codes " " }
{
    let mut line = Line::new();
    append(&mut line, b"link: ");
    append(&mut line, what);
    append(&mut line, b" ");
    line
}

/// Writes the line of a linker refusal that names something, and returns its status.
fn answer_link_name<O: Sink>(out: &mut O, what: &[u8], name: &Name) -> Result<u8, Stop>
    requires { length what.now ≤ 16 }
    ensures { Answers (refusal_line (codes "link") what.now (after_blank name.now)) REFUSED result (O.written out.old) (O.written out.new) (O.faults out.old) (O.faults out.new) }
{
    answer_three(
        out,
        link_head(what).as_slice(),
        name.bytes(),
        b"\n",
        REFUSED,
    )
}

/// Writes the line of objects that can't be linked, and returns its status.
fn answer_link<O: Sink>(out: &mut O, fault: &LinkFault) -> Result<u8, Stop>
    requires { is_link_memory fault.now ≡ false }
    ensures { Answers (link_line fault.now) REFUSED result (O.written out.old) (O.written out.new) (O.faults out.old) (O.faults out.new) }
{
    let what = fault.name();
    match fault {
        LinkFault::Duplicate(name) => answer_link_name(out, what, name),
        LinkFault::Undefined(name) => answer_link_name(out, what, name),
        LinkFault::NoEntry => answer_text(out, refusal_line(b"link", what).as_slice(), REFUSED),
        LinkFault::TooLarge => answer_text(out, refusal_line(b"link", what).as_slice(), REFUSED),
        LinkFault::RelocationRange(place) => answer_text(
            out,
            refusal_line_with(b"link", what, &address_text(*place)).as_slice(),
            REFUSED,
        ),
        LinkFault::OutOfMemory => unreachable!(),
    }
}

/// Writes the line that says why sources give no image or a file no schedule, and returns its status.
pub fn answer_build_fault<O: Sink>(out: &mut O, fault: &BuildFault) -> Result<u8, Stop>
    requires { is_memory fault.now ≡ false }
    ensures { Answers (fault_line fault.now) REFUSED result (O.written out.old) (O.written out.new) (O.faults out.old) (O.faults out.new) }
{
    match fault {
        BuildFault::InSource(name, fault) => {
            answer_both(
                out,
                name.as_bytes(),
                source_place(*fault).as_slice(),
                REFUSED,
            )
        }
        BuildFault::InObject(name, fault) => {
            answer_both(out, name.as_bytes(), asm_place(*fault).as_slice(), REFUSED)
        }
        BuildFault::InLink(fault) => answer_link(out, fault),
        BuildFault::InImage(fault) => answer_text(
            out,
            image_fault_line(*fault).as_slice(),
            REFUSED,
        ),
        BuildFault::InIndex(fault) => answer_text(out, index_line(*fault).as_slice(), REFUSED),
        BuildFault::InTables(fault) => answer_text(out, tables_line(*fault).as_slice(), REFUSED),
        BuildFault::InSchedule(name, at) => {
            answer_both(
                out,
                name.as_bytes(),
                schedule_place(*at).as_slice(),
                REFUSED,
            )
        }
        BuildFault::OutOfMemory => unreachable!(),
    }
}

/// Writes the line that says why files give no image, and returns its status.
pub fn answer_files_fault<O: Sink>(out: &mut O, fault: &FilesFault) -> Result<u8, Stop>
    requires { wants_memory fault.now ≡ false }
    ensures line { Answers (refusal_of fault.now).line (refusal_of fault.now).status result (O.written out.old) (O.written out.new) (O.faults out.old) (O.faults out.new) }
    ensures status { IsOfCommand (refusal_of fault.now).status }
{
    match fault {
        FilesFault::Missing(name) => answer_missing(out, name),
        FilesFault::TooLong(name) => answer_too_long(out, name),
        FilesFault::Sources(fault) => answer_build_fault(out, fault),
    }
}
