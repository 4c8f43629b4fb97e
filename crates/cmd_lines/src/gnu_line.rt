//! The lines that say why GNU unwind tables aren't rewritten (docs/guide/command-line.md).
ghost use Rattle.std.specs.Prelude.{◌≡◌, ◌≤◌, length};
ghost use Rattle.cmd_lines.specs.TablesText.{entry_name, tables_line};

use crate::line::{Line, refusal_line, refusal_line_with};
use eh_word::address_text;
use gnu_index::GnuFault;
use gnu_lsda::EntryFault;

/// The name of the reason why an entry is refused.
fn entry_name(fault: EntryFault) -> &'static [u8]
    ensures name { result.now ≡ entry_name fault }
    ensures short { length result.now ≤ 16 }
{
    match fault {
        EntryFault::Personality => b"Personality",
        EntryFault::Short => b"Short",
        EntryFault::Format => b"Format",
        EntryFault::Order => b"Order",
        EntryFault::Filter => b"Filter",
        EntryFault::Chain => b"Chain",
        EntryFault::TooLong => b"TooLong",
    }
}

/// The line that says why tables aren't rewritten.
pub fn tables_line(fault: GnuFault) -> Line
    ensures { result.items ≡ tables_line fault }
{
    match fault {
        GnuFault::Entry(refused) => refusal_line_with(
            b"lsda",
            entry_name(refused.fault),
            &address_text(refused.start),
        ),
        GnuFault::TooLarge => refusal_line(b"lsda", b"TooLarge"),
        GnuFault::OutOfMemory => refusal_line(b"lsda", b"OutOfMemory"),
    }
}
