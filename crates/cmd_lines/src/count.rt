//! The line of a count (docs/guide/command-line.md).
ghost use Rattle.std.specs.Prelude.{◌≡◌, ◌++◌, OnOk};
ghost use Rattle.cmd_lines.specs.Text.{count_line};

use itoa::Buffer;
use std::alloc::AllocError;

/// Appends the line of a count. `AllocError` if there was no memory.
pub fn push_count(lines: &mut Vec<u8>, what: &[u8], count: u128) -> Result<(), AllocError>
    ensures { OnOk result (lines.new.items ≡ lines.old.items ++ count_line what.now count) }
{
    lines.extend_from_slice(what)?;
    lines.extend_from_slice(b" ")?;
    lines.extend_from_slice(Buffer::new().format(count).as_bytes())?;
    lines.extend_from_slice(b"\n")
}
