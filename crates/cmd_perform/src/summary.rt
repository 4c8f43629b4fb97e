//! The lines of a run whose events are counted (docs/guide/command-line.md).
ghost use Rattle.std.specs.Prelude.{◌≡◌, ◌+◌, IfOk};
ghost use Rattle.eh_trace.specs.Trace.{total_of};
ghost use Rattle.eh_trace.specs.declared.event.EventKind.TheVariants.{Throw, Rethrow};
ghost use Rattle.cmd_perform.specs.Text.{summary};

use cmd_lines::push_count;
use eh_trace::{EventKind, Events};
use std::alloc::{AllocError, Global};

/// The number of throws, with rethrows.
fn throws_of(events: &Events) -> u128
    ensures { result ≡ total_of Throw events.now + total_of Rethrow events.now }
{
    u128::from(events.total(EventKind::Throw)) + u128::from(events.total(EventKind::Rethrow))
}

/// How many functions there are, and how many events came. Events that a trace doesn't keep are counted too.
pub(crate) fn summary_lines(
    alloc: Global,
    functions: usize,
    events: &Events,
) -> Result<Vec<u8>, AllocError>
    ensures { IfOk result (λ lines. lines.items ≡ summary functions events.now) }
{
    let cleanups = events.total(EventKind::Cleanup);
    let catches = events.total(EventKind::Catch);
    let mut lines = Vec::new(alloc);
    push_count(&mut lines, b"functions", functions as u128)?;
    push_count(&mut lines, b"throws", throws_of(events))?;
    push_count(&mut lines, b"cleanups", u128::from(cleanups))?;
    push_count(&mut lines, b"catches", u128::from(catches))?;
    Ok(lines)
}
