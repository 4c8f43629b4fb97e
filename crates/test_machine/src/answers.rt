//! Answers in words. Numbers are hexadecimal, and a command that says nothing has no answer.
use eh_machine::Turned;
use eh_trace::{Event, EventKind};
use std::alloc::{AllocError, Global};
use thumb_core::ends::End;

/// Appends an answer, after those before it.
pub fn push(all: &mut String, answer: &str) -> Result<(), AllocError> {
    if !all.is_empty() && !answer.is_empty() {
        all.push_str("; ")?;
    }
    all.push_str(answer)
}

/// The answer of a command that says nothing.
pub fn nothing(alloc: Global) -> String {
    String::new(alloc)
}

/// Words separated by blanks.
pub fn words(alloc: Global, words: &[u32]) -> Result<String, AllocError> {
    let mut text = String::new(alloc);
    for word in words {
        if !text.is_empty() {
            text.push(' ')?;
        }
        text.push_str(format!(in alloc; "{word:X}")?.as_str())?;
    }
    Ok(text)
}

/// `yes` or `no`.
pub fn yes_or_no(alloc: Global, is_so: bool) -> Result<String, AllocError> {
    let said = if is_so { "yes" } else { "no" };
    format!(in alloc; "{said}")
}

/// How a run ended; nothing if it hasn't.
pub fn end(alloc: Global, end: End) -> Result<String, AllocError> {
    match end {
        End::Exit(number) => format!(in alloc; "exit {number:X}"),
        End::Terminate(cause) => format!(in alloc; "terminate {cause:?}"),
        End::Trap(kind, value, pc) => format!(in alloc; "trap {kind:?} {value:X} at {pc:X}"),
        End::Budget => format!(in alloc; "goes on"),
        End::ReadFault => format!(in alloc; "read fault"),
        End::WriteFault => format!(in alloc; "write fault"),
    }
}

/// What an event of a run did.
pub fn turn_text(alloc: Global, what: Turned) -> Result<String, AllocError> {
    match what {
        Turned::Went => end(alloc, End::Budget),
        Turned::Ended(why) => end(alloc, why),
    }
}

/// An event. A throw has the object and the number of its bytes that are kept, a cleanup its pad and sp, a catch the object too.
pub fn event(alloc: Global, event: &Event) -> Result<String, AllocError> {
    let Event {
        kind,
        a,
        b,
        c,
        count,
        ..
    } = *event;
    match kind {
        EventKind::Throw | EventKind::Rethrow => format!(in alloc; "{kind:?} {a:X} of {count:X}"),
        EventKind::Cleanup | EventKind::Unexpected => format!(in alloc; "{kind:?} {a:X} {b:X}"),
        EventKind::Catch => format!(in alloc; "{kind:?} {a:X} {b:X} {c:X}"),
    }
}
