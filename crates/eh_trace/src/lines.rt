//! The lines of a trace: docs/rules/phases-and-exceptions.md.
ghost use Rattle.std.specs.Prelude.{◌≡◌, ◌++◌, OnOk, IfOk, decimal};
ghost use Rattle.eh_trace.specs.Text.{thrown_text, entered_text, event_line, after_line, more_line, all_of, trace_text};

use crate::event::{Event, EventKind, MAX_BYTES, TraceMemory};
use crate::events::{Events, MAX_KEPT};
use crate::names::TypeNames;
use crate::text::{push_address, push_bytes, push_place, push_type_name};
use elf_image::Image;
use itoa::Buffer;
use std::alloc::{AllocError, Global};

/// Writes the rest of a throw's line: the object, the type's name and the object's first bytes.
#[tactic(auto, unfolding(crate::specs::Text::thrown_text))]
fn push_thrown<T: TypeNames>(
    alloc: Global,
    out: &mut Vec<u8>,
    types: &T,
    e: &Event,
) -> Result<(), AllocError>
    ensures { OnOk result (out.new.items ≡ out.old.items ++ thrown_text (T.name_of types.now) e.now) }
{
    push_address(out, e.a)?;
    out.extend_from_slice(b" ")?;
    push_type_name(out, types.name(e.b))?;
    out.extend_from_slice(b" ")?;
    let count = (e.count as usize).min(MAX_BYTES);
    push_bytes(alloc, out, &e.bytes[..count])
}

/// Writes where a landing pad was entered.
#[tactic(auto, unfolding(crate::specs::Text::entered_text))]
fn push_entered(out: &mut Vec<u8>, image: &Image, e: &Event) -> Result<(), AllocError>
    ensures { OnOk result (out.new.items ≡ out.old.items ++ entered_text image.now e.now) }
{
    push_place(out, image, e.a)?;
    out.extend_from_slice(b" sp ")?;
    push_address(out, e.b)
}

/// Writes the line of an event.
#[tactic(auto, unfolding(crate::specs::Text::event_line))]
fn push_line<T: TypeNames>(
    alloc: Global,
    out: &mut Vec<u8>,
    image: &Image,
    types: &T,
    e: &Event,
) -> Result<(), AllocError>
    ensures { OnOk result (out.new.items ≡ out.old.items ++ event_line image.now (T.name_of types.now) e.now) }
{
    match e.kind {
        EventKind::Throw => {
            out.extend_from_slice(b"throw ")?;
            push_thrown(alloc, out, types, e)?;
        }
        EventKind::Rethrow => {
            out.extend_from_slice(b"rethrow ")?;
            push_thrown(alloc, out, types, e)?;
        }
        EventKind::Cleanup => {
            out.extend_from_slice(b"cleanup ")?;
            push_entered(out, image, e)?;
        }
        EventKind::Catch => {
            out.extend_from_slice(b"catch ")?;
            push_entered(out, image, e)?;
            out.extend_from_slice(b" object ")?;
            push_address(out, e.c)?;
        }
        EventKind::Unexpected => {
            out.extend_from_slice(b"unexpected ")?;
            push_entered(out, image, e)?;
        }
    }
    out.extend_from_slice(b"\n")
}

/// The number of events of all kinds.
fn all_of(events: &Events) -> u128
    ensures { result ≡ all_of events.now }
{
    u128::from(events.total(EventKind::Throw))
        + u128::from(events.total(EventKind::Rethrow))
        + u128::from(events.total(EventKind::Cleanup))
        + u128::from(events.total(EventKind::Catch))
        + u128::from(events.total(EventKind::Unexpected))
}

/// Writes a number in decimal digits.
fn push_number(out: &mut Vec<u8>, n: u128) -> Result<(), AllocError>
    ensures { OnOk result (out.new.items ≡ out.old.items ++ decimal n) }
{
    out.extend_from_slice(Buffer::new().format(n).as_bytes())
}

/// Writes the line for `count` events that aren't stored.
fn push_after(out: &mut Vec<u8>, count: u128) -> Result<(), AllocError>
    ensures { OnOk result (out.new.items ≡ out.old.items ++ after_line count) }
{
    out.extend_from_slice(b"and ")?;
    push_number(out, count)?;
    out.extend_from_slice(b" more events\n")
}

/// Writes the line for the events that aren't stored, if there are any.
#[tactic(auto, unfolding(crate::specs::Text::more_line))]
fn push_more(out: &mut Vec<u8>, all: u128) -> Result<(), AllocError>
    ensures { OnOk result (out.new.items ≡ out.old.items ++ more_line all) }
{
    let kept = MAX_KEPT as u128;
    if all > kept {
        push_after(out, all - kept)
    } else {
        Ok(())
    }
}

/// The text of a trace: a line for each stored event, and one for the rest. Function names come from the image, and type names from
/// `types`. Err if memory runs out.
pub fn trace_lines<T: TypeNames>(
    alloc: Global,
    image: &Image,
    types: &T,
    events: &Events,
) -> Result<Vec<u8>, TraceMemory>
    ensures { IfOk result (λ text. text.items ≡ trace_text image.now (T.name_of types.now) events.now) }
{
    let mut out = Vec::new(alloc);
    for e in events.kept() {
        push_line(alloc, &mut out, image, types, e)?;
    }
    push_more(&mut out, all_of(events))?;
    Ok(out)
}
