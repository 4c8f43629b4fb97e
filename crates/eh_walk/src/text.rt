//! The text of a walk (docs/guide/walks-and-threads.md, "A walk").
ghost use Rattle.std.specs.Prelude.{◌≡◌, ◌++◌, IfOk, OnOk, option_copied};
ghost use Rattle.eh_word.specs.Address.{address_text};
ghost use Rattle.eh_trace.specs.Text.{holder, place_text};
ghost use Rattle.eh_walk.specs.Text.{frame_line, walk_text};

use crate::walk::WalkFrame;
use eh_trace::push_named_place;
use eh_word::address_text;
use elf_image::{Function, Image};
use std::alloc::{AllocError, Global};

/// The function that holds an address, if one does.
#[tactic(auto, using(eh_trace::proofs::Places::found_at, eh_trace::proofs::Places::found_none))]
fn function_holding<'b, 'a>(image: &'b Image<'a>, a: u32) -> Option<&'b Function<'a>>
    ensures { option_copied result ≡ holder image.now a }
{
    let number = image.function_of(a)?;
    let functions = image.functions();
    if number < functions.len() {
        Some(&functions[number])
    } else {
        None
    }
}

/// Adds a place as text: the function that holds it and the offset there, or a question mark and the address.
#[tactic(auto, unfolding(eh_trace::specs::Text::place_text))]
fn push_place(out: &mut Vec<u8>, image: &Image, a: u32) -> Result<(), AllocError>
    ensures { OnOk result (out.new.items ≡ out.old.items ++ place_text image.now a) }
{
    match function_holding(image, a) {
        Some(function) => push_named_place(out, function.name, a.saturating_sub(function.start)),
        None => push_named_place(out, b"?", a),
    }
}

/// Adds the line of a frame.
fn push_frame(out: &mut Vec<u8>, image: &Image, frame: &WalkFrame) -> Result<(), AllocError>
    ensures { OnOk result (out.new.items ≡ out.old.items ++ frame_line image.now frame.now) }
{
    out.extend_from_slice(b"frame ")?;
    push_place(out, image, frame.site)?;
    out.extend_from_slice(b" sp ")?;
    out.extend_from_slice(&address_text(frame.sp))?;
    out.extend_from_slice(b"\n")
}

/// The text of a walk: a line that begins it, a line for each frame, and a line that ends it.
pub fn walk_lines(alloc: Global, image: &Image, frames: &[WalkFrame]) -> Result<Vec<u8>, AllocError>
    ensures { IfOk result (λ text. text.items ≡ walk_text image.now frames.now) }
{
    let mut out = Vec::new(alloc);
    out.extend_from_slice(b"-- frames\n")?;
    for frame in frames {
        push_frame(&mut out, image, frame)?;
    }
    out.extend_from_slice(b"-- walked\n")?;
    Ok(out)
}
