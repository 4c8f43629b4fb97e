//! Whether an unwind recipe, run on a fact, gives the caller's registers. docs/rules/acceptance.md, "The test at a site".
ghost use Rattle.std.specs.Prelude.{◌≡◌, ◌<◌, ◌≤◌, ◌^◌};
ghost use Rattle.frame_facts.specs.Agrees.{at_site, stack_place, base_at, is_lost, word_from, recipe_source, lies_whole, in_frame, gives_cfa, gives_caller_value, has_no_room, fails_register, agreement};

use crate::branches::call;
use crate::cause::FrameCause;
use crate::facts::{Fact, Source};
use crate::saves::Prologue;
use eh_bytecode::{Recipe, Src};

/// The fact at a site; for a call, without the registers that the callee may change.
fn at_site(fact: &Fact, is_call: bool) -> Fact
    ensures { result ≡ at_site is_call fact.now }
{
    let mut here = *fact;
    if is_call {
        call(&mut here);
    }
    here
}

/// How many bytes below the CFA the address in a register lies; the depth for sp, None if it isn't known.
fn base_at(fact: &Fact, base: u8) -> Option<u32>
    ensures { result ≡ base_at fact.now base }
{
    if base == 13 {
        return if fact.below { None } else { Some(fact.depth) };
    }
    match fact.source(base) {
        Source::SpAt(offset) => Some(offset),
        Source::Entry(_) | Source::Other => None,
    }
}

/// Whether the recipe's base register isn't known to have an address of the frame.
fn is_lost(fact: &Fact, r: &Recipe) -> bool
    ensures { result ≡ is_lost r.now fact.now }
{
    r.base != 13 && base_at(fact, r.base).is_none()
}

/// What is known of the word at an offset in bytes from a base, which lies `at` bytes below the CFA.
fn word_from(p: &Prologue, fact: &Fact, at: Option<u32>, offset: i32) -> Source
    ensures { result ≡ word_from p.now fact.now at offset }
{
    match at {
        None => Source::Other,
        Some(at) => p.word(fact.kept, at, offset),
    }
}

/// The value that a recipe gives a register.
fn recipe_source(p: &Prologue, fact: &Fact, r: &Recipe, reg: u8, src: Src) -> Source
    ensures { result ≡ recipe_source p.now r.now fact.now reg src }
{
    match src {
        Src::Same => fact.source(if reg == 15 { 14 } else { reg }),
        Src::FromSp(offset) => word_from(p, fact, base_at(fact, 13), offset),
        Src::FromBase(offset) => word_from(p, fact, base_at(fact, r.base), offset),
    }
}

/// Whether all of the word at an offset from a base lies between sp and the CFA.
fn lies_whole(fact: &Fact, at: Option<u32>, offset: i32) -> bool
    ensures { result ≡ lies_whole fact.now at offset }
{
    match at {
        None => false,
        Some(at) => {
            let place = i64::from(at) - i64::from(offset);
            4 <= place && place <= i64::from(fact.depth)
        }
    }
}

/// Whether the word that a recipe loads lies between sp and the CFA; true if it loads none.
fn in_frame(fact: &Fact, r: &Recipe, src: Src) -> bool
    ensures { result ≡ in_frame r.now fact.now src }
{
    match src {
        Src::Same => true,
        Src::FromSp(offset) => lies_whole(fact, base_at(fact, 13), offset),
        Src::FromBase(offset) => lies_whole(fact, base_at(fact, r.base), offset),
    }
}

/// Whether the new stack pointer is the CFA.
fn gives_cfa(fact: &Fact, r: &Recipe) -> bool
    ensures { result ≡ gives_cfa r.now fact.now }
{
    match base_at(fact, r.base) {
        None => false,
        Some(at) => i64::from(at) == i64::from(r.vsp),
    }
}

/// Whether a recipe gives a register the value that the caller needs.
fn gives_caller_value(p: &Prologue, fact: &Fact, r: &Recipe, reg: u8) -> bool
    requires { reg < 16 }
    ensures { result ≡ gives_caller_value p.now r.now fact.now reg }
{
    let src = r.src[reg as usize];
    if reg == 13 {
        gives_cfa(fact, r)
    } else if reg == 15 {
        recipe_source(p, fact, r, reg, src).is_entry(14)
    } else if 4 <= reg && reg < 12 {
        recipe_source(p, fact, r, reg, src).is_entry(reg)
    } else {
        in_frame(fact, r, src)
    }
}

/// Whether a register is wrong at a site; a call at a depth below 4 counts as lr.
fn fails_register(p: &Prologue, fact: &Fact, r: &Recipe, is_call: bool, reg: u8) -> bool
    requires { reg < 16 }
    ensures { result ≡ fails_register p.now r.now is_call fact.now reg }
{
    let no_room = is_call && reg == 14 && fact.depth < 4;
    no_room || (!is_lost(fact, r) && !gives_caller_value(p, fact, r, reg))
}

/// Whether the recipe of the entry that covers a site, run on the fact there, gives the values that the function's caller needs. Err
/// with the lower-numbered cause if both hold: `CallState` with the lowest register that is wrong, or `FramePointerLost` with the
/// recipe's base.
pub fn agrees(fact: &Fact, p: &Prologue, r: &Recipe, is_call: bool) -> Result<(), FrameCause>
    ensures { result ≡ agreement p.now r.now is_call fact.now }
{
    let here = at_site(fact, is_call);
    for reg in 0..16u8 {
        if fails_register(p, &here, r, is_call, reg) {
            return Err(FrameCause::CallState { reg });
        }
    }
    if is_lost(&here, r) {
        return Err(FrameCause::FramePointerLost { reg: r.base });
    }
    Ok(())
}
