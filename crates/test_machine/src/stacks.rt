//! Throws over stacks of random words. What the gate must do is computed by a separate walk over frames of 8 bytes
//! (docs/rules/phases-and-exceptions.md, "Frames"). However the run goes on, it must end.
use crate::desk::Desk;
use crate::{answers, hostile};
use eh_cxa::layout::{SIZE, STATE};
use eh_cxa::state::FRESH;
use eh_machine::Core;
use rand_core::Rng;
use rand_pcg::Pcg32;
use std::alloc::Global;
use test_rows::Unanswered;
use thumb_core::ends::{Cause, End};

/// The control block and the object of the first slot.
const BLOCK: u32 = 0x3800_0028;

const OBJECT: u32 = 0x3800_0080;

/// The first address of the stack that is written.
const LOW: u32 = 0x3FFF_FF80;

/// The number of words from there to the end of the stack.
const WORDS: usize = 32;

/// A random number from 0 to 15.
fn roll(dice: &mut Pcg32) -> u32 {
    dice.next_u32() / 0x1000_0000
}

/// A random word as a stack may have it: mostly a return address.
fn stack_word(dice: &mut Pcg32) -> u32 {
    match roll(dice) {
        // return addresses in main, in g, in f, in the start, in the end of a catch
        0 | 1 => 0x8007,
        2 | 3 => 0x8023,
        4 | 5 => 0x8039,
        6 | 7 => 0x804F,
        8 | 9 => 0x806D,
        // addresses after gates, and past all functions
        10 => 0x8053,
        11 => 0x8091,
        12 | 13 => 0xFFFF_FFFF,
        14 => LOW.wrapping_add(roll(dice).wrapping_mul(8)),
        _ => dice.next_u32(),
    }
}

/// A random stack, as pairs of address and word.
fn rolled_stack(dice: &mut Pcg32) -> [(u32, u32); WORDS] {
    let mut stack = [(0, 0); WORDS];
    let mut at = LOW;
    for word in stack.iter_mut() {
        *word = (at, stack_word(dice));
        at = at.wrapping_add(4);
    }
    stack
}

/// Puts the machine at the gate of a throw.
fn roll_regs(dice: &mut Pcg32, desk: &mut Desk, ty: u32, gate: u32) {
    for number in 0..16 {
        desk.set_reg(number, dice.next_u32());
    }
    desk.set_reg(0, OBJECT);
    desk.set_reg(1, ty);
    desk.set_reg(13, LOW.wrapping_add(roll(dice).wrapping_mul(4)));
    desk.set_reg(14, stack_word(dice));
    desk.set_reg(15, gate);
}

/// The place of a frame whose return address this is.
#[derive(Clone, Copy, PartialEq, Eq)]
enum Place {
    /// At main's call.
    Main,
    /// At g's call.
    Cleaned,
    /// In a function whose frame has 8 bytes: r4 and the return address.
    Framed,
    /// In a function without a frame.
    Bare,
    /// The end of the stack: the outermost frame has no caller.
    End,
    /// Before all functions or after them.
    Nowhere,
}

fn stack_place(back: u32) -> Place {
    if back == 0xFFFF_FFFF {
        return Place::End;
    }
    let site = (back / 2).wrapping_mul(2).wrapping_sub(2);
    match site {
        0x8002..=0x8005 => Place::Main,
        0x801E..=0x8021 => Place::Cleaned,
        // main, g, f and the start; and the end of a catch
        0x8000..=0x804F | 0x805E..=0x8071 => Place::Framed,
        0x8050..=0x8087 => Place::Bare,
        _ => Place::Nowhere,
    }
}

/// The two words of the stack from sp up.
fn two_words(stack: &[(u32, u32)], sp: u32) -> Option<(u32, u32)> {
    let at = (sp.wrapping_sub(LOW) / 4) as usize;
    let low = stack.get(at)?;
    let high = stack.get(at.saturating_add(1))?;
    Some((low.1, high.1))
}

/// The landing that a throw over this stack should reach, as pc, sp, r4 and r0; or why the run should terminate.
fn enter_over_stack(desk: &Desk, stack: &[(u32, u32)]) -> Result<[u32; 4], Cause> {
    let mut r4 = desk.reg(4);
    let mut sp = desk.reg(13);
    let mut back = desk.reg(14);
    let mut cleanup = None;
    for _ in 0..WORDS {
        match stack_place(back) {
            Place::End => return Err(Cause::NoHandler),
            Place::Bare | Place::Nowhere => return Err(Cause::CannotUnwind),
            Place::Main => return Ok(cleanup.unwrap_or([0x800A, sp, r4, BLOCK])),
            Place::Cleaned => {
                if cleanup.is_none() {
                    cleanup = Some([0x8024, sp, r4, 0]);
                }
            }
            Place::Framed => {}
        }
        let Some((low, high)) = two_words(stack, sp) else {
            return Err(Cause::CannotUnwind);
        };
        r4 = low;
        back = high;
        sp = sp.wrapping_add(8);
    }
    Err(Cause::CannotUnwind)
}

/// Whether the throw enters what it should and the run ends soon, or ends as it should.
fn goes_as(alloc: Global, desk: &mut Desk, wanted: Result<[u32; 4], Cause>) -> bool {
    desk.go(alloc, 1);
    match wanted {
        Err(cause) => desk.end == End::Terminate(cause),
        Ok(place) => {
            let is_there = desk.end == End::Budget
                && [desk.reg(15), desk.reg(13), desk.reg(4), desk.reg(0)] == place;
            desk.go(alloc, 1000);
            is_there && desk.end != End::Budget
        }
    }
}

/// The kind of a stack: caught at once, caught after a cleanup, caught by nobody, or one that can't be unwound.
fn kind_of(wanted: Result<[u32; 4], Cause>) -> usize {
    match wanted {
        Ok(place) => { if place[0] == 0x800A { 0 } else { 1 } }
        Err(cause) => { if cause == Cause::NoHandler { 2 } else { 3 } }
    }
}

/// Makes an exception in the first slot that isn't thrown yet, and no other; nothing is guarded.
fn begin_again(desk: &mut Desk, core: &Core) {
    desk.machine.core = *core;
    desk.release();
    hostile::clear(desk);
    desk.put(0, STATE, FRESH);
    desk.put(0, SIZE, 4);
}

/// `stacks TYPE GATE NUMBER`: does so many throws of a type over random stacks, at the throw's gate. Says whether each does what the walk
/// computes, and whether there are ten or more of each kind.
pub fn stacks(alloc: Global, desk: &mut Desk, given: &[u32]) -> Result<String, Unanswered> {
    let [ty, gate, count] = given else {
        return Err(Unanswered::NoWord);
    };
    let core = desk.machine.core;
    let mut dice = Pcg32::new(1, 0);
    let mut kinds = [0u32; 4];
    for number in 0..*count {
        let stack = rolled_stack(&mut dice);
        begin_again(desk, &core);
        roll_regs(&mut dice, desk, *ty, *gate);
        desk.put_stack(&stack);
        let wanted = enter_over_stack(desk, &stack);
        if !goes_as(alloc, desk, wanted) {
            return Ok(format!(in alloc; "stack {number} goes another way")?);
        }
        let kind = kind_of(wanted);
        if kind < 4 {
            kinds[kind] = kinds[kind].saturating_add(1);
        }
    }
    let are_enough = kinds.iter().all(|count| *count >= 10);
    Ok(answers::yes_or_no(alloc, are_enough)?)
}
