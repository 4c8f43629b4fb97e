//! Which of the words that the PUSHes of a prologue store are saves. docs/rules/acceptance.md, "What a run asks".
ghost use Rattle.std.specs.Prelude.{◌≡◌, ◌-◌, ◌*◌, ◌^◌, ◌<◌, ◌≤◌, ◌++◌, map, OnOk, ◌==◌};
ghost use Rattle.frame_facts.specs.declared.facts.TheConstants.{DEEPEST};
ghost use Rattle.frame_facts.specs.Saves.{saves_of};
ghost use Rattle.frame_check.specs.Pushes.{is_saved, word_bit, word_bits, push_at, push_saves};

use frame_facts::lists::words_of;
use frame_facts::saves::{Prologue, Save};
use frame_facts::straight::Straight;
use std::alloc::AllocError;
use thumb_isa::instr::Instr;

/// A PUSH of a prologue whose end isn't known yet, so that its saves aren't either.
#[derive(Clone, Copy)]
pub struct OpenPush {
    /// The address of the PUSH.
    pub at: u32,
    /// How many bytes the lowest word that it stores lies below the CFA.
    pub lowest: u32,
    /// The registers that it stores; bit k means register k.
    pub list: u16,
}

/// A PUSH of a prologue, with its saves.
#[derive(Clone, Copy)]
pub struct ProloguePush {
    /// The address of the PUSH.
    pub at: u32,
    /// Which of the words that it stores are saves: bit k means word k, counted from the lowest address.
    pub saves: u16,
}

/// The saves of a prologue.
fn saves_of(p: &Prologue) -> &[Save]
    ensures { result.now ≡ saves_of p.now }
{
    if (p.count as usize) < p.saves.len() {
        &p.saves[..p.count as usize]
    } else {
        &p.saves
    }
}

fn lies_at(save: &Save, offset: u32) -> bool
    ensures { result ≡ (save.now.offset == offset) }
{
    save.offset == offset
}

/// Whether one of the saves lies `offset` bytes below the CFA.
fn is_saved(p: &Prologue, offset: u32) -> bool
    ensures { result ≡ is_saved p.now offset }
{
    saves_of(p).iter().any(|save| lies_at(save, offset))
}

/// Bit k if word k above the lowest one is a save, else 0.
fn word_bit(p: &Prologue, lowest: u32, k: u32) -> u16
    requires { k < 16 }
    ensures bit { result ≡ word_bit p.now lowest k }
    ensures most { result ≤ 2 ^ k }
{
    let offset = lowest.saturating_sub(4 * k);
    if is_saved(p, offset) { 1 << k } else { 0 }
}

/// Which of the `words` words of a PUSH are saves, as a bit mask.
#[tactic(auto, unfolding(crate::specs::Pushes::word_bits))]
fn word_bits(p: &Prologue, lowest: u32, words: u32) -> u16
    requires { words ≤ 16 }
    ensures { result ≡ word_bits p.now lowest words }
{
    let mut bits = 0;
    for k in 0..words {
        bits += word_bit(p, lowest, k);
    }
    bits
}

/// Adds the instruction after a run to the list, if it is a PUSH.
pub(crate) fn add_push(
    pushes: &mut Vec<OpenPush>,
    run: &Straight,
    i: &Instr,
) -> Result<(), AllocError>
    requires { run.now.fact.depth ≤ DEEPEST }
    ensures { OnOk result (pushes.new.items ≡ pushes.old.items ++ push_at run.now i.now) }
{
    if let Instr::Push { list } = *i {
        pushes.push(OpenPush {
            at: run.prologue.end,
            lowest: run.fact.depth + 4 * words_of(list),
            list,
        })?;
    }
    Ok(())
}

/// A PUSH of a prologue, with its saves.
fn push_saves(p: &Prologue, push: &OpenPush) -> ProloguePush
    ensures { result ≡ push_saves p.now push.now }
{
    ProloguePush {
        at: push.at,
        saves: word_bits(p, push.lowest, words_of(push.list)),
    }
}

/// Replaces the contents of a list by the PUSHes of a prologue, with their saves.
pub(crate) fn put_push_saves(
    into: &mut Vec<ProloguePush>,
    p: &Prologue,
    pushes: &[OpenPush],
) -> Result<(), AllocError>
    ensures { OnOk result (into.new.items ≡ map (push_saves p.now) pushes.now) }
{
    into.clear();
    for push in pushes {
        into.push(push_saves(p, push))?;
    }
    Ok(())
}
