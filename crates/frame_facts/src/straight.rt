//! The straight run of instructions from a function's entry, whose PUSHes save registers. docs/rules/acceptance.md, "The prologue".
ghost use Rattle.std.specs.Prelude.{◌≡◌, ◌+◌, ◌*◌, ◌<◌, ◌≤◌, ◌^◌, length, not, option_and_then};
ghost use Rattle.std.specs.List.{list_any};
ghost use Rattle.thumb_core.specs.Words.{registers_of_list};
ghost use Rattle.frame_facts.specs.Facts.{some_if};
ghost use Rattle.frame_facts.specs.Prologues.{is_callers, is_free, may_stand, save_of_word, with_save, with_push_saves, prologue_after, with_instruction, empty_run};

use crate::effects::effect;
use crate::facts::{DEEPEST, Fact, Source, entry_fact};
use crate::saves::{MOST_SAVES, Prologue, Save};
use thumb_isa::instr::Instr;
use thumb_isa::{idles, plain, works};

/// The straight run so far.
#[derive(Clone, Copy)]
pub struct Straight {
    /// The fact after the run.
    pub fact: Fact,
    /// The prologue that the run makes; it ends where the run ends.
    pub prologue: Prologue,
}

/// Whether the caller needs a register's value: r4 to r11 and lr.
fn is_callers(reg: u8) -> bool
    ensures { result ≡ is_callers reg }
{
    (4 <= reg && reg < 12) || reg == 14
}

/// Whether the run may write a register.
fn is_free(reg: u8) -> bool
    ensures { result ≡ is_free reg }
{
    !is_callers(reg) && reg != 13 && reg != 15
}

/// Whether the run may write all registers of a list.
fn all_free(list: u16) -> bool
    ensures { result ≡ not (list_any (λ reg. not (is_free reg)) (registers_of_list list)) }
{
    for k in 0..16u8 {
        if (list >> k) & 1 == 1 {
            if !is_free(k) {
                return false;
            }
        }
    }
    true
}

/// Whether an instruction is allowed in the run.
fn may_stand(i: &Instr) -> bool
    ensures { result ≡ may_stand i.now }
{
    match *i {
        works!(d) => is_free(d),
        idles!() => true,
        Instr::ShiftImm { d, .. } => is_free(d),
        Instr::AddSubImm3 { d, .. } => is_free(d),
        Instr::Imm8 { op, d, .. } => op == 1 || is_free(d),
        Instr::Alu { op, d, .. } => op == 8 || op == 10 || op == 11 || is_free(d),
        Instr::AddRdSp { .. } => true,
        Instr::AddHigh { d, .. } => is_free(d),
        Instr::MovHigh { d, .. } => d != 13 && d != 15,
        Instr::LdrLit { t, .. } => is_free(t),
        Instr::MemReg { op, t, .. } => op < 3 || is_free(t),
        Instr::MemImm { op, t, .. } => !(op == 1 || op == 3 || op == 5) || is_free(t),
        Instr::MemSp { load, t, .. } => !load || is_free(t),
        Instr::Stm { n, .. } => is_free(n),
        Instr::Ldm { n, list } => is_free(n) && all_free(list),
        Instr::SubSp { .. } | Instr::Push { .. } => true,
        Instr::AddSp { .. }
        | Instr::Pop { .. }
        | Instr::B { .. }
        | Instr::BWide { .. }
        | Instr::BCond { .. }
        | Instr::Cbz { .. }
        | Instr::Bl { .. }
        | Instr::Blx { .. }
        | Instr::Bx { .. }
        | Instr::Svc { .. } => false,
    }
}

/// The save that a word at an offset makes; None if it saves no register of the caller.
fn save_of_word(offset: u32, held: Source) -> Option<Save>
    ensures { result ≡ save_of_word offset held }
{
    match held {
        Source::Entry(reg) => {
            if is_callers(reg) {
                Some(Save { reg, offset })
            } else {
                None
            }
        }
        Source::SpAt(_) | Source::Other => None,
    }
}

/// Adds a save to a prologue. False if the saves before didn't fit (`fits`), or this one doesn't.
fn add_save(grown: &mut Prologue, fits: bool, save: Option<Save>) -> bool
    ensures { some_if result grown.new ≡ option_and_then (with_save save) (some_if fits grown.old) }
{
    if !fits {
        return false;
    }
    let Some(save) = save else {
        return true;
    };
    if grown.count >= MOST_SAVES {
        return false;
    }
    grown.saves[grown.count as usize] = save;
    grown.count += 1;
    true
}

/// Adds the saves of a PUSH to a prologue; false if they are too many.
fn add_push_saves(grown: &mut Prologue, fact: &Fact, list: u16) -> bool
    requires { fact.now.depth ≤ DEEPEST }
    ensures { some_if result grown.new ≡ with_push_saves grown.old fact.now (registers_of_list list) }
{
    let mut fits = true;
    let mut offset = fact.depth;
    for n in 0..16u8 {
        let k = 15 - n;
        if (list >> k) & 1 == 1 {
            offset += 4;
            fits = add_save(grown, fits, save_of_word(offset, fact.source(k)));
        }
    }
    fits
}

impl Straight {
    /// The run at the entry of the function at address `start`: it has no instruction.
    pub fn begin(start: u32) -> Straight
        ensures { result ≡ empty_run start }
    {
        Straight {
            fact: entry_fact(),
            prologue: Prologue {
                end: start,
                count: 0,
                saves: [Save { reg: 0, offset: 0 }; 16],
            },
        }
    }

    /// Adds an instruction's saves to the prologue `grown`; false if they are too many.
    fn add_pushed_by(&self, grown: &mut Prologue, i: &Instr) -> bool
        requires depth { self.now.fact.depth ≤ DEEPEST }
        requires same { grown.old ≡ self.now.prologue }
        ensures { some_if result grown.new ≡ prologue_after self.now i.now }
    {
        match *i {
            Instr::Push { list } => add_push_saves(grown, &self.fact, list),
            plain!()
            | Instr::AddHigh { .. }
            | Instr::MovHigh { .. }
            | Instr::AddSp { .. }
            | Instr::SubSp { .. }
            | Instr::Pop { .. }
            | Instr::Stm { .. }
            | Instr::Ldm { .. }
            | Instr::B { .. }
            | Instr::BWide { .. }
            | Instr::BCond { .. }
            | Instr::Cbz { .. }
            | Instr::Bl { .. }
            | Instr::Blx { .. }
            | Instr::Bx { .. }
            | Instr::Svc { .. } => true,
        }
    }

    /// The run extended by the next instruction, of `size` bytes. None if the prologue ends before it. The caller has to make sure that
    /// no branch goes to one of its halfwords and that no landing pad is there.
    pub fn taken(&self, i: &Instr, size: u32) -> Option<Straight>
        ensures { result ≡ with_instruction self.now i.now size }
    {
        if self.fact.depth > DEEPEST || !may_stand(i) {
            return None;
        }
        let mut prologue = self.prologue;
        if !self.add_pushed_by(&mut prologue, i) {
            return None;
        }
        let at = self.prologue.end;
        prologue.end = at.wrapping_add(size);
        let mut fact = self.fact;
        if effect(&self.fact, &mut fact, i, at, &prologue, false) {
            Some(Straight { fact, prologue })
        } else {
            None
        }
    }
}
