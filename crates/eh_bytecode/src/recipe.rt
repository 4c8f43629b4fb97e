//! The effect of unwind instructions without a memory: where each of the caller's registers comes from. docs/rules/unwind-tables.md says
//! what a recipe means.
ghost use Rattle.std.specs.Prelude.{◌≡◌, ◌+◌, ◌-◌, ◌*◌, ◌/◌, ◌%◌, ◌^◌, ◌<◌, ◌≤◌, ◌==◌, length, ℤ, pos, ◌+ℤ◌, ◌-ℤ◌, ◌≤ℤ◌, Ok, Err, Option};
ghost use Rattle.std.specs.Int.{bit_at};
ghost use Rattle.thumb_core.specs.Words.{registers_of_list};
ghost use Rattle.eh_codes.specs.Bytes.{IsCode};
ghost use Rattle.eh_codes.specs.Cut.{split_codes};
ghost use Rattle.eh_codes.specs.Meaning.{effect, Pops};
ghost use Rattle.eh_bytecode.specs.Recipe.{fill_sources, word_source, is_same, is_far, unless_far, take_base, recipe_of, sum_after, recipe, total_of, empty_recipe, IsNear};

use crate::codes::Codes;
use crate::frame::range;
use eh_codes::UnwindCode;
use eh_codes::code::LONG_LEAST;

/// Where one of the caller's registers comes from.
#[derive(Clone, Copy)]
pub enum Src {
    /// The frame's value of the same register; for pc, that of lr.
    Same,
    /// The word at this offset in bytes from the stack pointer.
    FromSp(i32),
    /// The word at this offset in bytes from the value of the base register.
    FromBase(i32),
}

/// How the caller's registers follow from a frame's. The new stack pointer is the value of the register `base` plus `vsp`.
#[derive(Clone, Copy)]
pub struct Recipe {
    /// The number of the register that the virtual stack pointer is computed from; 13 unless an instruction names another.
    pub base: u8,
    /// The offset of the new stack pointer from that register, in bytes.
    pub vsp: i32,
    /// Where r0 to r15 come from; the source of r13 is `Same` and isn't used.
    pub src: [Src; 16],
}

/// Why unwind instructions have no recipe. The first instruction with a fault decides.
#[derive(Clone, Copy)]
pub enum RecipeFault {
    /// These bytes are no instruction.
    BadCode,
    /// The instructions refuse to unwind.
    Refuses,
    /// The virtual stack pointer isn't a fixed offset from one register. It is computed from a second register, or from one that was
    /// popped; or it is more than 65,536 bytes away from its base.
    NotStatic,
}

/// The largest distance of the virtual stack pointer from its base register, in bytes.
pub const MOST_OFFSET: u32 = 65_536;

/// The recipe of the instructions so far.
#[derive(Drop)]
pub struct PartialRecipe {
    /// The register that the virtual stack pointer is computed from; None while it is the stack pointer.
    pub base: Option<u8>,
    /// The offset of the virtual stack pointer from that register, or from the stack pointer, in bytes.
    pub vsp: i32,
    /// Where r0 to r15 come from so far.
    pub src: [Src; 16],
}

/// How computing a recipe goes on after an instruction.
#[derive(Clone, Copy)]
pub enum RecipeStep {
    /// It goes on with the next instruction.
    Goes,
    /// It ends: the instructions finish.
    Finishes,
    /// It ends without a recipe, for this reason.
    Stops(RecipeFault),
}

impl Src {
    fn is_same(self) -> bool
        ensures { result ≡ is_same self }
    {
        match self {
            Src::Same => true,
            Src::FromSp(_) | Src::FromBase(_) => false,
        }
    }
}

/// The word at an offset in bytes from the base register (`based`), or else from the stack pointer.
fn from(based: bool, offset: i32) -> Src
    ensures { result ≡ word_source based offset }
{
    if based {
        Src::FromBase(offset)
    } else {
        Src::FromSp(offset)
    }
}

/// The offset `words` words after an offset.
#[tactic(auto, using(crate::proofs::Near::near_high, crate::proofs::Near::near_low, crate::proofs::Near::signs))]
fn offset_at(offset: i32, words: u8) -> i32
    requires near { IsNear offset }
    requires few { words ≤ 16 }
    ensures { result ≡ offset +ℤ pos (4 * words) }
{
    offset + i32::from(4 * words)
}

/// Sets the sources of the registers of a list to consecutive words from `offset` on, and returns the offset after them.
#[tactic(auto, using(thumb_core::proofs::Listed::listed_all, thumb_core::proofs::Listed::listed_more, thumb_core::proofs::Listed::listed_none))]
fn fill_sources(based: bool, offset: i32, list: u16, src: &mut [Src; 16]) -> i32
    requires { IsNear offset }
    ensures after { result ≡ offset +ℤ pos (4 * length (registers_of_list list)) }
    ensures filled { src.new ≡ fill_sources based offset (registers_of_list list) src.old }
{
    let mut words = 0u8;
    for k in 0..16u8 {
        if (list >> k) & 1 == 1 {
            src[k as usize] = from(based, offset_at(offset, words));
            words += 1;
        }
    }
    offset_at(offset, words)
}

/// Whether an offset is more than `MOST_OFFSET` bytes from 0.
fn is_far(offset: i64) -> bool
    ensures { result ≡ is_far offset }
{
    let most = i64::from(MOST_OFFSET);
    offset > most || offset < -most
}

impl PartialRecipe {
    fn empty_recipe() -> PartialRecipe
        ensures { result ≡ empty_recipe }
    {
        PartialRecipe {
            base: None,
            vsp: 0,
            src: [Src::Same; 16],
        }
    }

    /// Sets the offset of the virtual stack pointer, if it isn't too far.
    fn moves(&mut self, to: i64) -> RecipeStep
        ensures moved { unless_far (record self.old { vsp = to }) ≡ total_of result self.new }
        ensures near { result ≡ RecipeStep.Goes → IsNear self.new.vsp }
    {
        if is_far(to) {
            return RecipeStep::Stops(RecipeFault::NotStatic);
        }
        self.vsp = to as i32;
        RecipeStep::Goes
    }

    /// Raises the virtual stack pointer by `by` bytes, if that isn't too far.
    #[tactic(auto, using(crate::proofs::Near::near_high, crate::proofs::Near::near_low, crate::proofs::Near::signs))]
    fn raise_vsp(&mut self, by: u64) -> RecipeStep
        requires near { IsNear self.old.vsp }
        requires fits { by < 2 ^ 40 }
        ensures risen { unless_far (record self.old { vsp = self.old.vsp +ℤ pos by }) ≡ total_of result self.new }
        ensures near { result ≡ RecipeStep.Goes → IsNear self.new.vsp }
    {
        self.moves(i64::from(self.vsp) + by as i64)
    }

    /// Lowers the virtual stack pointer by `by` bytes, if that isn't too far.
    #[tactic(auto, using(crate::proofs::Near::near_high, crate::proofs::Near::near_low, crate::proofs::Near::signs))]
    fn lower_vsp(&mut self, by: u64) -> RecipeStep
        requires near { IsNear self.old.vsp }
        requires fits { by < 2 ^ 40 }
        ensures fallen { unless_far (record self.old { vsp = self.old.vsp -ℤ pos by }) ≡ total_of result self.new }
        ensures near { result ≡ RecipeStep.Goes → IsNear self.new.vsp }
    {
        self.moves(i64::from(self.vsp) - by as i64)
    }

    /// Pops the registers of a list.
    fn pop(&mut self, list: u16) -> RecipeStep
        requires { IsNear self.old.vsp }
        ensures popped { sum_after self.old (Pops (registers_of_list list)) ≡ total_of result self.new }
        ensures near { result ≡ RecipeStep.Goes → IsNear self.new.vsp }
    {
        let after = fill_sources(self.base.is_some(), self.vsp, list, &mut self.src);
        self.moves(i64::from(after))
    }

    /// Computes the virtual stack pointer from a register from here on.
    fn take_base(&mut self, register: u8) -> RecipeStep
        requires { register < 16 }
        ensures taken { take_base self.old register ≡ total_of result self.new }
        ensures near { result ≡ RecipeStep.Goes → IsNear self.new.vsp }
    {
        if self.base.is_some() || !self.src[register as usize].is_same() {
            return RecipeStep::Stops(RecipeFault::NotStatic);
        }
        self.base = Some(register);
        self.vsp = 0;
        RecipeStep::Goes
    }

    /// Adds the effect of an instruction.
    fn add(&mut self, code: UnwindCode) -> RecipeStep
        requires code { IsCode code }
        requires near { IsNear self.old.vsp }
        ensures added { sum_after self.old (effect code) ≡ total_of result self.new }
        ensures near { result ≡ RecipeStep.Goes → IsNear self.new.vsp }
    {
        match code {
            UnwindCode::Raise(words) => self.raise_vsp(4 * u64::from(words) + 4),
            UnwindCode::Lower(words) => self.lower_vsp(4 * u64::from(words) + 4),
            UnwindCode::RaiseLong(words) => self.raise_vsp(
                u64::from(LONG_LEAST) + 4 * u64::from(words),
            ),
            UnwindCode::Restore(register) => self.take_base(register),
            UnwindCode::PopMask(mask) => self.pop(16 * mask),
            UnwindCode::PopRange(last) => self.pop(range(last)),
            UnwindCode::PopRangeAndLr(last) => self.pop(range(last) + 0x4000),
            UnwindCode::PopLow(mask) => self.pop(u16::from(mask)),
            UnwindCode::Refuse => RecipeStep::Stops(RecipeFault::Refuses),
            UnwindCode::Finish => RecipeStep::Finishes,
        }
    }

    /// The finished recipe.
    fn recipe(&self) -> Recipe
        ensures { result ≡ recipe_of self.now }
    {
        let mut src = self.src;
        if src[15].is_same() {
            src[15] = src[14];
        }
        Recipe {
            base: self.base.unwrap_or(13),
            vsp: self.vsp,
            src,
        }
    }
}

/// The recipe of the remaining instructions; Err if they have none.
pub fn summarise(codes: &Codes) -> Result<Recipe, RecipeFault>
    ensures { result ≡ recipe (split_codes codes.now) }
{
    let mut sum = PartialRecipe::empty_recipe();
    let mut left = codes.copy();
    while let Some(first) = left.next() {
        let Some(code) = left.take_code(first) else {
            return Err(RecipeFault::BadCode);
        };
        match sum.add(code) {
            RecipeStep::Goes => {}
            RecipeStep::Finishes => break,
            RecipeStep::Stops(fault) => return Err(fault),
        }
    }
    Ok(sum.recipe())
}
