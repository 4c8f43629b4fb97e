//! Runs unwind instructions on a frame's registers, over a memory (IHI 0038, "Frame unwinding instructions"). docs/rules/unwind-tables.md
//! has the table.
ghost use Rattle.std.specs.Prelude.{◌≡◌, List, ◌∷◌, ◌+◌, ◌-◌, ◌*◌, ◌/◌, ◌%◌, ◌^◌, ◌<◌, ◌≤◌, ◌==◌, length, IfOk, IfErr, Ok, Err};
ghost use Rattle.std.specs.Int.{bit_at};
ghost use Rattle.eh_bus.specs.Segment.{Segment};
ghost use Rattle.thumb_core.specs.Words.{load_words, loads_from, registers_of_list};
ghost use Rattle.eh_codes.specs.Bytes.{IsCode};
ghost use Rattle.eh_codes.specs.Cut.{Item, Is, split_codes};
ghost use Rattle.eh_codes.specs.declared.code.UnwindCode.TheVariants.{PopRangeAndLr, Finish};
ghost use Rattle.eh_codes.specs.Meaning.{effect};
ghost use Rattle.eh_bytecode.specs.Meaning.{begin_unwind, finish_registers, address_of, pop_step, effect_step, unwind_result, step_of, unwind_answer};

use crate::codes::Codes;
use eh_bus::bus::Bus;
use eh_bus::fault::BusFault;
use eh_codes::UnwindCode;
use eh_codes::code::{FINISH, LONG_LEAST, POP_RANGE_AND_LR};

/// The virtual register set: the core registers of a frame.
#[derive(Clone, Copy)]
pub struct Vrs {
    /// The values of r0 to r15.
    pub r: [u32; 16],
}

/// How unwinding a frame ends.
#[derive(Clone, Copy)]
pub enum UnwindEnd {
    /// The instructions finish, or there are no more: the registers are the caller's.
    Finished,
    /// The instructions refuse to unwind.
    Refused,
    /// These bytes are no instruction: their index, from the first byte of the instructions.
    BadCode(usize),
    /// A register's word can't be read: the first such address.
    Unreadable(u32),
}

/// The state of unwinding a frame, between two instructions.
#[derive(Drop)]
pub struct UnwindState {
    /// The virtual stack pointer, in bytes.
    pub vsp: u32,
    /// The values of r0 to r15 so far; r13 isn't used, `vsp` has its value.
    pub r: [u32; 16],
    /// Whether pc has been popped.
    pub popped_pc: bool,
}

/// How unwinding goes on after an instruction.
#[derive(Clone, Copy)]
pub enum CodeOutcome {
    /// It goes on with the next instruction.
    Goes,
    /// It ends: the instructions finish.
    Finishes,
    /// It ends without the caller's registers, for this reason.
    Stops(UnwindEnd),
}

/// The address of a refused access.
fn address_of(fault: BusFault) -> u32
    ensures { result ≡ address_of fault }
{
    match fault {
        BusFault::Unmapped(a)
        | BusFault::Unaligned(a)
        | BusFault::ReadOnly(a)
        | BusFault::SavedSlot(a)
        | BusFault::Protected(a)
        | BusFault::NotExecutable(a) => a,
    }
}

/// Loads the registers of a list from the words at address `a`, and returns the number of bytes. Takes time only for the registers in
/// the list.
#[inline(always)]
fn load_list<B: Bus>(list: u16, a: u32, r: &mut [u32; 16], bus: &B) -> Result<u32, BusFault>
    requires { bit_at list 13 ≡ 0 }
    ensures bytes { IfOk result (λ n. n ≡ 4 * length (registers_of_list list)) }
    ensures ok { IfOk result (λ n. load_words (B.memory bus.now).segments a (loads_from 0 (registers_of_list list)) r.old ≡ Ok r.new) }
    ensures fault { IfErr result (λ fault. load_words (B.memory bus.now).segments a (loads_from 0 (registers_of_list list)) r.old ≡ Err fault) }
{
    let mut at = 0;
    let mut rest = u32::from(list);
    while rest != 0 {
        let k = rest.trailing_zeros();
        match bus.load32(a.wrapping_add(at)) {
            Ok(word) => r[k as usize] = word,
            Err(fault) => return Err(fault),
        }
        at += 4;
        rest &= !(1 << k);
    }
    Ok(at)
}

/// The list of r4 to r(4+`last`), as a bit mask.
pub(crate) fn range(last: u8) -> u16
    requires { last < 8 }
    ensures { result ≡ 16 * (2 ^ (last + 1) - 1) }
{
    ((2 << last) - 1) * 16
}

impl UnwindState {
    #[inline(always)]
    fn begin_unwind(vrs: &Vrs) -> UnwindState
        ensures { result ≡ begin_unwind vrs.now.r }
    {
        UnwindState {
            vsp: vrs.r[13],
            r: vrs.r,
            popped_pc: false,
        }
    }

    /// Pops the registers of a list, the lowest first; sp must not be in the list.
    #[inline(always)]
    fn pop<B: Bus>(&mut self, list: u16, bus: &B) -> CodeOutcome
        requires { bit_at list 13 ≡ 0 }
        ensures { pop_step self.old (registers_of_list list) (load_words (B.memory bus.now).segments self.old.vsp (loads_from 0 (registers_of_list list)) self.old.r) ≡ step_of result self.new }
    {
        match load_list(list, self.vsp, &mut self.r, bus) {
            Ok(bytes) => {
                self.vsp = self.vsp.wrapping_add(bytes);
                self.popped_pc = self.popped_pc || list >> 15 == 1;
                CodeOutcome::Goes
            }
            Err(fault) => CodeOutcome::Stops(UnwindEnd::Unreadable(address_of(fault))),
        }
    }

    /// Executes an instruction.
    #[inline(always)]
    fn apply<B: Bus>(&mut self, code: UnwindCode, bus: &B) -> CodeOutcome
        requires { IsCode code }
        ensures { effect_step (B.memory bus.now).segments self.old (effect code) ≡ step_of result self.new }
    {
        let list = match code {
            UnwindCode::PopMask(mask) => 16 * mask,
            UnwindCode::PopRange(last) => range(last),
            UnwindCode::PopRangeAndLr(last) => range(last) + 0x4000,
            UnwindCode::PopLow(mask) => u16::from(mask),
            UnwindCode::Raise(words) => {
                self.vsp = self.vsp.wrapping_add(4 * u32::from(words) + 4);
                return CodeOutcome::Goes;
            }
            UnwindCode::Lower(words) => {
                self.vsp = self.vsp.wrapping_sub(4 * u32::from(words) + 4);
                return CodeOutcome::Goes;
            }
            UnwindCode::RaiseLong(words) => {
                let by = words.wrapping_mul(4).wrapping_add(LONG_LEAST);
                self.vsp = self.vsp.wrapping_add(by);
                return CodeOutcome::Goes;
            }
            UnwindCode::Restore(register) => {
                self.vsp = self.r[register as usize];
                return CodeOutcome::Goes;
            }
            UnwindCode::Refuse => return CodeOutcome::Stops(UnwindEnd::Refused),
            UnwindCode::Finish => return CodeOutcome::Finishes,
        };
        self.pop(list, bus)
    }

    /// Writes the caller's registers to `vrs`.
    #[inline(always)]
    fn finish(&self, vrs: &mut Vrs)
        ensures { vrs.new.r ≡ finish_registers self.now }
    {
        vrs.r = self.r;
        if !self.popped_pc {
            vrs.r[15] = self.r[14];
        }
        vrs.r[13] = self.vsp;
    }
}

/// Unwinds a frame whose instructions pop r4 to r(4+`last`) and lr, and then finish.
#[inline(always)]
fn unwind_saves<B: Bus>(last: u8, vrs: &mut Vrs, bus: &B) -> UnwindEnd
    requires { last < 8 }
    ensures { (more : List Item) → (result, vrs.new) ≡ unwind_answer vrs.old (unwind_result (B.memory bus.now).segments vrs.old.r (Is (PopRangeAndLr last) ∷ Is Finish ∷ more)) }
{
    let mut state = UnwindState::begin_unwind(vrs);
    match state.apply(UnwindCode::PopRangeAndLr(last), bus) {
        CodeOutcome::Stops(end) => end,
        CodeOutcome::Goes => {
            state.finish(vrs);
            UnwindEnd::Finished
        }
        CodeOutcome::Finishes => {
            state.finish(vrs);
            UnwindEnd::Finished
        }
    }
}

/// Unwinds a frame whose first instruction is finish.
#[inline(always)]
fn unwind_by_finish(vrs: &mut Vrs) -> UnwindEnd
    ensures { (segments : List Segment) (more : List Item) → (result, vrs.new) ≡ unwind_answer vrs.old (unwind_result segments vrs.old.r (Is Finish ∷ more)) }
{
    let state = UnwindState::begin_unwind(vrs);
    state.finish(vrs);
    UnwindEnd::Finished
}

/// Unwinds a frame by the remaining instructions, over a memory. `vrs` changes only if they finish; then it has the caller's registers.
/// The most common instruction sequences are recognised by their first one or two bytes.
pub fn unwind<B: Bus>(codes: &Codes, vrs: &mut Vrs, bus: &B) -> UnwindEnd
    ensures { (result, vrs.new) ≡ unwind_answer vrs.old (unwind_result (B.memory bus.now).segments vrs.old.r (split_codes codes.now)) }
{
    let mut left = codes.copy();
    if let Some(first) = left.next() {
        if first == FINISH {
            return unwind_by_finish(vrs);
        }
        if first >= POP_RANGE_AND_LR && first < FINISH {
            if let Some(second) = left.next() {
                if second == FINISH {
                    return unwind_saves(first % 8, vrs, bus);
                }
            }
        }
    }
    unwind_each(codes, vrs, bus)
}

/// As `unwind`, one instruction at a time.
#[inline(never)]
fn unwind_each<B: Bus>(codes: &Codes, vrs: &mut Vrs, bus: &B) -> UnwindEnd
    ensures { (result, vrs.new) ≡ unwind_answer vrs.old (unwind_result (B.memory bus.now).segments vrs.old.r (split_codes codes.now)) }
{
    let mut state = UnwindState::begin_unwind(vrs);
    let mut left = codes.copy();
    while let Some(first) = left.next() {
        let Some(code) = left.take_code(first) else {
            return UnwindEnd::BadCode(codes.len() - left.len() - 1);
        };
        match state.apply(code, bus) {
            CodeOutcome::Goes => {}
            CodeOutcome::Finishes => break,
            CodeOutcome::Stops(end) => return end,
        }
    }
    state.finish(vrs);
    UnwindEnd::Finished
}
