//! PUSH, POP, STM and LDM (docs/rules/instructions.md, "Lists"). A list contains low registers, and for PUSH and POP also lr or pc.
ghost use Rattle.std.specs.Prelude.{◌≡◌, ◌%◌, ◌^◌, ◌<◌, ◌≤◌, length, take, IfOk, IfErr, Ok, Err};
ghost use Rattle.thumb_core.specs.Words.{load_words, loads_from, registers_of_list, words_in};
ghost use Rattle.thumb_core.specs.Lists.{bytes_of, push, stm, ldm, pop};

use crate::regs::{CoreTrap, LR, PC, Regs, SP, Stepped, word_in};
use eh_bus::bus::Bus;
use eh_bus::fault::BusFault;

/// The most registers of a list: the eight low ones and one more.
const MOST: usize = 9;

/// Copies the low registers of a list into `words`, lowest first, and gives their number.
#[tactic(auto, using(crate::proofs::Listed::listed_all, crate::proofs::Listed::listed_more, crate::proofs::Loaded::low_none))]
fn low_words(list: u8, r: &[u32; 15], words: &mut [u32; MOST]) -> usize
    ensures within { result ≤ 8 }
    ensures count { result ≡ length (registers_of_list list) }
    ensures words { take result words.new ≡ words_in r.now (registers_of_list list) }
{
    let mut count = 0;
    for k in 0..8 {
        if (list >> k) & 1 == 1 {
            words[count] = r[k];
            count += 1;
        }
    }
    count
}

/// Copies the registers of a PUSH list, which may contain lr, into `words` and gives their number.
fn pushed_words(list: u16, r: &[u32; 15], words: &mut [u32; MOST]) -> usize
    requires list_in { list < 2 ^ 15 }
    requires low { list % 2 ^ 14 < 2 ^ 8 }
    ensures within { result ≤ 9 }
    ensures count { result ≡ length (registers_of_list list) }
    ensures words { take result words.new ≡ words_in r.now (registers_of_list list) }
{
    let count = low_words((list % 0x100) as u8, r, words);
    if (list >> LR) & 1 == 0 {
        return count;
    }
    words[count] = r[LR as usize];
    count + 1
}

/// Loads the low registers of a list from address `a` on, and gives the number of bytes that were loaded.
#[tactic(auto, using(crate::proofs::Listed::listed_all, crate::proofs::Listed::listed_more, crate::proofs::Loaded::low_none))]
fn load_low<B: Bus>(list: u8, a: u32, r: &mut [u32; 15], bus: &B) -> Result<u32, BusFault>
    ensures bytes { IfOk result (λ n. n ≡ bytes_of list) }
    ensures ok { IfOk result (λ n. load_words (B.memory bus.now).segments a (loads_from 0 (registers_of_list list)) r.old ≡ Ok r.new) }
    ensures fault { IfErr result (λ fault. load_words (B.memory bus.now).segments a (loads_from 0 (registers_of_list list)) r.old ≡ Err fault) }
{
    let mut at = 0;
    for k in 0..8u8 {
        if (list >> k) & 1 == 1 {
            match bus.load32(a.wrapping_add(at)) {
                Ok(word) => r[k as usize] = word_in(k, word),
                Err(fault) => return Err(fault),
            }
            at += 4;
        }
    }
    Ok(at)
}

/// PUSH.
pub(crate) fn push<B: Bus>(list: u16, size: u32, regs: &mut Regs, bus: &mut B) -> Stepped
    requires list_in { list < 2 ^ 15 }
    requires low { list % 2 ^ 14 < 2 ^ 8 }
    ensures { (result, regs.new, B.memory bus.new) ≡ push list size regs.old (B.memory bus.old) }
{
    let mut words = [0; MOST];
    let count = pushed_words(list, &regs.r, &mut words);
    let a = regs.reg(SP).wrapping_sub(4 * count as u32);
    if let Err(fault) = bus.store_run(a, &words[..count]) {
        return Stepped::Trap(CoreTrap::Memory(fault));
    }
    regs.set_register(SP, a);
    regs.advance(size);
    Stepped::Done
}

/// STM.
pub(crate) fn stm<B: Bus>(n: u8, list: u16, size: u32, regs: &mut Regs, bus: &mut B) -> Stepped
    requires n_in { n < 8 }
    requires list_in { list < 2 ^ 8 }
    ensures { (result, regs.new, B.memory bus.new) ≡ stm n list size regs.old (B.memory bus.old) }
{
    let mut words = [0; MOST];
    let count = low_words(list as u8, &regs.r, &mut words);
    let a = regs.reg(n);
    if let Err(fault) = bus.store_run(a, &words[..count]) {
        return Stepped::Trap(CoreTrap::Memory(fault));
    }
    regs.set_register(n, a.wrapping_add(4 * count as u32));
    regs.advance(size);
    Stepped::Done
}

/// LDM.
pub(crate) fn ldm<B: Bus>(n: u8, list: u16, size: u32, regs: &mut Regs, bus: &B) -> Stepped
    requires n_in { n < 8 }
    requires list_in { list < 2 ^ 8 }
    ensures { (result, regs.new, B.memory bus.now) ≡ ldm n list size regs.old (B.memory bus.now) }
{
    let a = regs.reg(n);
    let mut r = regs.r;
    match load_low(list as u8, a, &mut r, bus) {
        Ok(bytes) => {
            regs.r = r;
            if (list >> n) & 1 == 0 {
                regs.set_register(n, a.wrapping_add(bytes));
            }
            regs.advance(size);
            Stepped::Done
        }
        Err(fault) => Stepped::Trap(CoreTrap::Memory(fault)),
    }
}

/// POP. If a word can't be loaded, or the one for pc has bit 0 clear, the registers are restored.
pub(crate) fn pop<B: Bus>(list: u16, size: u32, regs: &mut Regs, bus: &B) -> Stepped
    requires { list % 2 ^ 15 < 2 ^ 8 }
    ensures { (result, regs.new, B.memory bus.now) ≡ pop list size regs.old (B.memory bus.now) }
{
    let a = regs.reg(SP);
    let before = regs.r;
    let after = match load_low((list % 0x100) as u8, a, &mut regs.r, bus) {
        Ok(bytes) => a.wrapping_add(bytes),
        Err(fault) => {
            regs.r = before;
            return Stepped::Trap(CoreTrap::Memory(fault));
        }
    };
    if (list >> PC) & 1 == 0 {
        regs.set_register(SP, after);
        regs.advance(size);
        return Stepped::Done;
    }
    let target = match bus.load32(after) {
        Ok(word) => word,
        Err(fault) => {
            regs.r = before;
            return Stepped::Trap(CoreTrap::Memory(fault));
        }
    };
    if target % 2 == 0 {
        regs.r = before;
        return Stepped::Trap(CoreTrap::EvenTarget(target));
    }
    regs.set_register(SP, after.wrapping_add(4));
    regs.go_to(target);
    Stepped::Return { to: target }
}
