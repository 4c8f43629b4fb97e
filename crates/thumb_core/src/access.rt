//! Loads and stores of a single register (docs/rules/instructions.md, "Loads, stores and addresses").
ghost use Rattle.std.specs.Prelude.{◌≡◌, ◌<◌};
ghost use Rattle.eh_bus.specs.Memory.{load};
ghost use Rattle.thumb_core.specs.Access.{store_result, load_result, sign_extend_result, store_reg, load_reg, reg_access, imm_access, sp_access};

use crate::data::{signed_byte, signed_half};
use crate::regs::{CoreTrap, Regs, Stepped};
use eh_bus::bus::Bus;
use eh_bus::fault::BusFault;

// The operations of `Instr::MemReg`; the numbers are the opcode field of their encoding.
/// STR (register).
pub const STR_REG: u8 = 0;

/// STRH (register).
pub const STRH_REG: u8 = 1;

/// STRB (register).
pub const STRB_REG: u8 = 2;

/// LDRSB (register).
pub const LDRSB_REG: u8 = 3;

/// LDR (register).
pub const LDR_REG: u8 = 4;

/// LDRH (register).
pub const LDRH_REG: u8 = 5;

/// LDRB (register).
pub const LDRB_REG: u8 = 6;

/// LDRSH (register).
pub const LDRSH_REG: u8 = 7;

// The operations of `Instr::MemImm`.
/// STR (immediate).
pub const STR_IMM: u8 = 0;

/// LDR (immediate).
pub const LDR_IMM: u8 = 1;

/// STRB (immediate).
pub const STRB_IMM: u8 = 2;

/// LDRB (immediate).
pub const LDRB_IMM: u8 = 3;

/// STRH (immediate).
pub const STRH_IMM: u8 = 4;

/// LDRH (immediate).
pub const LDRH_IMM: u8 = 5;

/// Finishes a store: advances pc, or traps with the store's fault.
fn end_store(answer: Result<(), BusFault>, size: u32, regs: &mut Regs) -> Stepped
    ensures { (result, regs.new) ≡ store_result answer size regs.old regs.old }
{
    match answer {
        Ok(()) => {
            regs.advance(size);
            Stepped::Done
        }
        Err(fault) => Stepped::Trap(CoreTrap::Memory(fault)),
    }
}

/// Finishes a load: writes the register and advances pc, or traps with the load's fault.
fn end_load(answer: Result<u32, BusFault>, t: u8, size: u32, regs: &mut Regs) -> Stepped
    requires { t < 8 }
    ensures { (result, regs.new) ≡ load_result answer t size regs.old }
{
    match answer {
        Ok(value) => {
            regs.put_low(t, value);
            regs.advance(size);
            Stepped::Done
        }
        Err(fault) => Stepped::Trap(CoreTrap::Memory(fault)),
    }
}

/// STR.
fn store_word<B: Bus>(t: u8, a: u32, size: u32, regs: &mut Regs, bus: &mut B) -> Stepped
    requires { t < 8 }
    ensures { (result, regs.new, B.memory bus.new) ≡ store_reg 4 t a size regs.old (B.memory bus.old) }
{
    end_store(bus.store32(a, regs.reg(t)), size, regs)
}

/// STRH.
fn store_half<B: Bus>(t: u8, a: u32, size: u32, regs: &mut Regs, bus: &mut B) -> Stepped
    requires { t < 8 }
    ensures { (result, regs.new, B.memory bus.new) ≡ store_reg 2 t a size regs.old (B.memory bus.old) }
{
    end_store(bus.store16(a, (regs.reg(t) % 0x1_0000) as u16), size, regs)
}

/// STRB.
fn store_byte<B: Bus>(t: u8, a: u32, size: u32, regs: &mut Regs, bus: &mut B) -> Stepped
    requires { t < 8 }
    ensures { (result, regs.new, B.memory bus.new) ≡ store_reg 1 t a size regs.old (B.memory bus.old) }
{
    end_store(bus.store8(a, (regs.reg(t) % 0x100) as u8), size, regs)
}

/// Loads a halfword, extended by zeros.
fn half_at<B: Bus>(a: u32, bus: &B) -> Result<u32, BusFault>
    ensures { result ≡ load 2 (B.memory bus.now) a }
{
    Ok(u32::from(bus.load16(a)?))
}

/// Loads a byte, extended by zeros.
fn byte_at<B: Bus>(a: u32, bus: &B) -> Result<u32, BusFault>
    ensures { result ≡ load 1 (B.memory bus.now) a }
{
    Ok(u32::from(bus.load8(a)?))
}

/// Loads a halfword, extended by its sign.
fn signed_half_at<B: Bus>(a: u32, bus: &B) -> Result<u32, BusFault>
    ensures { result ≡ sign_extend_result 2 (load 2 (B.memory bus.now) a) }
{
    Ok(signed_half(half_at(a, bus)?))
}

/// Loads a byte, extended by its sign.
fn signed_byte_at<B: Bus>(a: u32, bus: &B) -> Result<u32, BusFault>
    ensures { result ≡ sign_extend_result 1 (load 1 (B.memory bus.now) a) }
{
    Ok(signed_byte(byte_at(a, bus)?))
}

/// LDR.
pub(crate) fn load_word<B: Bus>(t: u8, a: u32, size: u32, regs: &mut Regs, bus: &B) -> Stepped
    requires { t < 8 }
    ensures { (result, regs.new, B.memory bus.now) ≡ load_reg 4 t a size regs.old (B.memory bus.now) }
{
    end_load(bus.load32(a), t, size, regs)
}

/// A load or store at the sum of two registers.
pub(crate) fn mem_reg<B: Bus>(
    op: u8,
    t: u8,
    a: u32,
    size: u32,
    regs: &mut Regs,
    bus: &mut B,
) -> Stepped
    requires { t < 8 }
    ensures { (result, regs.new, B.memory bus.new) ≡ reg_access op t a size regs.old (B.memory bus.old) }
{
    match op {
        STR_REG => store_word(t, a, size, regs, bus),
        STRH_REG => store_half(t, a, size, regs, bus),
        STRB_REG => store_byte(t, a, size, regs, bus),
        LDRSB_REG => end_load(signed_byte_at(a, bus), t, size, regs),
        LDR_REG => load_word(t, a, size, regs, bus),
        LDRH_REG => end_load(half_at(a, bus), t, size, regs),
        LDRB_REG => end_load(byte_at(a, bus), t, size, regs),
        _ => end_load(signed_half_at(a, bus), t, size, regs),
    }
}

/// A load or store at a register plus an offset.
pub(crate) fn mem_imm<B: Bus>(
    op: u8,
    t: u8,
    a: u32,
    size: u32,
    regs: &mut Regs,
    bus: &mut B,
) -> Stepped
    requires { t < 8 }
    ensures { (result, regs.new, B.memory bus.new) ≡ imm_access op t a size regs.old (B.memory bus.old) }
{
    match op {
        STR_IMM => store_word(t, a, size, regs, bus),
        LDR_IMM => load_word(t, a, size, regs, bus),
        STRB_IMM => store_byte(t, a, size, regs, bus),
        LDRB_IMM => end_load(byte_at(a, bus), t, size, regs),
        STRH_IMM => store_half(t, a, size, regs, bus),
        _ => end_load(half_at(a, bus), t, size, regs),
    }
}

/// STR or LDR at sp plus an offset.
pub(crate) fn mem_sp<B: Bus>(
    load: bool,
    t: u8,
    a: u32,
    size: u32,
    regs: &mut Regs,
    bus: &mut B,
) -> Stepped
    requires { t < 8 }
    ensures { (result, regs.new, B.memory bus.new) ≡ sp_access load t a size regs.old (B.memory bus.old) }
{
    if load {
        load_word(t, a, size, regs, bus)
    } else {
        store_word(t, a, size, regs, bus)
    }
}
