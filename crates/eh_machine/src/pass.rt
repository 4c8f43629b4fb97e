//! One instruction before its gate: it is fetched once, done and checked, and its saved words are guarded (docs/rules/machine.md, "An event").
//! Most instructions are checked before they are done (`fast_path`), the others after (`pass`).
ghost use Rattle.std.specs.Prelude.{◌≡◌, ℕ, true, None, IfSome, IfOk, IfErr};
ghost use Rattle.thumb_isa.specs.Range.{InRange};
ghost use Rattle.thumb_isa.specs.declared.instr.Instr.{Instr};
ghost use Rattle.thumb_isa.specs.declared.instr.Instr.TheVariants.{Svc};
ghost use Rattle.thumb_core.specs.declared.regs.Regs.{Regs};
ghost use Rattle.thumb_ahead.specs.Ahead.{IsAhead, IsFallThrough, IsJump, IsOther};
ghost use Rattle.thumb_ahead.specs.UndoRecord.{Restores};
ghost use Rattle.sim_machines.specs.Checked.{program_of};
ghost use Rattle.sim_machines.specs.Program.{Program, profile_in};
ghost use Rattle.eh_cxa.specs.Words.{word};
ghost use Rattle.eh_cxa.specs.Cleanup.{innermost_of};
ghost use Rattle.eh_machine.specs.Cached.{IsCache};
ghost use Rattle.eh_machine.specs.Passes.{IsCall, IsFetched, Passes, Tells, TriesInstruction, next_address};

use crate::decode_cache::DecodeCache;
use crate::guards::{guard_pushed, update_guards};
use crate::tests_of::{has_room, may_continue, refusal};
use eh_bus::bus::Bus;
use eh_cxa::{Globals, innermost_sp};
use eh_gates::Core;
use frame_check::Accepted;
use run_gates::trap_end;
use thumb_ahead::{Ahead, UndoRecord, look_ahead, undo_record_of};
use thumb_core::ends::{End, TrapKind};
use thumb_core::regs::{SP, Stepped, are_words};
use thumb_core::step::{execute, fetch_for};
use thumb_isa::instr::Instr;

/// The instruction at an address, with what the checker says of it.
#[derive(Clone, Copy)]
pub(crate) struct CheckedInstr {
    /// The decoded instruction.
    pub(crate) instr: Instr,
    /// Its size in bytes: 2 or 4.
    pub(crate) size: u32,
    /// Whether sp may not rise here (a lowering place).
    pub(crate) lowers: bool,
    /// Whether a function begins where the instruction goes on by itself: at the target of a BL, and after any other.
    pub(crate) meets_function: bool,
    /// Which of the words that it pushes are saved registers: bit k stands for word k.
    pub(crate) saves: u16,
}

/// Whether a function begins where an instruction of `size` bytes goes on by itself.
fn meets_function(a: &Accepted, address: u32, i: Instr, size: u32) -> bool
    ensures { result ≡ ((program_of a.now).look (next_address i size address)).is_function }
{
    let next = match i {
        Instr::Bl { off } => address.wrapping_add(4).wrapping_add_signed(off),
        _ => address.wrapping_add(size),
    };
    a.is_function(next - next % 2)
}

/// The instruction at pc by the rows of the image's profile, if the checker reached it. Otherwise the end of the run: FellOff, or the
/// trap of the fetch.
#[inline(always)]
pub(crate) fn fetch_checked<B: Bus>(a: &Accepted, core: &Core, bus: &B) -> Result<CheckedInstr, End>
    ensures fetched { IfOk result (λ at. IsFetched (program_of a.now) core.now.regs.pc (B.memory bus.now) at) }
    ensures ends { IfErr result (λ end. Passes (program_of a.now) core.now (B.memory bus.now) (Err end) core.now (B.memory bus.now)) }
{
    let pc = core.regs.pc;
    let known = a.is_instr(pc);
    if !known {
        return Err(End::Trap(TrapKind::FellOff, pc, pc));
    }
    match fetch_for(a.profile(), &core.regs, bus) {
        Ok(at) => Ok(CheckedInstr {
            instr: at.0,
            size: at.1,
            lowers: a.lowers_at(pc),
            meets_function: meets_function(a, pc, at.0, at.1),
            saves: a.saves_at(pc),
        }),
        Err(trap) => Err(trap_end(trap, pc)),
    }
}

// ---- most instructions

/// Does the instruction `at` pc if its checks pass and it doesn't trap, and says whether it did. Otherwise nothing is changed.
/// Straight-line instructions and branches are checked beforehand, so nothing has to be kept for them.
#[inline(always)]
pub(crate) fn fast_path<B: Bus>(
    a: &Accepted,
    cache: Option<&DecodeCache>,
    at: &CheckedInstr,
    ahead: Ahead,
    core: &mut Core,
    bus: &mut B,
) -> bool
    requires cache { IfSome cache (λ c. IsCache (program_of a.now) c.now) }
    requires fetched { IsFetched (program_of a.now) core.old.regs.pc (B.memory bus.old) at.now }
    requires told { IsAhead at.now.instr core.old.regs ahead }
    ensures { TriesInstruction (program_of a.now) core.old (B.memory bus.old) result core.new (B.memory bus.new) }
{
    match ahead {
        Ahead::FallThrough => fall_through(at, 0, core, bus),
        Ahead::Pushes { count } => fall_through(at, count, core, bus),
        Ahead::Jumps { to } => jump(at, to, core, bus),
        Ahead::Other { branches } => fast_call_or_return(a, cache, at, branches, core, bus),
    }
}

/// The same for instructions that move sp or leave their function: those that calls and returns consist of.
#[inline(always)]
fn fast_call_or_return<B: Bus>(
    a: &Accepted,
    cache: Option<&DecodeCache>,
    at: &CheckedInstr,
    branches: bool,
    core: &mut Core,
    bus: &mut B,
) -> bool
    requires cache { IfSome cache (λ c. IsCache (program_of a.now) c.now) }
    requires fetched { IsFetched (program_of a.now) core.old.regs.pc (B.memory bus.old) at.now }
    requires told { IsOther at.now.instr core.old.regs branches }
    ensures { TriesInstruction (program_of a.now) core.old (B.memory bus.old) result core.new (B.memory bus.new) }
{
    match at.instr {
        Instr::Bl { off } => call(at, Instr::Bl { off }, core, bus),
        Instr::Pop { list } => do_and_test(a, cache, at, Instr::Pop { list }, branches, core, bus),
        _ => fast_rest(a, cache, at, branches, core, bus),
    }
}

/// The same for the remaining kinds, in a call of its own: so the common calls and returns are built into the loop.
#[inline(never)]
fn fast_rest<B: Bus>(
    a: &Accepted,
    cache: Option<&DecodeCache>,
    at: &CheckedInstr,
    branches: bool,
    core: &mut Core,
    bus: &mut B,
) -> bool
    requires cache { IfSome cache (λ c. IsCache (program_of a.now) c.now) }
    requires fetched { IsFetched (program_of a.now) core.old.regs.pc (B.memory bus.old) at.now }
    requires told { IsOther at.now.instr core.old.regs branches }
    ensures { TriesInstruction (program_of a.now) core.old (B.memory bus.old) result core.new (B.memory bus.new) }
{
    match at.instr {
        Instr::Bx { m } => do_and_test(a, cache, at, Instr::Bx { m }, branches, core, bus),
        Instr::AddSp { off } => do_and_test(
            a,
            cache,
            at,
            Instr::AddSp { off },
            branches,
            core,
            bus,
        ),
        Instr::SubSp { off } => do_and_test(
            a,
            cache,
            at,
            Instr::SubSp { off },
            branches,
            core,
            bus,
        ),
        _ => false,
    }
}

/// Whether no cleanup is in progress. The head of their chain says it, so memory isn't read.
#[inline(always)]
#[tactic(auto, using(crate::proofs::Passing::no_cleanup))]
fn has_no_cleanup<B: Bus>(_bus: &B, globals: &Globals) -> bool
    ensures { result ≡ true → innermost_of (word (B.memory _bus.now)) globals.now ≡ None }
{
    globals.cleanup == 0
}

/// Does an instruction `at` pc that stores nothing and is no gate, and then checks it. No cleanup is in progress. If a check fails the
/// registers are restored.
#[inline(always)]
fn do_and_test<B: Bus>(
    a: &Accepted,
    cache: Option<&DecodeCache>,
    at: &CheckedInstr,
    i: Instr,
    branches: bool,
    core: &mut Core,
    bus: &mut B,
) -> bool
    requires cache { IfSome cache (λ c. IsCache (program_of a.now) c.now) }
    requires fetched { IsFetched (program_of a.now) core.old.regs.pc (B.memory bus.old) at.now }
    requires is { i ≡ at.now.instr }
    requires told { IsOther i core.old.regs branches }
    requires no_gate { (imm : ℕ) → i ≡ Svc imm → ⊥ }
    ensures { TriesInstruction (program_of a.now) core.old (B.memory bus.old) result core.new (B.memory bus.new) }
{
    let kept = core.regs;
    are_words(&core.regs.r);
    if !has_no_cleanup(bus, &core.globals) {
        return false;
    }
    let (low, _) = bus.home();
    let what = execute(i, at.size, &mut core.regs, bus);
    if let Stepped::Trap(_) = what {
        return false;
    }
    let from = (kept.pc, kept.r[SP as usize]);
    if !may_continue(a, cache, at.lowers, low, from, branches, what, &core.regs) {
        core.regs = kept;
        return false;
    }
    update_guards(at.saves, 0, from.1, core.regs.r[SP as usize], bus);
    true
}

/// Does an instruction `at` pc that falls through and pushes `pushes` words.
#[inline(always)]
fn fall_through<B: Bus>(at: &CheckedInstr, pushes: u32, core: &mut Core, bus: &mut B) -> bool
    requires range { InRange at.now.instr }
    requires told { IsFallThrough at.now.instr core.old.regs pushes }
    ensures { (p : Program) → IsFetched p core.old.regs.pc (B.memory bus.old) at.now → TriesInstruction p core.old (B.memory bus.old) result core.new (B.memory bus.new) }
{
    let (low, _) = bus.home();
    are_words(&core.regs.r);
    if at.meets_function {
        return false;
    }
    if !has_room(core.regs.r[SP as usize], pushes, low) {
        return false;
    }
    let what = execute(at.instr, at.size, &mut core.regs, bus);
    if let Stepped::Trap(_) = what {
        return false;
    }
    guard_pushed(at.saves, pushes, core.regs.r[SP as usize], bus);
    true
}

/// Takes a branch `at` pc to an address: only pc changes. No check can fail if sp stands in the running stack.
#[inline(always)]
fn jump<B: Bus>(at: &CheckedInstr, to: u32, core: &mut Core, bus: &mut B) -> bool
    requires told { IsJump at.now.instr core.old.regs to }
    ensures { (p : Program) → IsFetched p core.old.regs.pc (B.memory bus.old) at.now → TriesInstruction p core.old (B.memory bus.old) result core.new (B.memory bus.new) }
{
    let (low, _) = bus.home();
    if core.regs.r[SP as usize] < low {
        return false;
    }
    core.regs.pc = to;
    true
}

/// Does a BL `at` pc: only lr and pc change. No check can fail if a function begins at its target, which is known with it, and sp stands in
/// the running stack.
#[inline(always)]
fn call<B: Bus>(at: &CheckedInstr, i: Instr, core: &mut Core, bus: &mut B) -> bool
    requires range { InRange i }
    requires is { i ≡ at.now.instr }
    requires call { IsCall i }
    ensures { (p : Program) → IsFetched p core.old.regs.pc (B.memory bus.old) at.now → TriesInstruction p core.old (B.memory bus.old) result core.new (B.memory bus.new) }
{
    let (low, _) = bus.home();
    are_words(&core.regs.r);
    if !at.meets_function {
        return false;
    }
    if core.regs.r[SP as usize] < low {
        return false;
    }
    let _ = execute(i, at.size, &mut core.regs, bus);
    true
}

// ---- the others

/// Does the instruction `at` pc and then checks it. Gives what was done, or the end by a failed check, which leaves everything as before
/// and is no fault of the input or the output. An SVC changes only pc. If the look-ahead lets a store go on, the bytes that it may
/// overwrite are recorded; no other instruction stores.
#[inline(always)]
pub(crate) fn pass_instruction<B: Bus>(
    a: &Accepted,
    at: &CheckedInstr,
    ahead: Ahead,
    core: &mut Core,
    bus: &mut B,
) -> Result<Stepped, End>
    requires fetched { IsFetched (program_of a.now) core.old.regs.pc (B.memory bus.old) at.now }
    requires told { IsAhead at.now.instr core.old.regs ahead }
    ensures passes { Passes (program_of a.now) core.old (B.memory bus.old) result core.new (B.memory bus.new) }
{
    are_words(&core.regs.r);
    match ahead {
        Ahead::FallThrough | Ahead::Pushes { .. } | Ahead::Jumps { .. } => {
            pass_with_undo(a, core, bus)
        }
        Ahead::Other { branches } => match at.instr {
            Instr::Svc { imm } => pass_gate(a, at, imm, branches, core, bus),
            _ => pass_with(a, at, ahead, &UndoRecord::Nothing, core, bus),
        },
    }
}

/// Does the SVC `at` pc. It changes only pc, so it leaves no cleanup, and the landing sp of one in progress isn't asked for.
#[inline(always)]
fn pass_gate<B: Bus>(
    a: &Accepted,
    at: &CheckedInstr,
    imm: u32,
    branches: bool,
    core: &mut Core,
    bus: &mut B,
) -> Result<Stepped, End>
    requires fetched { IsFetched (program_of a.now) core.old.regs.pc (B.memory bus.old) at.now }
    requires is { at.now.instr ≡ Svc imm }
    requires told { IsOther (Svc imm) core.old.regs branches }
    ensures passes { Passes (program_of a.now) core.old (B.memory bus.old) result core.new (B.memory bus.new) }
{
    are_words(&core.regs.r);
    let (pc, sp) = (core.regs.pc, core.regs.r[SP as usize]);
    let (low, _) = bus.home();
    let what = execute(Instr::Svc { imm }, at.size, &mut core.regs, bus);
    if let Stepped::Trap(trap) = what {
        return Err(trap_end(trap, pc));
    }
    let stack = (None, low);
    if let Some(end) = refusal(a, at.lowers, stack, (pc, sp), branches, what, &core.regs) {
        core.regs.pc = pc;
        return Err(end);
    }
    Ok(what)
}

/// The same with a record of the bytes that the instruction may overwrite. This is rare, since such an event ends the run. So it fetches
/// again, and takes nothing by reference that the others would have to keep in memory for it.
#[cold]
#[inline(never)]
fn pass_with_undo<B: Bus>(a: &Accepted, core: &mut Core, bus: &mut B) -> Result<Stepped, End>
    ensures passes { Passes (program_of a.now) core.old (B.memory bus.old) result core.new (B.memory bus.new) }
{
    let at = match fetch_checked(a, core, bus) {
        Ok(at) => at,
        Err(end) => return Err(end),
    };
    let ahead = look_ahead(at.instr, &core.regs);
    let undo_record = undo_record_of(at.instr, at.size, &core.regs, bus);
    pass_with(a, &at, ahead, &undo_record, core, bus)
}

/// Whether an instruction branches, and how many words it pushes.
#[inline(always)]
fn branch_and_push_count(ahead: Ahead) -> (bool, u32)
    ensures { (i : Instr) (regs : Regs) → IsAhead i regs ahead → Tells i regs result.0 result.1 }
{
    match ahead {
        Ahead::FallThrough => (false, 0),
        Ahead::Pushes { count } => (false, count),
        Ahead::Jumps { .. } => (true, 0),
        Ahead::Other { branches } => (branches, 0),
    }
}

/// The instruction `at` pc, in the order of the definition: it is done and checked, and its saved words are guarded. If a check ends the
/// run, the registers and the recorded bytes are restored.
#[inline(always)]
fn pass_with<B: Bus>(
    a: &Accepted,
    at: &CheckedInstr,
    ahead: Ahead,
    undo_record: &UndoRecord,
    core: &mut Core,
    bus: &mut B,
) -> Result<Stepped, End>
    requires fetched { IsFetched (program_of a.now) core.old.regs.pc (B.memory bus.old) at.now }
    requires told { IsAhead at.now.instr core.old.regs ahead }
    requires restores { Restores (profile_in (program_of a.now)) undo_record.now core.old.regs (B.memory bus.old) }
    ensures passes { Passes (program_of a.now) core.old (B.memory bus.old) result core.new (B.memory bus.new) }
{
    let (branches, pushes) = branch_and_push_count(ahead);
    let before = core.regs;
    let pc = before.pc;
    are_words(&core.regs.r);
    let landing = innermost_sp(bus, &core.globals);
    let (low, _) = bus.home();
    // the instruction
    let what = execute(at.instr, at.size, &mut core.regs, bus);
    if let Stepped::Trap(trap) = what {
        return Err(trap_end(trap, pc));
    }
    // its checks
    let old = before.r[SP as usize];
    let sp = core.regs.r[SP as usize];
    let stack = (landing, low);
    if let Some(end) = refusal(a, at.lowers, stack, (pc, old), branches, what, &core.regs) {
        core.regs = before;
        if let Stepped::Done = what {
            undo_record.restore(bus);
        }
        return Err(end);
    }
    // its guards
    update_guards(at.saves, pushes, old, sp, bus);
    Ok(what)
}
