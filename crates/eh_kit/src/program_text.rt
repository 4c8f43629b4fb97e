//! The source text of a generated program (docs/guide/command-line.md).
ghost use Rattle.std.specs.Prelude.{◌≡◌, ◌<◌, ◌≤◌, ◌++◌, OnOk, IfOk};
ghost use Rattle.eh_kit.specs.declared.program_text.KitMemory.TheVariants.{OutOfMemory};
ghost use Rattle.eh_kit.specs.ProgramText.{name_text, call_lines, after_catch, caught_lines, scope_lines, pad_lines, caller_lines, boom_lines, lines_text, generated_text};

use crate::program::{Caller, FunctionKind, FunctionName, callee_of, kind_of, next_number};
use itoa::Buffer;
use std::alloc::{AllocError, Global};

/// The most functions that a generated program may have.
pub const MAX_FUNCTIONS: u32 = 4_000;

/// Why a text can't be made.
#[derive(Clone, Copy)]
pub enum KitMemory {
    /// There was no memory for it.
    OutOfMemory,
}

impl From<AllocError> for KitMemory {
    ghost from_gives = { λ _ e. e ≡ OutOfMemory };

    fn from(_e: AllocError) -> KitMemory {
        KitMemory::OutOfMemory
    }
}

const BOOM: &[u8] = b".type boom, %function
boom: .fnstart
.save {r4, lr}
push {r4, lr}
movs r0, #4
bl __cxa_allocate_exception
movs r1, #7
str r1, [r0]
ldr r1, =_ZTIi
movs r2, #0
bl __cxa_throw
.fnend
";

/// Appends the name of a function.
fn push_name(out: &mut Vec<u8>, name: FunctionName) -> Result<(), AllocError>
    ensures { OnOk result (out.new.items ≡ out.old.items ++ name_text name) }
{
    match name {
        FunctionName::Main => out.extend_from_slice(b"main"),
        FunctionName::Numbered(number) => {
            out.extend_from_slice(b"f")?;
            out.extend_from_slice(Buffer::new().format(number).as_bytes())
        }
        FunctionName::Boom => out.extend_from_slice(b"boom"),
    }
}

/// Appends a text and then a name.
fn push_named(out: &mut Vec<u8>, text: &[u8], name: FunctionName) -> Result<(), AllocError>
    ensures { OnOk result (out.new.items ≡ out.old.items ++ text.now ++ name_text name) }
{
    out.extend_from_slice(text)?;
    push_name(out, name)
}

/// Appends the lines in which a function begins, calls its callee and returns.
#[tactic(auto, unfolding(crate::specs::ProgramText::call_lines))]
fn push_call(out: &mut Vec<u8>, name: FunctionName, callee: FunctionName) -> Result<(), AllocError>
    ensures { OnOk result (out.new.items ≡ out.old.items ++ lines_text (call_lines name callee)) }
{
    push_named(out, b".type ", name)?;
    push_named(out, b", %function\n", name)?;
    push_named(out, b": .fnstart\n.save {r4, lr}\npush {r4, lr}\n.Lb", name)?;
    push_named(out, b": bl ", callee)?;
    push_named(out, b"\n.Le", name)?;
    out.extend_from_slice(b": pop {r4, pc}\n")
}

/// The lines after a catch: `main` returns 0, any other function rethrows.
fn after_catch(name: FunctionName) -> &'static [u8]
    ensures { result.now ≡ lines_text (after_catch name) }
{
    match name {
        FunctionName::Main => b"movs r0, #0\npop {r4, pc}\n",
        FunctionName::Numbered(_) | FunctionName::Boom => b"bl boom\n",
    }
}

/// Appends the lines of a landing pad that catches.
#[tactic(auto, unfolding(crate::specs::ProgramText::caught_lines))]
fn push_caught(out: &mut Vec<u8>, name: FunctionName) -> Result<(), AllocError>
    ensures { OnOk result (out.new.items ≡ out.old.items ++ lines_text (caught_lines name)) }
{
    push_named(out, b".Lp", name)?;
    out.extend_from_slice(b": bl __cxa_begin_catch\nbl __cxa_end_catch\n")?;
    out.extend_from_slice(after_catch(name))
}

/// Appends the lines of a descriptor that covers the call. `mark` is its low bit, `what` follows the landing pad's
/// address.
#[tactic(auto, unfolding(crate::specs::ProgramText::scope_lines))]
fn push_scope(
    out: &mut Vec<u8>,
    name: FunctionName,
    mark: &[u8],
    what: &[u8],
) -> Result<(), AllocError>
    ensures { OnOk result (out.new.items ≡ out.old.items ++ lines_text (scope_lines name mark.now what.now)) }
{
    push_named(out, b".personalityindex 0\n.handlerdata\n.half .Le", name)?;
    push_named(out, b"-.Lb", name)?;
    out.extend_from_slice(mark)?;
    push_named(out, b", .Lb", name)?;
    push_named(out, b"-", name)?;
    push_named(out, b"\n.word .Lp", name)?;
    out.extend_from_slice(b"(prel31), ")?;
    out.extend_from_slice(what)?;
    out.extend_from_slice(b"\n")
}

/// Appends the landing pad and descriptor of a function, if its kind has them.
#[tactic(auto, unfolding(crate::specs::ProgramText::pad_lines, crate::specs::ProgramText::cleanup_lines))]
fn push_pad(out: &mut Vec<u8>, name: FunctionName, kind: FunctionKind) -> Result<(), AllocError>
    ensures { OnOk result (out.new.items ≡ out.old.items ++ lines_text (pad_lines name kind)) }
{
    match kind {
        FunctionKind::Plain => Ok(()),
        FunctionKind::Cleanup => {
            push_named(out, b".Lp", name)?;
            out.extend_from_slice(b": bl __cxa_end_cleanup\n")?;
            push_scope(out, name, b"", b"0")
        }
        FunctionKind::CatchAll => {
            push_caught(out, name)?;
            push_scope(out, name, b"+1", b"0xFFFFFFFF, 0")
        }
        FunctionKind::CatchInt => {
            push_caught(out, name)?;
            push_scope(out, name, b"+1", b"_ZTIi(target2), 0")
        }
    }
}

/// Appends the lines of a function that calls another one.
#[tactic(auto, unfolding(crate::specs::ProgramText::caller_lines))]
fn push_caller(out: &mut Vec<u8>, caller: &Caller) -> Result<(), AllocError>
    ensures { OnOk result (out.new.items ≡ out.old.items ++ lines_text (caller_lines caller.now)) }
{
    push_call(out, caller.name, caller.callee)?;
    push_pad(out, caller.name, caller.kind)?;
    out.extend_from_slice(b".fnend\n")
}

/// Generates the source of a program, with this many functions between `main` and `boom`. `main` calls the first, each
/// calls the next, and the last calls `boom`, which throws. What each does with the exception is drawn from `number`,
/// so equal arguments give the same text. Err if memory runs out.
pub fn generate(alloc: Global, number: u32, functions: u32) -> Result<Vec<u8>, KitMemory>
    requires some { 0 < functions }
    requires most { functions ≤ MAX_FUNCTIONS }
    ensures { IfOk result (λ text. text.items ≡ generated_text number functions) }
{
    let mut out = Vec::new(alloc);
    out.extend_from_slice(b".global main\n")?;
    push_caller(
        &mut out,
        &Caller {
            name: FunctionName::Main,
            callee: FunctionName::Numbered(0),
            kind: FunctionKind::CatchAll,
        },
    )?;
    let mut drawn = number;
    for function in 0..functions {
        drawn = next_number(drawn);
        push_caller(
            &mut out,
            &Caller {
                name: FunctionName::Numbered(function),
                callee: callee_of(functions, function),
                kind: kind_of(drawn),
            },
        )?;
    }
    out.extend_from_slice(BOOM)?;
    Ok(out)
}
