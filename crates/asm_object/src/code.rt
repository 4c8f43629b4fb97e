//! The instructions of statements, with the offsets to their labels (docs/rules/sources.md; DDI 0419, DDI 0553).
ghost use Rattle.std.specs.Prelude.{◌≡◌, IfOk};
ghost use Rattle.asm_layout.specs.Labels.{label_places};
ghost use Rattle.asm_statements.specs.Computations.{of_two_registers, of_three_registers, of_register_number, of_two_registers_number};
ghost use Rattle.asm_object.specs.Instructions.{pc, base, place_difference, text_place, branch, literal, literal_to, label_literal, instruction, encode_option, branch_link};

use crate::value::Link;
use asm_layout::labels::Labels;
use asm_layout::{
    bare_form, computed_form, data_form, local_form, name_form, nameless_form, reader_form,
    wide_form,
};
use asm_relocatable::name::copy_name;
use asm_relocatable::place::{Place, Section};
use asm_relocatable::relocation::{R_ARM_THM_CALL, R_ARM_THM_JUMP8, R_ARM_THM_JUMP11};
use asm_statements::StmtKind;
use asm_statements::computation::{
    of_register_number, of_three_registers, of_two_registers, of_two_registers_number, offset,
    unsigned_field,
};
use eh_word::Name;
use std::alloc::{AllocError, Global};
use thumb_encode::code::Code;
use thumb_encode::encode::encode;
use thumb_isa::encode_fault::EncodeFault;
use thumb_isa::instr::Instr;

/// The difference of two places, as an offset of an instruction.
fn place_difference(to: u64, from: u64) -> i32
    ensures { result ≡ place_difference to from }
{
    i32::try_from(i128::from(to) - i128::from(from)).unwrap_or(i32::MAX)
}

/// The value of pc that an instruction at a place reads.
fn pc(place: u64) -> u64
    ensures { result ≡ pc place }
{
    place.saturating_add(4)
}

/// The pc rounded down to a multiple of 4.
pub fn base(place: u64) -> u64
    ensures { result ≡ base place }
{
    pc(place) / 4 * 4
}

/// The offset in bytes of a label in the text, or None if the text has no such label.
pub fn text_place(labels: &Labels, name: &Name) -> Option<u64>
    ensures { result ≡ text_place (label_places labels.now) name.now }
{
    match labels.place_named(name) {
        Some(
            Place {
                section: Section::Text,
                offset,
            },
        ) => Some(offset),
        _ => None,
    }
}

/// The offset of a branch: to a label of the text, or else -4, the value that the linker replaces.
fn branch(labels: &Labels, name: &Name, place: u64) -> i32
    ensures { result ≡ branch (label_places labels.now) name.now place }
{
    match text_place(labels, name) {
        Some(to) => place_difference(to, pc(place)),
        None => -4,
    }
}

/// The offset of a literal load from its base.
fn literal(to: u64, place: u64) -> i32
    ensures { result ≡ literal to place }
{
    place_difference(to, base(place))
}

/// The offset of a label of the text from the load's base; 0 if there is no such label.
fn label_literal(labels: &Labels, name: &Name, place: u64) -> i32
    ensures { result ≡ label_literal (label_places labels.now) name.now place }
{
    match text_place(labels, name) {
        Some(to) => literal(to, place),
        None => 0,
    }
}

/// The offset of a pool word from the load's base; 0 if there is no word.
fn word_literal(word: Option<u64>, place: u64) -> i32
    ensures { result ≡ literal_to word place }
{
    match word {
        Some(to) => literal(to, place),
        None => 0,
    }
}

/// The instruction of a statement, whose pool word is at `word`. None for `udf` and for directives.
fn instruction(labels: &Labels, kind: &StmtKind, place: u64, word: Option<u64>) -> Option<Instr>
    ensures { result ≡ instruction (label_places labels.now) kind.now place word }
{
    Some(match kind {
        StmtKind::TwoRegisters { what, d, m } => of_two_registers(*what, *d, *m).instr,
        StmtKind::ThreeRegisters { what, d, n, m } => of_three_registers(*what, *d, *n, *m).instr,
        StmtKind::RegisterNumber { what, d, imm } => of_register_number(*what, *d, *imm).instr,
        StmtKind::TwoRegistersNumber { what, d, n, imm } => of_two_registers_number(
            *what, *d, *n, *imm,
        ).instr,
        StmtKind::AddRdSp { d, off } => Instr::AddRdSp {
            d: *d,
            off: offset(*off),
        },
        StmtKind::AddSp { off } => Instr::AddSp { off: offset(*off) },
        StmtKind::SubSp { off } => Instr::SubSp { off: offset(*off) },
        StmtKind::Rsbs { d, m } => Instr::Alu {
            op: 9,
            d: *d,
            m: *m,
        },
        StmtKind::MemImm { op, t, n, off } => Instr::MemImm {
            op: *op,
            t: *t,
            n: *n,
            off: offset(*off),
        },
        StmtKind::MemReg { op, t, n, m } => Instr::MemReg {
            op: *op,
            t: *t,
            n: *n,
            m: *m,
        },
        StmtKind::MemSp { load, t, off } => Instr::MemSp {
            load: *load,
            t: *t,
            off: offset(*off),
        },
        StmtKind::Push { list } => Instr::Push { list: *list },
        StmtKind::Pop { list } => Instr::Pop { list: *list },
        StmtKind::Stm { n, list } => Instr::Stm { n: *n, list: *list },
        StmtKind::LdmBack { n, list } => Instr::Ldm { n: *n, list: *list },
        StmtKind::Ldm { n, list } => Instr::Ldm { n: *n, list: *list },
        StmtKind::Bx { m } => Instr::Bx { m: *m },
        StmtKind::Blx { m } => Instr::Blx { m: *m },
        StmtKind::Svc { imm } => Instr::Svc {
            imm: unsigned_field(*imm),
        },
        StmtKind::Hint { n } => Instr::Hint { n: *n },
        StmtKind::Barrier { op } => Instr::Barrier {
            op: *op,
            option: 15,
        },
        StmtKind::Adr { d, name } => Instr::Adr {
            d: *d,
            off: label_literal(labels, name, place),
        },
        StmtKind::LdrLabel { t, name } => Instr::LdrLit {
            t: *t,
            off: label_literal(labels, name, place),
        },
        StmtKind::LdrPool { t, .. } => Instr::LdrLit {
            t: *t,
            off: word_literal(word, place),
        },
        StmtKind::B(name) => Instr::B {
            off: branch(labels, name, place),
        },
        StmtKind::BCond { cond, name } => Instr::BCond {
            cond: *cond,
            off: branch(labels, name, place),
        },
        StmtKind::Bl(name) => Instr::Bl {
            off: branch(labels, name, place),
        },
        StmtKind::Cbz { nonzero, n, name } => Instr::Cbz {
            nonzero: *nonzero,
            n: *n,
            off: branch(labels, name, place),
        },
        StmtKind::BWide(name) => Instr::BWide {
            off: branch(labels, name, place),
        },
        StmtKind::Udf { .. } | data_form!() | StmtKind::Align(_) | name_form!() | bare_form!() => {
            return None;
        }
    })
}

/// The result of the encoder: the code of an instruction or why it has none. None if the statement has no instruction.
pub type EncodeResult = Option<Result<Code, EncodeFault>>;

/// Encodes a statement at a place, whose pool word is at `word`.
pub fn encode_stmt(labels: &Labels, kind: &StmtKind, place: u64, word: Option<u64>) -> EncodeResult
    ensures { result ≡ encode_option (instruction (label_places labels.now) kind.now place word) }
{
    match instruction(labels, kind, place, word) {
        Some(i) => Some(encode(&i)),
        None => None,
    }
}

/// The relocation of a branch, if it needs one: of `bl`, `b` or `b` with a condition (IHI 0044).
pub fn branch_link(
    alloc: Global,
    labels: &Labels,
    kind: &StmtKind,
) -> Result<Option<Link>, AllocError>
    ensures { IfOk result (λ link. link ≡ branch_link (label_places labels.now) kind.now) }
{
    let (kind, name) = match kind {
        StmtKind::Bl(name) => (R_ARM_THM_CALL, name),
        StmtKind::B(name) => (R_ARM_THM_JUMP11, name),
        StmtKind::BCond { name, .. } => (R_ARM_THM_JUMP8, name),
        computed_form!()
        | nameless_form!()
        | wide_form!()
        | reader_form!()
        | local_form!()
        | StmtKind::Udf { .. }
        | data_form!()
        | StmtKind::Align(_)
        | name_form!()
        | bare_form!() => return Ok(None),
    };
    if text_place(labels, name).is_some() {
        return Ok(None);
    }
    Ok(Some(Link {
        kind,
        name: copy_name(alloc, name)?,
        addend: -4,
    }))
}
