//! The refusals of single statements, in the order of the table of docs/rules/sources.md.
ghost use Rattle.std.specs.Prelude.{◌≡◌, None, Some, List};
ghost use Rattle.std.specs.List.{list_all};
ghost use Rattle.asm_statements.specs.Exprs.{number_exprs};
ghost use Rattle.asm_layout.specs.Given.{data_value, FieldsOf};
ghost use Rattle.asm_layout.specs.Sorts.{stmt_data};
ghost use Rattle.asm_layout.specs.Labels.{NamePlace, label_places};
ghost use Rattle.asm_object.specs.Values.{is_word_known};
ghost use Rattle.asm_object.specs.Instructions.{instruction, encode_option};
ghost use Rattle.asm_object.specs.Refusals.{are_names_known, fits_field, fault_unless, coded_fault, encode_fault_by, encode_or, numbers_refusal, data_refusal, first_refusal, is_pool_too_far, has_bytes, is_misplaced, refusal};

use crate::code::{EncodeResult, base, text_place};
use crate::value::{is_known, is_word_known, number};
use asm_layout::fault::AsmWhat;
use asm_layout::given::{Data, Width};
use asm_layout::labels::Labels;
use asm_layout::sort::given;
use asm_layout::walk::is_instruction;
use asm_layout::{
    bare_form, branch_form, computed_form, data_form, local_form, name_form, nameless_form,
    reader_form, wide_form,
};
use asm_relocatable::place::{Place, Section};
use asm_statements::{Expr, Exprs, ExprsRef, StmtKind};
use thumb_isa::encode_fault::EncodeFault;

/// The greatest distance in bytes from a `ldr` to its pool word.
pub const MOST_TO_POOL: u64 = 1020;

/// Whether all names of these words are defined or may be left to the linker.
fn are_words_known(labels: &Labels, words: &[Expr]) -> bool
    ensures { result ≡ list_all (λ word. is_word_known (label_places labels.now) word) words.now }
{
    for word in words {
        if !is_word_known(labels, word) {
            return false;
        }
    }
    true
}

/// Whether all names of a statement other than data are defined or may be left to the linker.
fn are_names_known(labels: &Labels, kind: &StmtKind) -> bool
    requires { stmt_data kind.now ≡ None }
    ensures { result ≡ are_names_known (label_places labels.now) kind.now }
{
    match kind {
        StmtKind::Adr { name, .. }
        | StmtKind::LdrLabel { name, .. }
        | StmtKind::Cbz { name, .. }
        | StmtKind::BWide(name) => text_place(labels, name).is_some(),
        StmtKind::LdrPool { value, .. } => is_word_known(labels, value.expr()),
        StmtKind::B(name)
        | StmtKind::BCond { name, .. }
        | StmtKind::Bl(name)
        | StmtKind::Global(name)
        | StmtKind::TypeFunction(name)
        | StmtKind::TypeObject(name)
        | StmtKind::Size(name) => is_known(labels, name),
        computed_form!()
        | nameless_form!()
        | wide_form!()
        | StmtKind::Udf { .. }
        | data_form!()
        | StmtKind::Align(_)
        | bare_form!() => true,
    }
}

/// Whether a number is in the range of a field, from `-limit` to `2 * limit - 1`.
fn fits_field(number: i128, limit: u16) -> bool
    ensures { result ≡ fits_field limit (Some number) }
{
    let limit = i128::from(limit);
    -limit <= number && number < 2 * limit
}

/// The fault if a test fails, else None.
fn fault_unless(holds: bool, fault: EncodeFault) -> Option<EncodeFault>
    ensures { result ≡ fault_unless holds fault }
{
    if holds { None } else { Some(fault) }
}

/// Why an instruction can't be encoded.
fn coded_fault(code: &EncodeResult) -> Option<EncodeFault>
    ensures { result ≡ coded_fault code.now }
{
    match code {
        Some(Err(fault)) => Some(*fault),
        Some(Ok(_)) | None => None,
    }
}

/// The refusal of a fault.
fn encode_refusal(fault: Option<EncodeFault>) -> Option<AsmWhat>
    ensures { result ≡ encode_or fault None }
{
    match fault {
        Some(fault) => Some(AsmWhat::Encode(fault)),
        None => None,
    }
}

/// Why the numbers of fields are refused: one is unknown, or else one doesn't fit.
fn numbers_refusal(labels: &Labels, limit: u16, fields: &[Expr]) -> Option<AsmWhat>
    ensures { result ≡ numbers_refusal (label_places labels.now) limit fields.now }
{
    let mut all_fit = true;
    for field in fields {
        let Some(n) = number(labels, field) else {
            return Some(AsmWhat::UndefinedLocal);
        };
        all_fit = all_fit && fits_field(n, limit);
    }
    encode_refusal(fault_unless(all_fit, EncodeFault::ImmediateRange))
}

/// Whether all numbers fit their fields.
fn all_within(limit: u16, numbers: &[i64]) -> bool
    ensures { result ≡ list_all (λ n. fits_field limit (Some n)) numbers.now }
{
    for n in numbers {
        if !fits_field(i128::from(*n), limit) {
            return false;
        }
    }
    true
}

/// Why numbers are refused as fields of a width.
#[tactic(auto, using(crate::proofs::PlainLemmas::unlimited))]
fn plain_refusal(width: Width, numbers: &[i64]) -> Option<AsmWhat>
    ensures { (labels : List NamePlace) → result ≡ data_refusal labels (FieldsOf width (number_exprs numbers.now)) }
{
    match width.limit() {
        Some(limit) => encode_refusal(fault_unless(
            all_within(limit, numbers),
            EncodeFault::ImmediateRange,
        )),
        None => None,
    }
}

/// Why expressions are refused as fields of a width.
#[tactic(auto, using(crate::proofs::RefusalLemmas::numbered, crate::proofs::RefusalLemmas::addressed))]
fn mixed_refusal(labels: &Labels, width: Width, fields: &[Expr]) -> Option<AsmWhat>
    ensures { result ≡ data_refusal (label_places labels.now) (FieldsOf width fields.now) }
{
    match width.limit() {
        Some(limit) => numbers_refusal(labels, limit, fields),
        None => {
            if are_words_known(labels, fields) {
                None
            } else {
                Some(AsmWhat::UndefinedLocal)
            }
        }
    }
}

/// Why fields of a width are refused.
fn fields_refusal(labels: &Labels, width: Width, fields: &Exprs) -> Option<AsmWhat>
    ensures { result ≡ data_refusal (label_places labels.now) (FieldsOf width fields.now) }
{
    match fields.as_exprs_ref() {
        ExprsRef::Numbers(numbers) => plain_refusal(width, numbers),
        ExprsRef::Mixed(fields) => mixed_refusal(labels, width, fields),
    }
}

/// Why data is refused.
fn data_refusal(labels: &Labels, given: Data<'_>) -> Option<AsmWhat>
    ensures { result ≡ data_refusal (label_places labels.now) (data_value given.entry) }
{
    match given {
        Data::Fields(width, fields) => fields_refusal(labels, width, fields),
        Data::Text { .. } => None,
        Data::Zeros(n) => encode_refusal(fault_unless(n >= 0, EncodeFault::ImmediateRange)),
    }
}

/// Why `encode` refuses the instruction of a statement other than data.
fn encode_fault(kind: &StmtKind, code: &EncodeResult) -> Option<EncodeFault>
    requires { stmt_data kind.now ≡ None }
    ensures { (labels : List NamePlace) → result ≡ encode_fault_by labels kind.now code.now }
{
    match kind {
        StmtKind::Udf { imm } => fault_unless(
            0 <= *imm && *imm <= 255,
            EncodeFault::ImmediateRange,
        ),
        StmtKind::LdrPool { t, .. } => fault_unless(*t < 8, EncodeFault::RegisterRange),
        computed_form!()
        | nameless_form!()
        | wide_form!()
        | StmtKind::Adr { .. }
        | StmtKind::LdrLabel { .. }
        | branch_form!()
        | local_form!() => coded_fault(code),
        data_form!() | StmtKind::Align(_) | name_form!() | bare_form!() => None,
    }
}

/// Why the names or the instruction of a statement other than data are refused.
fn instruction_refusal(labels: &Labels, kind: &StmtKind, code: &EncodeResult) -> Option<AsmWhat>
    requires { stmt_data kind.now ≡ None }
    ensures { result ≡ first_refusal (label_places labels.now) kind.now code.now }
{
    if !are_names_known(labels, kind) {
        return Some(AsmWhat::UndefinedLocal);
    }
    encode_refusal(encode_fault(kind, code))
}

/// Why the names, the instruction or the numbers of a statement are refused.
#[tactic(auto, using(crate::proofs::RefusalLemmas::of_data))]
fn first_refusal(labels: &Labels, kind: &StmtKind, code: &EncodeResult) -> Option<AsmWhat>
    ensures { result ≡ first_refusal (label_places labels.now) kind.now code.now }
{
    match given(kind) {
        Some(found) => data_refusal(labels, found),
        None => instruction_refusal(labels, kind, code),
    }
}

/// Whether a pool word is too far from its `ldr`.
fn is_pool_too_far(place: u64, word: Option<u64>) -> bool
    ensures { result ≡ is_pool_too_far place word }
{
    match word {
        Some(word) => word.saturating_sub(base(place)) > MOST_TO_POOL,
        None => false,
    }
}

/// Whether a statement emits bytes of its own.
fn has_bytes(kind: &StmtKind) -> bool
    ensures { result ≡ has_bytes kind.now }
{
    match given(kind) {
        Some(Data::Fields(_, fields)) => !fields.is_empty(),
        Some(Data::Text { text, closed }) => closed || !text.is_empty(),
        Some(Data::Zeros(_)) | None => false,
    }
}

/// Whether a statement is not allowed in its section.
fn is_misplaced(kind: &StmtKind, section: Section) -> bool
    ensures { result ≡ is_misplaced kind.now section }
{
    if is_instruction(kind) || matches!(kind, StmtKind::FnStart) {
        section != Section::Text
    } else {
        has_bytes(kind) && section == Section::Bss
    }
}

/// The first refusal of a statement at a place, in this order: an undefined name, an instruction or number, a pool word
/// too far away, a wrong section.
/// `word` is the place of its pool word, `code` the result of the encoder.
#[tactic(auto, using(crate::proofs::RefusalLemmas::first_stays, crate::proofs::RefusalLemmas::then_rest), unfolding(crate::specs::Refusals::refusal))]
pub fn refusal(
    labels: &Labels,
    kind: &StmtKind,
    at: Place,
    word: Option<u64>,
    code: &EncodeResult,
) -> Option<AsmWhat>
    requires { code.now ≡ encode_option (instruction (label_places labels.now) kind.now at.offset word) }
    ensures { result ≡ refusal (label_places labels.now) kind.now at.section at.offset word }
{
    let first = first_refusal(labels, kind, code);
    if first.is_some() {
        return first;
    }
    if is_pool_too_far(at.offset, word) {
        return Some(AsmWhat::PoolTooFar);
    }
    if is_misplaced(kind, at.section) {
        return Some(AsmWhat::Placement);
    }
    None
}
