//! The values of names and words, and the relocations of words (docs/rules/sources.md; IHI 0044).
ghost use Rattle.std.specs.Prelude.{◌≡◌, ◌^◌, pos, neg_ℤ, ◌<ℤ◌, IfSome};
ghost use Rattle.asm_layout.specs.Labels.{label_places};
ghost use Rattle.asm_object.specs.Values.{is_known, distance, is_word_known, number, section_word, signed_word, link_of};

use asm_layout::labels::Labels;
use asm_layout::word::{Word, low_number};
use asm_relocatable::name::is_local;
use asm_relocatable::relocation::{R_ARM_ABS32, R_ARM_PREL31, R_ARM_REL32, R_ARM_TARGET2};
use asm_statements::Expr;
use eh_codes::words::REFERENCE_MARK;
use eh_word::Name;

/// Bit 31, the sign bit of a word.
const TOP_BIT: u32 = 0x8000_0000;

/// Whether a name may be used: if it is local, it must have a label.
pub fn is_known(labels: &Labels, name: &Name) -> bool
    ensures { result ≡ is_known (label_places labels.now) name.now }
{
    !is_local(name) || labels.place_named(name).is_some()
}

/// The offset in bytes of the first label from the second, if both are in one section.
fn distance(labels: &Labels, a: &Name, b: &Name) -> Option<i128>
    ensures exact { result ≡ distance (label_places labels.now) a.now b.now }
    ensures bound { IfSome result (λ d. (neg_ℤ (pos (2 ^ 64)) <ℤ d) × (d <ℤ pos (2 ^ 64))) }
{
    match (labels.place_named(a), labels.place_named(b)) {
        (Some(a), Some(b)) if a.section == b.section => {
            Some(i128::from(a.offset) - i128::from(b.offset))
        }
        _ => None,
    }
}

/// Whether all names of an expression may be used.
pub fn is_word_known(labels: &Labels, expr: &Expr) -> bool
    ensures { result ≡ is_word_known (label_places labels.now) expr.now }
{
    match expr {
        Expr::Num(_) => true,
        Expr::Diff(a, b, _) => distance(labels, a, b).is_some(),
        Expr::Of(name, _)
        | Expr::Prel31(name)
        | Expr::Prel31Ref(name)
        | Expr::Target2(name)
        | Expr::Rel(name) => is_known(labels, name),
    }
}

/// The number of an expression as a halfword or byte; None if it is unknown.
pub fn number(labels: &Labels, expr: &Expr) -> Option<i128>
    ensures { result ≡ number (label_places labels.now) expr.now }
{
    match expr {
        Expr::Num(n) => Some(i128::from(*n)),
        Expr::Diff(a, b, n) => match distance(labels, a, b) {
            Some(distance) => Some(distance + i128::from(*n)),
            None => None,
        },
        Expr::Of(_, _) | Expr::Prel31(_) | Expr::Prel31Ref(_) | Expr::Target2(_) | Expr::Rel(_) =>
            None,
    }
}

/// The word before linking: its number, or 0 if it takes a name's address. Bit 31 is set for a reference to a type.
pub fn section_word(labels: &Labels, word: &Word) -> u32
    ensures { result ≡ section_word (label_places labels.now) word.now }
{
    match word {
        Word::Num(n) => *n,
        Word::Diff(a, b, n) => match distance(labels, a, b) {
            Some(distance) => low_number(distance + i128::from(*n)),
            None => 0,
        },
        Word::Prel31Ref(_) => REFERENCE_MARK,
        Word::Of(_, _) | Word::Rel(_) | Word::Target2(_) | Word::Prel31(_) => 0,
    }
}

/// A relocation without its place.
#[derive(Drop)]
pub struct Link {
    /// The relocation's number (IHI 0044).
    pub kind: u32,
    /// The name whose address the field takes.
    pub name: Name,
    /// The number that is added to the address.
    pub addend: i32,
}

/// A word as a signed number.
fn signed_word(n: u32) -> i32
    ensures { result ≡ signed_word n }
{
    if n < TOP_BIT {
        n as i32
    } else {
        (i64::from(n) - 0x1_0000_0000) as i32
    }
}

/// The relocation of a word, if it needs one. Takes the name out of the word.
pub fn link_of(word: Word) -> Option<Link>
    ensures { result ≡ link_of word }
{
    let (kind, name, addend) = match word {
        Word::Num(_) | Word::Diff(_, _, _) => return None,
        Word::Of(name, n) => (R_ARM_ABS32, name, signed_word(n)),
        Word::Rel(name) => (R_ARM_REL32, name, 0),
        Word::Target2(name) => (R_ARM_TARGET2, name, 0),
        Word::Prel31(name) | Word::Prel31Ref(name) => (R_ARM_PREL31, name, 0),
    };
    Some(Link { kind, name, addend })
}
