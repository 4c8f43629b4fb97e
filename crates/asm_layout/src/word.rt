//! The values of words (docs/rules/sources.md).
ghost use Rattle.std.specs.Prelude.{◌≡◌, ◌==◌, ◌%◌, ◌^◌, length, IfOk};
ghost use Rattle.asm_layout.specs.Words.{low_word, word_of};

use asm_relocatable::name::copy_name;
use asm_statements::Expr;
use eh_word::{Name, Seq};
use std::alloc::{AllocError, Global};

/// The value of a word, numbers modulo 2^32. Equal words of a pool are stored once.
#[derive(PartialEq, Eq, Hash, Drop)]
pub enum Word {
    /// A number.
    Num(u32),
    /// `name` or `name+n`.
    Of(Name, u32),
    /// `a-b` or `a-b+n`.
    Diff(Name, Name, u32),
    /// `name(prel31)`.
    Prel31(Name),
    /// `name(prel31ref)`.
    Prel31Ref(Name),
    /// `name(target2)`.
    Target2(Name),
    /// `name(rel)`.
    Rel(Name),
}

/// The words of a pool, in order.
pub type Words = Seq<Word>;

/// A number modulo 2^32.
pub fn low_number(n: i128) -> u32
    ensures { result ≡ low_word n }
{
    if n >= 0 {
        (n as u128 % 0x1_0000_0000) as u32
    } else {
        0xffff_ffff - ((-1 - n) as u128 % 0x1_0000_0000) as u32
    }
}

/// A 64-bit number modulo 2^32.
fn low_word(n: i64) -> u32
    ensures { result ≡ low_word n }
{
    low_number(i128::from(n))
}

/// A place or size modulo 2^32.
pub fn low_part(n: u64) -> u32
    ensures { result ≡ n % 2 ^ 32 }
{
    (n % 0x1_0000_0000) as u32
}

/// The word of an expression. Err only if memory runs out.
pub fn word_of(alloc: Global, expr: &Expr) -> Result<Word, AllocError>
    ensures { IfOk result (λ word. word ≡ word_of expr.now) }
{
    Ok(match expr {
        Expr::Num(n) => Word::Num(low_word(*n)),
        Expr::Of(name, n) => Word::Of(copy_name(alloc, name)?, low_word(*n)),
        Expr::Diff(a, b, n) => Word::Diff(copy_name(alloc, a)?, copy_name(alloc, b)?, low_word(*n)),
        Expr::Prel31(name) => Word::Prel31(copy_name(alloc, name)?),
        Expr::Prel31Ref(name) => Word::Prel31Ref(copy_name(alloc, name)?),
        Expr::Target2(name) => Word::Target2(copy_name(alloc, name)?),
        Expr::Rel(name) => Word::Rel(copy_name(alloc, name)?),
    })
}
