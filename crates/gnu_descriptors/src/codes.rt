//! The unwind instructions of a generic entry, in the form of a table of personality index 2. docs/rules/gnu-tables.md states the rule.
ghost use Rattle.std.specs.Prelude.{◌≡◌, ◌++◌, OnOk, IfOk};
ghost use Rattle.gnu_lsda.specs.Entries.{words_of};
ghost use Rattle.gnu_descriptors.specs.Codes.{without_count, codes_in, codes_of};

use eh_codes::code::FINISH;
use gnu_compact::codes::push_swapped_words;
use gnu_lsda::Generic;
use std::alloc::{AllocError, Global};

/// Appends the unwind instructions in words: the bytes of each word, the top one first, without the top byte of the first word.
fn push_without_count(out: &mut Vec<u8>, words: &[u8]) -> Result<(), AllocError>
    ensures { OnOk result (out.new.items ≡ out.old.items ++ without_count words.now) }
{
    match words {
        [third, second, first, _count, rest @ ..] => {
            out.extend_from_slice(&[*first, *second, *third])?;
            push_swapped_words(out, rest)
        }
        _ => Ok(()),
    }
}

/// The unwind instructions in words, followed by the bytes that fill the last word of a table.
fn codes_in(alloc: Global, words: &[u8]) -> Result<Vec<u8>, AllocError>
    ensures { IfOk result (λ v. v.items ≡ codes_in words.now) }
{
    let mut out = Vec::new(alloc);
    push_without_count(&mut out, words)?;
    out.extend_from_slice(&[FINISH; 3])?;
    Ok(out)
}

/// The unwind instructions of an entry, followed by three times "finish". With the two bytes before them they fill whole words. None if
/// the entry's words aren't there.
pub fn codes_of(alloc: Global, entry: &Generic) -> Result<Vec<u8>, AllocError>
    ensures { IfOk result (λ v. v.items ≡ codes_of entry.now) }
{
    match entry.words() {
        None => Ok(Vec::new(alloc)),
        Some(words) => codes_in(alloc, words),
    }
}
