//! Mapping symbols, which say where code and where data begins (IHI 0044; docs/rules/elf.md).
ghost use Rattle.std.specs.Prelude.{◌≡◌, ◌≤◌, length, nat_le, IfOk};
ghost use Rattle.std.specs.List.Sorted.{IsStrictlySortedBy};
ghost use Rattle.std.specs.Ordering.{nat_cmp};
ghost use Rattle.std.specs.Map.{keys_of};
ghost use Rattle.elf_image.specs.Marks.{is_mark_name, is_mark, marks_of, is_code_by_marks, next_mark};
ghost use Rattle.std.specs.List.{prefix_len};

use crate::symbol::Symbol;
use std::alloc::{AllocError, Global};
use std::collections::BTreeMap;

/// Whether a name is `$t`, `$d` or `$a`, alone or followed by a dot and at least one byte.
fn is_mark_name(name: &[u8]) -> bool
    ensures { result ≡ is_mark_name name.now }
{
    if name.len() < 2 {
        return false;
    }
    name[0] == b'$'
        && (name[1] == b't' || name[1] == b'd' || name[1] == b'a')
        && (name.len() == 2 || (name.len() >= 4 && name[2] == b'.'))
}

/// Whether a symbol is a mapping symbol: local, of no type, with such a name.
fn is_mark(s: &Symbol) -> bool
    ensures { result ≡ is_mark s.now }
{
    s.info == 0 && is_mark_name(s.name)
}

/// The mapping symbols by address, with whether code begins there. Of several at one address, the last counts.
#[tactic(auto, unfolding(crate::specs::Marks::marks_of))]
fn marks_by_address(alloc: Global, symbols: &[Symbol]) -> Result<BTreeMap<u32, bool>, AllocError>
    ensures { IfOk result (λ m. m.entries ≡ marks_of symbols.now) }
{
    let mut marks = BTreeMap::new(alloc);
    for s in symbols {
        if is_mark(s) {
            marks.insert(s.value, s.name[1] == b't')?;
        }
    }
    Ok(marks)
}

/// The entries of a map, in its order.
fn entries(alloc: Global, marks: BTreeMap<u32, bool>) -> Result<Vec<(u32, bool)>, AllocError>
    ensures items { IfOk result (λ v. v.items ≡ marks.entries) }
    ensures ordered { IsStrictlySortedBy nat_cmp (keys_of marks.entries) }
{
    marks.into_iter().collect(alloc)
}

/// The mapping symbols in ascending order of their addresses.
pub(crate) fn read_marks(alloc: Global, symbols: &[Symbol]) -> Result<Vec<(u32, bool)>, AllocError>
    ensures items { IfOk result (λ v. v.items ≡ marks_of symbols.now) }
    ensures ordered { IfOk result (λ v. IsStrictlySortedBy nat_cmp (keys_of v.items)) }
{
    let marks = marks_by_address(alloc, symbols)?;
    entries(alloc, marks)
}

/// How many marks are at or below `a`.
fn marks_up_to(marks: &[(u32, bool)], a: u32) -> usize
    requires { IsStrictlySortedBy nat_cmp (keys_of marks.now) }
    ensures count { result ≡ prefix_len (λ m. nat_le m.0 a) marks.now }
    ensures within { result ≤ length marks.now }
{
    marks.partition_point(|m| m.0 <= a)
}

/// Whether the last mark at or below `a` says code; also true if there is no such mark.
#[tactic(auto, using(crate::proofs::Lookups::mark_lookups))]
pub(crate) fn is_code_by_marks(marks: &[(u32, bool)], a: u32) -> bool
    requires { IsStrictlySortedBy nat_cmp (keys_of marks.now) }
    ensures { result ≡ is_code_by_marks marks.now a }
{
    let count = marks_up_to(marks, a);
    if count == 0 { true } else { marks[count - 1].1 }
}

/// The address of the first mark above `a`, or `end` if there is none.
#[tactic(auto, using(crate::proofs::CodeRuns::next_lookups))]
pub(crate) fn next_mark(marks: &[(u32, bool)], a: u32, end: u32) -> u32
    requires { IsStrictlySortedBy nat_cmp (keys_of marks.now) }
    ensures { result ≡ next_mark marks.now a end }
{
    let count = marks_up_to(marks, a);
    if count < marks.len() {
        marks[count].0
    } else {
        end
    }
}
