//! What a throw finds in a function with GNU's tables: laws of the descriptors that replace a generic entry. No crate of the program
//! calls them. docs/rules/gnu-tables.md states the rules.
#![tactic(auto)]

ghost use Rattle.gnu_verdict_laws.specs.Laws.{VerdictsAreGnus, CleanupsAreGnus};
ghost use Rattle.gnu_verdict_laws.specs.Tables.{RewrittenEntriesAreRead};

/// At each offset of an accepted entry's range, its new descriptors have the same verdict as GNU's personality routine, with the filter
/// that the routine gives the handler.
pub fn verdicts_are_gnus()
    ensures { VerdictsAreGnus }
{}

/// The cleanups that a throw runs there, before a descriptor has a verdict, are those that GNU's personality routine runs.
pub fn cleanups_are_gnus()
    ensures { CleanupsAreGnus }
{}

/// The new table of an accepted entry, written above all segments of the image, is read back: as the entry's unwind instructions with
/// those that fill the last word, and as its new descriptors.
pub fn rewritten_entries_are_read()
    ensures { RewrittenEntriesAreRead }
{}
