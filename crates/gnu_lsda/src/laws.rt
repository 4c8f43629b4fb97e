//! What generic entries and their data areas mean: laws above the definitions (docs/rules/gnu-tables.md).
ghost use Rattle.gnu_lsda.specs.FirstFault.{FirstFaultIsAnswered};
ghost use Rattle.gnu_lsda.specs.Laws.{SignIsBit6, RecordsTakeFourBytes, RecordsAreFew, ChainsAreShort};

/// The sign of a SLEB128 number is bit 6 of its last byte (DWARF, "Variable Length Data").
pub fn the_sign_is_bit_6()
    ensures { SignIsBit6 }
{}

/// A call-site record takes at least four bytes. So a table has at most one record for every four bytes.
pub fn records_take_four_bytes()
    ensures bytes { RecordsTakeFourBytes }
    ensures few { RecordsAreFew }
{}

/// At most 64 actions of a chain are read.
pub fn chains_are_short()
    ensures { ChainsAreShort }
{}

/// If a generic entry has several faults, the first in the order of `EntryFault` is given; if it has none, none is given.
pub fn the_first_fault_is_answered()
    ensures { FirstFaultIsAnswered }
{}
