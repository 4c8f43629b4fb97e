//! What an index that was read tells, in the terms of the standard: laws of the list of its rows (docs/rules/unwind-tables.md).
ghost use Rattle.eh_index.specs.Laws.{EntriesStand, FirstWordsAreClear, RangesCover, TablesAreThere, RowsAreRead};

/// Every entry of an index that was read starts in code or at its end, and its table's address is a multiple of 4. Bit 31 of its row's
/// first word is clear.
pub fn entries_stand_in_the_image()
    ensures stand { EntriesStand }
    ensures clear { FirstWordsAreClear }
{}

/// An entry covers the addresses from its start to below the next one's.
pub fn an_entry_covers_up_to_the_next()
    ensures { RangesCover }
{}

/// Every place that is valid for a table has bytes.
pub fn tables_are_there()
    ensures { TablesAreThere }
{}

/// If an index is written row by row, with words relative to their own addresses, then reading it gives these entries in this order.
pub fn rows_are_read_as_written()
    ensures { RowsAreRead }
{}
