//! The faults of an index table, as bytes and numbers (IHI 0038, "Index table entries"; docs/rules/unwind-tables.md).
ghost use Rattle.eh_table_laws.specs.Indexes.{RefusalsAreTold};

/// An index is refused first for its size, and then for the lowest row with a fault. In a row, a place outside the image comes before a
/// start below that of the row before it. A function may begin at the end of code. A table is at a multiple of 4, in bytes that aren't
/// writable.
pub fn refusals_are_told()
    ensures { RefusalsAreTold }
{}
