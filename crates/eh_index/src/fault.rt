//! Why an image's index table can't be read (docs/rules/unwind-tables.md).
ghost use Rattle.std.specs.Prelude.{◌≡◌, ◌≤◌, length};
ghost use Rattle.eh_index.specs.FaultNames.{fault_name};

use thiserror::Error;

/// Why an index table can't be read. Rows are counted from 0.
#[derive(Clone, Copy, Debug, Error)]
pub enum IndexFault {
    /// The table's size isn't a multiple of the size of a row.
    #[error("no whole number of rows")]
    Length,
    /// The row with this number points to a wrong place. Bit 31 of its first word is set; or its function's start is neither in an
    /// executable segment nor at the end of one; or its table's address isn't a multiple of 4, or isn't in the file bytes of a
    /// read-only segment.
    #[error("row {0} names a place outside the image")]
    OutsideImage(u32),
    /// The start of the row with this number is below that of the row before it.
    #[error("row {0} begins below the row before it")]
    Unsorted(u32),
}

impl IndexFault {
    /// The fault's name, as it is written in reports: at most 16 bytes.
    pub fn name(self) -> &'static [u8]
        ensures name { result.now ≡ fault_name self }
        ensures short { length result.now ≤ 16 }
    {
        match self {
            IndexFault::Length => b"Length",
            IndexFault::OutsideImage(_) => b"OutsideImage",
            IndexFault::Unsorted(_) => b"Unsorted",
        }
    }
}
