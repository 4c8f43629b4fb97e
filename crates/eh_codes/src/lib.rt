//! The parts of the exception handling ABI for Arm (IHI 0038) that the assembler, the linker and the readers share:
//! unwinding instructions, the words of an entry, and the rows of the index.
#![tactic(auto)]

ghost use Rattle.eh_codes.specs.Laws.{CodesAreCut, NumbersRead, RowsReadBack, RowsSay, RowsAreRead};

pub mod code;
pub mod row;
pub mod words;

pub use code::{UnwindCode, push_code};
pub use row::{Entry, EntryBody, body_of, entry_of, prel31_to, push_row, push_rows, second_word};
pub use words::{code_words_after, personality_of_word};

/// Decoding undoes encoding: the bytes of valid unwinding instructions, in front of any other bytes, decode to those
/// instructions. The bytes after them decode as they would alone. The number of a long raise is read as it was written.
pub fn codes_are_cut_as_written()
    ensures codes { CodesAreCut }
    ensures numbers { NumbersRead }
{}

/// Index rows read back. A row has eight bytes. Its first word is relative to itself and gives the function's start;
/// its second is 1, an inline entry, or relative to itself and gives the table. The bytes of a row read as that row,
/// with bit 0 of its start cleared. This needs addresses below 2^30 and tables at multiples of 4.
pub fn rows_read_back()
    ensures second { RowsReadBack }
    ensures say { RowsSay }
    ensures read { RowsAreRead }
{}
