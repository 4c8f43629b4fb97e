//! Laws on single lines of a source: what the reader accepts, and how it reads it
//! (docs/rules/sources.md, "What is proved").
#![tactic(auto)]

ghost use Rattle.asm_line_laws.specs.Lines.{LinesAreWritten};
ghost use Rattle.asm_line_laws.specs.Narrow.{FormsAreNarrow};
ghost use Rattle.asm_line_laws.specs.Once.{RowsDiffer};
ghost use Rattle.asm_line_laws.specs.Read.{WasWritten};
ghost use Rattle.asm_line_laws.specs.Stops.{StopsAtTheFirst};
ghost use Rattle.asm_line_laws.specs.Written.{ReadsBack};

/// The canonical line of a statement reads back as that statement. So do its other lines: with another spelling of the
/// word, with or without the `#` of a number, or without an offset of 0. Each form of the table reads one of these
/// lines.
pub fn what_is_written_reads_back()
    ensures { ReadsBack }
{}

/// Every line that is read holds what was read from it: a label, then one of the lines of the statement, operand by
/// operand. So the table has no form that reads any other line.
pub fn what_is_read_was_written()
    ensures { WasWritten }
{}

/// The lines that the law above describes operand by operand are, as texts, those that read back.
pub fn lines_are_the_written_ones()
    ensures { LinesAreWritten }
{}

/// No two rows of the table have the same word and the same pieces after it.
pub fn rows_differ()
    ensures { RowsDiffer }
{}

/// A source that is refused is refused in its first bad line. The cause is a forbidden byte, a line that is too long or
/// one too many, or the first token that no form of the word takes.
pub fn reading_stops_at_the_first()
    ensures { StopsAtTheFirst }
{}

/// Forms that take only sp, only some numbers, words or lists, or only a repeated name are exactly those of statements
/// that have nothing more.
pub fn forms_take_no_more()
    ensures { FormsAreNarrow }
{}
