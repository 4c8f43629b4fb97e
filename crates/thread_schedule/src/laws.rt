//! Laws of schedules and tagged lines, a text at a time (docs/guide/walks-and-threads.md).
ghost use Rattle.thread_schedule.specs.Laws.{DigitsAreRead, LineFeedsPass, FirstBadIsNamed, NoDigitIsNamed, LinesAreTagged, LastLineIsTagged, NoTagChangesNothing, NoLineIsTagged, InDigits};

/// A text of digits is its own schedule, and line feeds between them change nothing. The first other byte is named by its offset in bytes;
/// a text of line feeds alone by its length.
pub fn schedules_are_their_digits()
    ensures digits { DigitsAreRead }
    ensures feeds { LineFeedsPass }
    ensures bad { FirstBadIsNamed }
    ensures none { NoDigitIsNamed }
{}

/// Each line has its tag before it, also a last line without a line feed. Text or tags beyond the other's number change nothing.
pub fn lines_have_their_tags()
    ensures lines { LinesAreTagged }
    ensures last { LastLineIsTagged }
    ensures untagged { NoTagChangesNothing }
    ensures empty { NoLineIsTagged }
{}

/// The byte values of digits, line feeds and blanks.
pub fn numbers_in_digits()
    ensures { InDigits }
{}
