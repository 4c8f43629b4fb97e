//! Laws of every audit that is written (docs/guide/audit.md, "The program").
ghost use Rattle.audit_top.specs.Laws.{LinesAreOfUnwell, StatusIsOfList, LinesAreOfRefused, NoLineIsTranslated, AuditNumbers};

/// A function has a line exactly if the checker refuses it.
pub fn lines_are_of_unwell()
    ensures { LinesAreOfUnwell }
{}

/// The status is 0 exactly if nothing is listed.
pub fn status_is_of_list()
    ensures { StatusIsOfList }
{}

/// An entry has a line exactly if something in it is refused. The lines are in the order of the index.
pub fn lines_are_of_refused()
    ensures { LinesAreOfRefused }
{}

/// In an image that is to be rewritten, no entry has a line exactly if nothing of its tables is refused.
pub fn no_line_is_translated()
    ensures { NoLineIsTranslated }
{}

/// The constants that the definitions cite, in digits.
pub fn audit_numbers()
    ensures { AuditNumbers }
{}
