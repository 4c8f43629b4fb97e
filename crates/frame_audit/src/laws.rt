//! Laws of every audit, above the result for one function (docs/guide/audit.md).
ghost use Rattle.frame_audit.specs.Laws.{ListsAreWhole, ListsAreOne, UnwindingIsTold, StrayIsOutside, CodeIsDivided, CountsAddUp};

/// Each rejected function is listed with a cause, and no other function is; they are in the order of the image.
pub fn lists_are_whole()
    ensures { ListsAreWhole }
{}

/// Two audits of an image list the same functions. They can only differ in the address and the cause.
pub fn lists_are_one()
    ensures { ListsAreOne }
{}

/// A function that no entry covers, or whose entry is CANTUNWIND, counts as one that can't be unwound. One whose unwind instructions
/// have a recipe counts as one that can.
pub fn unwinding_is_told()
    ensures { UnwindingIsTold }
{}

/// No address of a function is counted as code in no function.
pub fn stray_is_outside()
    ensures { StrayIsOutside }
{}

/// The code in functions and the code in no function together are all code of the image.
pub fn code_is_divided()
    ensures { CodeIsDivided }
{}

/// Each function is counted once by whether it can be unwound, and each rejected one once by its cause.
pub fn counts_add_up()
    ensures { CountsAddUp }
{}
