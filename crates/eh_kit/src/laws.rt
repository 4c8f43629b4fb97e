//! Laws on generated programs: their numbers, functions and lines (docs/guide/command-line.md).
ghost use Rattle.eh_kit.specs.Laws.{DrawnAsRand, FirstOfNumberOne, EachCallsTheNext, NamesDiffer, LongerBeginsAlike, LinesAreRead, LinesArePlain};

/// Numbers are drawn as by the example of `rand` in the C standard; the results modulo 4 choose what the functions do.
pub fn numbers_are_drawn_as_rand()
    ensures { DrawnAsRand }
{}

/// What the first program, of number 1 with four functions, is.
pub fn first_functions_of_number_one()
    ensures { FirstOfNumberOne }
{}

/// Each function calls the next, and the last one before `boom` calls `boom`.
pub fn each_function_calls_the_next()
    ensures { EachCallsTheNext }
{}

/// No two functions have the same name.
pub fn names_differ()
    ensures { NamesDiffer }
{}

/// A program with more functions begins with the same functions, except for the callee of the shorter one's last.
pub fn a_longer_program_begins_alike()
    ensures { LongerBeginsAlike }
{}

/// A text is read as its lines, one by one.
pub fn texts_are_read_as_their_lines()
    ensures { LinesAreRead }
{}

/// Every line has only printable characters and doesn't begin with a blank.
pub fn lines_are_plain()
    ensures { LinesArePlain }
{}
