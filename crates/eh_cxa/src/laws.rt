//! Laws of whole runs that begin with an empty pool: docs/rules/phases-and-exceptions.md. They are about lists of exceptions; each call's clause `lists`
//! relates them to the pool's words.
ghost use Rattle.eh_cxa.specs.Runs.{UncaughtFly, LivesFit};

/// The number of uncaught exceptions is the number of those that are flying or have landed.
pub fn uncaught_exceptions_fly()
    ensures { UncaughtFly }
{}

/// Between its allocation and its slot being free again, an exception is freed once. If it was thrown, it was handed to its destructor
/// once before that. A live exception isn't freed, and was handed to its destructor only if it has ended.
pub fn exceptions_end_once()
    ensures { LivesFit }
{}
