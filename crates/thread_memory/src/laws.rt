//! Laws of what threads that share a memory keep from each other (docs/guide/walks-and-threads.md).
ghost use Rattle.thread_memory.specs.Laws.{HomesPart, HomesAreApart, ReleasesNoOthers, ReleasesItsOwn, StoresMissGuards, GuardedStoresAreRefused, RunnersReadTheirOwn, UntouchedStay, FreedAreNobodys, MadeAreItsOwn, SwitchesShow, OthersAreShut, OwnersReadTheirOwn, InDigits};

/// Each address of the stack lies in the home of exactly one thread.
pub fn homes_part_the_stack()
    ensures part { HomesPart }
    ensures apart { HomesAreApart }
{}

/// When sp rises within a thread's home, its own guarded words below sp are released, and none of another thread's.
pub fn releases_stay_at_home()
    ensures others { ReleasesNoOthers }
    ensures own { ReleasesItsOwn }
{}

/// No store of any thread overwrites a guarded word of any thread. An aligned store to such a word is refused with its address.
pub fn stores_miss_guards()
    ensures missed { StoresMissGuards }
    ensures refused { GuardedStoresAreRefused }
{}

/// When another thread is entered, the slots are recorded so that the thread that ran will read again what it read last. A slot whose state
/// reads as before is unchanged. A freed one is nobody's, and any other belongs to the thread that ran.
pub fn runners_read_their_own()
    ensures read { RunnersReadTheirOwn }
    ensures untouched { UntouchedStay }
    ensures freed { FreedAreNobodys }
    ensures made { MadeAreItsOwn }
{}

/// After a switch each slot's state reads as the entered thread sees it, and no other word has changed.
pub fn switches_show_states()
    ensures { SwitchesShow }
{}

/// An exception of another thread can't be freed, thrown or caught, and its slot isn't handed out. A thread's own exceptions read as they
/// are.
pub fn others_are_out_of_use()
    ensures shut { OthersAreShut }
    ensures own { OwnersReadTheirOwn }
{}

/// The number of threads, the first and the last home, and the state word of a slot that is out of use.
pub fn numbers_in_digits()
    ensures { InDigits }
{}
