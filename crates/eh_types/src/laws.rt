//! Laws of every graph that is read (docs/rules/types-and-matching.md).
ghost use Rattle.eh_types.specs.Laws.{BasesAndPointeesAreHeld, BasesAreRead, WordsAreFixed, NamesAreEnded, GraphsAreOne, GraphsHoldWhatIsReached, NoneIsItsOwnBase, FaultsHaveNoGraph};

/// The same roots have at most one graph.
pub fn roots_mean_one_graph()
    ensures { GraphsAreOne }
{}

/// A graph has exactly the types that can be reached from its roots.
pub fn graphs_hold_what_is_reached()
    ensures { GraphsHoldWhatIsReached }
{}

/// A graph that has a class has its bases; one that has a pointer has its pointee.
pub fn bases_and_pointees_are_held()
    ensures { BasesAndPointeesAreHeld }
{}

/// No type of a graph is its own direct or indirect base.
pub fn none_is_its_own_base()
    ensures { NoneIsItsOwnBase }
{}

/// If a reachable type has a fault, there is no graph.
pub fn faults_have_no_graph()
    ensures { FaultsHaveNoGraph }
{}

/// A base that is written as two words is read back as that base.
pub fn bases_are_read()
    ensures { BasesAreRead }
{}

/// The words of a type that is read lie in the image, and none is writable.
pub fn words_are_fixed()
    ensures { WordsAreFixed }
{}

/// The name of a type lies in read-only bytes, ends with a zero byte, and has no other zero byte.
pub fn names_are_ended()
    ensures { NamesAreEnded }
{}
