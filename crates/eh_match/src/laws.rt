//! The consequences of the rules, in the terms of the standard: laws of the list of paths. docs/rules/types-and-matching.md states them.
ghost use Rattle.eh_match.specs.Laws.{TypesMatchThemselves, ZeroMatchesNothing, UnheldTypesStandAlone, PathsAreAllChains, PathsGoDepthFirst, PlainPathsAreNamed, VirtualPathsAreNamed, SubobjectsAreTold, PathsArePublicByStep, PlainStepsAdd, OffsetsAreSigned, VirtualStepsGoByTheVtable, AddressesFollow, NoPublicPathFails, PartedBasesFail, OneBaseIsCaught, OnePathIsCaught, OnePlainPathIsCaught, TwoPlainBasesFail, PlainAndVirtualBaseFail, VirtualBaseIsOne, QualifiersAreKept, PromisesAreKept, PointersFollowTheirPointees, UnreadPointersAreNamed};

/// A type is caught as itself. Type 0 matches nothing. A type that the graph doesn't have matches no other type.
pub fn equal_types_match()
    ensures themselves { TypesMatchThemselves }
    ensures zero { ZeroMatchesNothing }
    ensures unheld { UnheldTypesStandAlone }
{}

/// The paths of a type are all chains of steps to a base, depth first in the order of the bases; no bound cuts one off.
pub fn paths_are_all_chains()
    ensures chains { PathsAreAllChains }
    ensures order { PathsGoDepthFirst }
{}

/// A subobject is identified by the type that the last virtual step to it reaches, and the sum of the offsets after that step. A path
/// is public if all its steps are.
pub fn subobjects_are_named()
    ensures plain { PlainPathsAreNamed }
    ensures by_virtual { VirtualPathsAreNamed }
    ensures told { SubobjectsAreTold }
    ensures public { PathsArePublicByStep }
{}

/// A step to a base adds the base's signed offset to the address. A step to a virtual base adds the word that the vtable has at that
/// offset.
pub fn addresses_follow_the_steps()
    ensures plain { PlainStepsAdd }
    ensures signed { OffsetsAreSigned }
    ensures by_virtual { VirtualStepsGoByTheVtable }
    ensures parts { AddressesFollow }
{}

/// A class is caught as a base if and only if all paths to the base lead to one subobject and one of them is public. The handler is
/// given the address that the first public path gives.
pub fn a_class_is_caught_as_its_one_public_base()
    ensures not_public { NoPublicPathFails }
    ensures parted { PartedBasesFail }
    ensures caught { OneBaseIsCaught }
{}

/// If there is only one path to a base, and it is public, then the handler is given the base's address.
pub fn a_base_with_one_path_is_caught_at_its_address()
    ensures path { OnePathIsCaught }
    ensures plain { OnePlainPathIsCaught }
{}

/// A base that is in a class twice isn't caught. A base that is virtual on every path is in the class once.
pub fn diamonds_are_told_apart()
    ensures two { TwoPlainBasesFail }
    ensures mixed { PlainAndVirtualBaseFail }
    ensures one { VirtualBaseIsOne }
{}

/// A caught pointer keeps the qualifiers, doesn't gain `noexcept` or transaction safety, and converts as its pointee does. A null
/// pointer stays null.
pub fn pointers_follow_their_pointees()
    ensures qualifiers { QualifiersAreKept }
    ensures promises { PromisesAreKept }
    ensures pointees { PointersFollowTheirPointees }
    ensures unread { UnreadPointersAreNamed }
{}
