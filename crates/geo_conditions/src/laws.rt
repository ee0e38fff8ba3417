//! The laws of the definitions. Each function has a law as its contract, and does nothing.

ghost use Rattle.geo_conditions.specs.Laws.{RefutationIsMonotone, RefutedIsFalse, SupportedStatesJoin, GreatestExists, LayoutsStay, FullMembersAreLayouts, ValuesTellTuples, PrefixesAreMembers, WalksAreLists, FrontsBeginTheWalk, ListingsFollowTheWalk};

/// What is refuted on a state stays refuted on a smaller one.
pub fn refutation_is_monotone()
    ensures { RefutationIsMonotone }
{}

/// What is refuted on a state is false on each tuple inside it.
pub fn refuted_is_false()
    ensures { RefutedIsFalse }
{}

/// The join of two supported states is supported.
pub fn supported_states_join()
    ensures { SupportedStatesJoin }
{}

/// Where a supported state lies inside a state, a greatest one does.
pub fn greatest_exists()
    ensures { GreatestExists }
{}

/// A layout inside a state lies inside the greatest supported state in it.
pub fn layouts_stay()
    ensures { LayoutsStay }
{}

/// The full members of the walk are the layouts.
pub fn full_members_are_layouts()
    ensures { FullMembersAreLayouts }
{}

/// A tuple is known by the values of its variables.
pub fn values_tell_tuples()
    ensures { ValuesTellTuples }
{}

/// Each prefix of a member of the walk is a member.
pub fn prefixes_are_members()
    ensures { PrefixesAreMembers }
{}

/// The walk is a list, also after a token.
pub fn walks_are_lists()
    ensures { WalksAreLists }
{}

/// The fronts of a walk are its beginnings.
pub fn fronts_begin_the_walk()
    ensures { FrontsBeginTheWalk }
{}

/// A listing by fronts is the listing by the whole walk.
pub fn listings_follow_the_walk()
    ensures { ListingsFollowTheWalk }
{}
