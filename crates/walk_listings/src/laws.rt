//! The laws. Each function has a law as its contract, and does nothing.

ghost use Rattle.walk_listings.specs.Laws.{ListingsAreByFronts, ListingsAreOne, ListingsGoOn, PagesJoin};

/// What the whole walk lists is a listing by a front.
pub fn listings_are_by_fronts()
    ensures { ListingsAreByFronts }
{}

/// From each front on there is a listing, so there is one of each walk.
pub fn listings_go_on()
    ensures { ListingsGoOn }
{}

/// There is no other listing.
pub fn listings_are_one()
    ensures { ListingsAreOne }
{}

/// A page after the last layout of another goes on where that one ends.
pub fn pages_join()
    ensures { PagesJoin }
{}
