//! Laws of listings. Each function has a law as its contract, and does nothing.

ghost use Rattle.layout_search.specs.Laws.{ListingsAreOfLayouts, PagesPassNoneOver};

/// A listing of a problem's walk under its conditions is one of its layouts, in the stated order
/// and behind the tuple that was given; and each layout is a full member of the walk.
pub fn listings_are_of_layouts()
    ensures { ListingsAreOfLayouts }
{}

/// Each layout behind the tuple that was given stands in a page of the problem's walk, or comes
/// behind all that do; and it stands there where the walk is used up.
pub fn pages_pass_none_over()
    ensures { PagesPassNoneOver }
{}
