//! The laws. Each function has a law as its contract, and does nothing.

ghost use Rattle.bare_rules.specs.Bare.{PlacesDoNotMatter, MacrosMayStandFirst};
ghost use Rattle.bare_rules.specs.Bare.{TextsKeepConditions, CanonicalTextsKeepConditions};
ghost use Rattle.bare_rules.specs.Bare.{OrderMatters};

/// Where the names and the rules of a problem have no fault, they have none in one that says the
/// same at other places, and whose statements may call what they may call in the first.
pub fn places_do_not_matter()
    ensures { PlacesDoNotMatter }
{}

/// They may, where all macros stand first, in the same order.
pub fn macros_may_stand_first()
    ensures { MacrosMayStandFirst }
{}

/// So where a problem has no fault, what is read of its canonical text has none, and neither what
/// is read of a text that states its order or its sides where it need not.
pub fn texts_keep_conditions()
    ensures stated { TextsKeepConditions }
    ensures canonical { CanonicalTextsKeepConditions }
{}

/// A problem with a fault may have none where it stands at other places: a rule that calls a macro
/// has to stand behind it.
pub fn order_matters()
    ensures { OrderMatters }
{}
