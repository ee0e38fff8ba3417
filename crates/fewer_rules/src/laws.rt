//! The laws. Each function has a law as its contract, and does nothing.

ghost use Rattle.fewer_rules.specs.Fewer.{FewerRulesHold, SomeRulesGround, SomeRulesHaveNoFault};

/// Where the names and the rules of a problem have no fault, they have none with some of its rules
/// alone; and so grounding it with these does not answer one.
pub fn some_rules_ground()
    ensures ground { SomeRulesGround }
    ensures no_fault { SomeRulesHaveNoFault }
{}

/// A layout of a problem with some of its rules is one of it with fewer of them.
pub fn fewer_rules_hold()
    ensures { FewerRulesHold }
{}
