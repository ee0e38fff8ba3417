//! The laws of the definitions. Each function has a law as its contract, and does nothing.

ghost use Rattle.linear_conditions.specs.Laws.{ComparisonsAreMeant, FoldedCountsCount, FormsArePlaced, FormsHaveValues, OppositesDiffer};

/// The form of an expression has its value.
pub fn forms_have_values()
    ensures { FormsHaveValues }
{}

/// The terms of a form stand in order, and name objects and dimensions of the problem.
pub fn forms_are_placed()
    ensures { FormsArePlaced }
{}

/// A folded count is true exactly where so many of its children are.
pub fn folded_counts_count()
    ensures { FoldedCountsCount }
{}

/// The condition of a comparison is true exactly where the comparison holds.
pub fn comparisons_are_meant()
    ensures { ComparisonsAreMeant }
{}

/// The opposite comparison holds exactly where the comparison does not.
pub fn opposites_differ()
    ensures { OppositesDiffer }
{}
