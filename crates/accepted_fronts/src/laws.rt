//! The laws of the front parts of problems' texts. Each function has a law as its contract, and
//! does nothing.

ghost use Rattle.accepted_fronts.specs.Fronts.{FrontsAreAccepted, FrontsStay};

/// Up to its first word `end` the text of a problem is a text of the same problem.
pub fn fronts_are_accepted()
    ensures { FrontsAreAccepted }
{}

/// So it is where a line feed and more is put behind the text.
pub fn fronts_stay()
    ensures { FrontsStay }
{}
