//! A law of the rounds. The function has it as its contract, and does nothing.

ghost use Rattle.geo_core.specs.OneAnswer.{RoundsAreOne};

/// Two things that the rounds of a problem come to within one budget are the same, but for the
/// derivation.
pub fn rounds_are_one()
    ensures { RoundsAreOne }
{}
