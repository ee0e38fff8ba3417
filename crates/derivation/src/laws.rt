//! The laws of covers. Each function has a law as its contract, and does nothing.

ghost use Rattle.derivation.specs.Laws.{CoversStay};

/// A cover of a box covers each smaller box, on each smaller state.
pub fn covers_stay()
    ensures { CoversStay }
{}
