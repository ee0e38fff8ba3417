//! The laws of whole derivations. Each function has a law as its contract, and does nothing.

ghost use Rattle.whole_derivation.specs.Laws.{ChainsGoOn, EndingsClose, SplitsJoin};

/// A chain, and behind it a derivation of what it leads to, are one derivation.
pub fn chains_go_on()
    ensures { ChainsGoOn }
{}

/// A chain that is closed is a derivation.
pub fn endings_close()
    ensures { EndingsClose }
{}

/// A split, and behind it a derivation of each of its parts, are one derivation.
pub fn splits_join()
    ensures { SplitsJoin }
{}
