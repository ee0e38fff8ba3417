//! The laws of printed derivations. Each function has a law as its contract, and does nothing.

ghost use Rattle.printed_derivation.specs.Laws.{AreAllNamed, AreAllLimited};
ghost use Rattle.printed_derivation.specs.Laws.{IsReadBack, IsReadBackBehind};

/// What a derivation names has a name, in a table of the state that it fits.
pub fn are_all_named()
    ensures { AreAllNamed }
{}

/// The numbers of a derivation are ones that a text can have, where conditions are not too many.
pub fn are_all_limited()
    ensures { AreAllLimited }
{}

/// What is printed of a derivation is read back as its events.
pub fn is_read_back()
    ensures { IsReadBack }
{}

/// So it is behind white space and comments, and a line feed that ends the last comment.
pub fn is_read_back_behind()
    ensures { IsReadBackBehind }
{}
