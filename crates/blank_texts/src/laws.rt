//! The laws of texts that are put together. Each function has a law as its contract, and does
//! nothing.

ghost use Rattle.blank_texts.specs.Blank.{BlanksEnd, FirstEndsStay, TokensMove};

/// A line feed ends white space and comments.
pub fn blanks_end()
    ensures { BlanksEnd }
{}

/// A first word `end` stays the first one where a line feed and more is put behind the text.
pub fn first_ends_stay()
    ensures { FirstEndsStay }
{}

/// The tokens of a text stand as far behind as the text does.
pub fn tokens_move()
    ensures { TokensMove }
{}
