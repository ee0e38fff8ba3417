//! The laws of the grammar. Each function has a law as its contract, and does nothing.

ghost use Rattle.derivation_reading.specs.Laws.{TableReadsTheLanguage, TextsHaveOneTree};

/// What is read token by token as a whole text with some events is just what the grammar says to be
/// a text of a tree of nodes with these events, whatever names and numbers stand for.
pub fn table_reads_the_language()
    ensures { TableReadsTheLanguage }
{}

/// A text of the grammar is one of one tree.
pub fn texts_have_one_tree()
    ensures { TextsHaveOneTree }
{}
