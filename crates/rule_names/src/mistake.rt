//! A mistake at a name, and which of two mistakes comes first.

ghost use Rattle.std.specs.Prelude.{◌≡◌, ◌++◌, List};
ghost use Rattle.rule_names.specs.declared.mistake.Mistake.{Mistake};
ghost use Rattle.rule_names.specs.Mistakes.{phase, rank, word_of, is_after, earlier, first_of, mistake_if};

use geo_tokens::fault::FaultWord;
use geo_tokens::first::{self, InOrder};

/// What is wrong with a name. The first two are mistakes of names, the others of kinds.
#[derive(Clone, Copy)]
pub enum Flaw {
    /// It is the name of nothing.
    UnknownName,
    /// A list of objects has it already.
    RepeatedName,
    /// What it names is of another kind than what is wanted.
    WrongKind,
    /// The macro that it calls has another number of parameters.
    WrongCount,
    /// The object or box has no such field.
    UnknownField,
}

/// A mistake at a place. The place is how many bytes of the text stand before it.
#[derive(Clone, Copy)]
pub struct Mistake {
    pub place: u64,
    pub flaw: Flaw,
}

/// Mistakes of names are looked for in the whole text before those of kinds.
fn phase(flaw: Flaw) -> u8
    ensures { result ≡ phase flaw }
{
    match flaw {
        Flaw::UnknownName => 0,
        Flaw::RepeatedName => 0,
        Flaw::WrongKind => 1,
        Flaw::WrongCount => 1,
        Flaw::UnknownField => 1,
    }
}

/// In which order the mistakes of one place are taken.
fn rank(flaw: Flaw) -> u8
    ensures { result ≡ rank flaw }
{
    match flaw {
        Flaw::UnknownName => 0,
        Flaw::RepeatedName => 1,
        Flaw::WrongKind => 2,
        Flaw::WrongCount => 3,
        Flaw::UnknownField => 4,
    }
}

/// The word for it.
pub fn word_of(flaw: Flaw) -> FaultWord
    ensures { result ≡ word_of flaw }
{
    match flaw {
        Flaw::UnknownName => FaultWord::Unknown,
        Flaw::RepeatedName => FaultWord::Twice,
        Flaw::WrongKind => FaultWord::Kind,
        Flaw::WrongCount => FaultWord::Args,
        Flaw::UnknownField => FaultWord::Unknown,
    }
}

impl InOrder for Mistake {
    ghost comes_after = { is_after };

    fn is_after(&self, other: &Mistake) -> bool {
        let own = phase(self.flaw);
        let others = phase(other.flaw);
        let is_behind = self.place > other.place
            || self.place == other.place && rank(self.flaw) > rank(other.flaw);
        own > others || own == others && is_behind
    }
}

/// The one of two that comes first: the first of two lists, from the first of each.
pub fn earlier(a: Option<Mistake>, b: Option<Mistake>) -> Option<Mistake>
    ensures value { result ≡ earlier a b }
    ensures lists { (ms ns : List Mistake) → a ≡ first_of ms → b ≡ first_of ns
        → result ≡ first_of (ms ++ ns) }
{
    first::earlier(a, b)
}

/// The mistake, where there is one.
pub fn mistake_if(wrong: bool, place: u64, flaw: Flaw) -> Option<Mistake>
    ensures { result ≡ first_of (mistake_if wrong place flaw) }
{
    if wrong {
        Some(Mistake { place, flaw })
    } else {
        None
    }
}
