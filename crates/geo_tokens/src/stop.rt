//! Why reading stopped, the readers of one token, and what goes on behind a value that was read.

ghost use Rattle.std.specs.Prelude.{◌≡◌, ◌∷◌, []};
ghost use Rattle.geo_tokens.specs.Words.{start_of, has, kinds_of};
ghost use Rattle.geo_tokens.specs.Reading.{next_is, token_at};
ghost use Rattle.geo_tokens.specs.Gives.{Gives, IsBehind, Follows, Adds, Refuses};
ghost use Rattle.geo_tokens.specs.declared.stop.Stop.TheVariants.{Memory};
ghost use Rattle.geo_tokens.specs.Class.{class_of};

use crate::token::{Kind, Token, class_of};
use std::alloc::{AllocError, AllocFailed};

/// Why reading stopped, with the tokens that were left.
#[derive(Clone, Copy)]
pub enum Stop<'a> {
    /// Memory ran out.
    Memory,
    /// The next token, or the end where none is left, goes on with what was read in no text.
    Wrong(&'a [Token]),
    /// The token before these opened a level too many.
    Deep(&'a [Token]),
}

impl From<AllocError> for Stop<'_> {
    ghost from_gives = { λ _ e. e ≡ Memory };

    fn from(_e: AllocError) -> Self {
        Stop::Memory
    }
}

impl<T: Drop> From<AllocFailed<T>> for Stop<'_> {
    ghost from_gives = { λ _ e. e ≡ Memory };

    fn from(_e: AllocFailed<T>) -> Self {
        Stop::Memory
    }
}

/// The place of the first token.
pub fn start_of(tokens: &[Token]) -> u64
    ensures { result ≡ start_of tokens.now }
{
    match tokens {
        [first, ..] => first.start,
        [] => 0,
    }
}

/// The next token is of this kind.
pub fn next_is(tokens: &[Token], kind: Kind) -> bool
    ensures { result ≡ next_is (class_of kind ∷ []) tokens.now }
{
    match tokens {
        [first, ..] => class_of(first.kind) == class_of(kind),
        [] => false,
    }
}

/// The tokens behind one of this kind, where one stands.
pub fn behind(tokens: &[Token], kind: Kind) -> Option<&[Token]>
    ensures { IsBehind (class_of kind ∷ []) tokens.now result }
{
    match tokens {
        [first, rest @ ..] => {
            if class_of(first.kind) == class_of(kind) {
                Some(rest)
            } else {
                None
            }
        }
        [] => None,
    }
}

/// Takes a token of this kind.
pub fn token<'a>(tokens: &'a [Token], kind: Kind) -> Result<(Token, &'a [Token]), Stop<'a>>
    ensures { Gives (λ t. t) result (token_at (class_of kind ∷ []) tokens.now) }
{
    match tokens {
        [first, rest @ ..] => {
            if class_of(first.kind) == class_of(kind) {
                Ok((*first, rest))
            } else {
                Err(Stop::Wrong(tokens))
            }
        }
        [] => Err(Stop::Wrong(tokens)),
    }
}

/// What was found, with a token of this kind taken behind it.
pub fn followed_by<'a, T: Drop>(
    found: Result<(T, &'a [Token]), Stop<'a>>,
    kind: Kind,
) -> Result<(T, &'a [Token]), Stop<'a>>
    ensures { Follows (class_of kind ∷ []) found.entry result }
{
    let (value, rest) = found?;
    let (_, rest) = token(rest, kind)?;
    Ok((value, rest))
}

/// Puts what was found behind the items of a list, and gives the tokens behind it.
pub fn add<'a, T: Drop>(
    items: &mut Vec<T>,
    found: Result<(T, &'a [Token]), Stop<'a>>,
) -> Result<&'a [Token], Stop<'a>>
    ensures { Adds found.entry items.old.items items.new.items result }
{
    let (item, rest) = found?;
    items.push(item)?;
    Ok(rest)
}

/// One of the kinds is this one.
fn has_kind(kinds: &[Kind], kind: Kind) -> bool
    ensures { result ≡ has (kinds_of kinds.now) (class_of kind) }
{
    match kinds {
        [first, rest @ ..] => class_of(kind) == class_of(*first) || has_kind(rest, kind),
        [] => false,
    }
}

/// The next token is of one of these kinds.
pub fn next_in(tokens: &[Token], kinds: &[Kind]) -> bool
    ensures { result ≡ next_is (kinds_of kinds.now) tokens.now }
{
    match tokens {
        [first, ..] => has_kind(kinds, first.kind),
        [] => false,
    }
}

/// Takes a token of one of these kinds.
pub fn one_of<'a>(tokens: &'a [Token], kinds: &[Kind]) -> Result<(Token, &'a [Token]), Stop<'a>>
    ensures { Gives (λ t. t) result (token_at (kinds_of kinds.now) tokens.now) }
{
    match tokens {
        [first, rest @ ..] => {
            if has_kind(kinds, first.kind) {
                Ok((*first, rest))
            } else {
                Err(Stop::Wrong(tokens))
            }
        }
        [] => Err(Stop::Wrong(tokens)),
    }
}

/// Why the next token is refused where no level may be opened: one of these kinds would open it, and any other is wrong.
pub fn refusal<'a>(tokens: &'a [Token], kinds: &[Kind]) -> Stop<'a>
    ensures { Refuses (kinds_of kinds.now) tokens.now result }
{
    match tokens {
        [first, rest @ ..] => {
            if has_kind(kinds, first.kind) {
                Stop::Deep(rest)
            } else {
                Stop::Wrong(tokens)
            }
        }
        [] => Stop::Wrong(tokens),
    }
}
