//! Reading the shapes of an object. In version 2 the word `absent` may stand behind them.

ghost use Rattle.std.specs.Prelude.{◌≡◌};
ghost use Rattle.geo_tokens.specs.Gives.{Gives};
ghost use Rattle.problem_syntax.specs.Reading.{some_absent_at, next_is_name, names_alone_at, names_or_absent_at, shapes_at};
ghost use Rattle.problem_syntax.specs.ShapeNames.{shape_list};

use crate::objects::{names, next_name};
use geo_tokens::stop::{Stop, add, behind, next_is, token};
use geo_tokens::token::{Keyword, Kind, Sym, Token};
use rule_syntax::tree::PlacedName;
use rule_syntax::words::placed_name;
use std::alloc::Global;

/// The names of the shapes of an object, and the place of the word `absent` where it stands.
#[derive(Drop)]
pub struct ShapeNames {
    pub names: Vec<PlacedName>,
    pub absent: Option<u64>,
}

/// A comma stands here, and a name behind it.
fn next_is_name(tokens: &[Token]) -> bool
    ensures { result ≡ next_is_name tokens.now }
{
    match tokens {
        [_, rest @ ..] => next_is(tokens, Kind::Symbol(Sym::Comma)) && next_is(rest, Kind::Name),
        [] => false,
    }
}

/// The place of the word `absent` behind a comma, where a comma stands.
fn some_absent(tokens: &[Token]) -> Result<(Option<u64>, &[Token]), Stop<'_>>
    ensures { Gives (λ a. a) result (some_absent_at tokens.now) }
{
    let Some(rest) = behind(tokens, Kind::Symbol(Sym::Comma)) else {
        return Ok((None, tokens));
    };
    let (word, rest) = token(rest, Kind::Word(Keyword::Absent))?;
    Ok((Some(word.start), rest))
}

/// Names with commas between them, one at least, and nothing behind them.
fn names_alone<'a>(
    alloc: Global,
    text: &[u8],
    tokens: &'a [Token],
) -> Result<(ShapeNames, &'a [Token]), Stop<'a>>
    ensures { Gives shape_list result (names_alone_at text.now tokens.now) }
{
    let (names, rest) = names(alloc, text, tokens)?;
    Ok((
        ShapeNames {
            names,
            absent: None,
        },
        rest,
    ))
}

/// Names with commas between them, one at least, and behind them the word where it stands.
fn names_or_absent<'a>(
    alloc: Global,
    text: &[u8],
    tokens: &'a [Token],
) -> Result<(ShapeNames, &'a [Token]), Stop<'a>>
    ensures { Gives shape_list result (names_or_absent_at text.now tokens.now) }
{
    let mut names = Vec::new(alloc);
    let mut rest = add(&mut names, placed_name(alloc, text, tokens))?;
    'items: while next_is_name(rest) {
        rest = add(&mut names, next_name(alloc, text, rest))?;
    }
    let (absent, rest) = some_absent(rest)?;
    Ok((ShapeNames { names, absent }, rest))
}

/// The shapes of an object, in a text of version 2 or of version 1.
#[tactic(auto, unfolding(crate::specs::Reading::shapes_at))]
pub fn shapes<'a>(
    alloc: Global,
    text: &[u8],
    second: bool,
    tokens: &'a [Token],
) -> Result<(ShapeNames, &'a [Token]), Stop<'a>>
    ensures { Gives shape_list result (shapes_at text.now second tokens.now) }
{
    if second {
        names_or_absent(alloc, text, tokens)
    } else {
        names_alone(alloc, text, tokens)
    }
}
