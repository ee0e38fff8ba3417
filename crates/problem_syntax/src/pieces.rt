//! Reading the ranges of an object by their pieces. In version 1 a range is one piece.

ghost use Rattle.std.specs.Prelude.{◌≡◌};
ghost use Rattle.geo_tokens.specs.Gives.{Gives};
ghost use Rattle.problem_data.specs.View.{pieces_view, pieces_views};
ghost use Rattle.problem_syntax.specs.Reading.{next_at, listed_at, range_at, one_piece_at, pieces_at, each_pieces_at};

use crate::numbers::{begins_int, range};
use geo_tokens::stop::{Stop, add, behind, next_is};
use geo_tokens::token::{Kind, Sym, Token};
use problem_data::tree::{PiecesText, RangeText};
use std::alloc::Global;

/// A range alone.
fn one_range(alloc: Global, tokens: &[Token]) -> Result<(Vec<RangeText>, &[Token]), Stop<'_>>
    ensures { Gives (λ v. v.items) result (one_piece_at tokens.now) }
{
    let (only, rest) = range(tokens)?;
    let mut read = Vec::new(alloc);
    read.push(only)?;
    Ok((read, rest))
}

/// A comma and a range.
fn next_range(tokens: &[Token]) -> Result<(RangeText, &[Token]), Stop<'_>>
    ensures { Gives (λ r. r) result (next_at range_at tokens.now) }
{
    let Some(rest) = behind(tokens, Kind::Symbol(Sym::Comma)) else {
        return Err(Stop::Wrong(tokens));
    };
    range(rest)
}

/// Ranges with commas between them, one at least.
fn listed_ranges(alloc: Global, tokens: &[Token]) -> Result<(Vec<RangeText>, &[Token]), Stop<'_>>
    ensures { Gives (λ v. v.items) result (listed_at range_at tokens.now) }
{
    let mut read = Vec::new(alloc);
    let mut rest = add(&mut read, range(tokens))?;
    'items: while next_is(rest, Kind::Symbol(Sym::Comma)) {
        rest = add(&mut read, next_range(rest))?;
    }
    Ok((read, rest))
}

/// The ranges that are the pieces of one, in a text of version 2 or of version 1.
#[tactic(auto, unfolding(crate::specs::Reading::pieces_at))]
fn piece_ranges(
    alloc: Global,
    second: bool,
    tokens: &[Token],
) -> Result<(Vec<RangeText>, &[Token]), Stop<'_>>
    ensures { Gives (λ v. v.items) result (pieces_at second tokens.now) }
{
    if second {
        listed_ranges(alloc, tokens)
    } else {
        one_range(alloc, tokens)
    }
}

/// The range of a coordinate, by its pieces.
fn pieces(alloc: Global, second: bool, tokens: &[Token]) -> Result<(PiecesText, &[Token]), Stop<'_>>
    ensures { Gives pieces_view result (pieces_at second tokens.now) }
{
    let (ranges, rest) = piece_ranges(alloc, second, tokens)?;
    Ok((PiecesText { ranges }, rest))
}

/// The ranges of an object, one at least.
#[tactic(auto, unfolding(crate::specs::Reading::each_pieces_at))]
pub fn each_pieces(
    alloc: Global,
    second: bool,
    tokens: &[Token],
) -> Result<(Vec<PiecesText>, &[Token]), Stop<'_>>
    ensures { Gives pieces_views result (each_pieces_at second tokens.now) }
{
    let mut read = Vec::new(alloc);
    let mut rest = add(&mut read, pieces(alloc, second, tokens))?;
    'items: while begins_int(rest) {
        rest = add(&mut read, pieces(alloc, second, rest))?;
    }
    Ok((read, rest))
}
