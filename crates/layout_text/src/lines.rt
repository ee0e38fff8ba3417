//! Reading the lines of a layout text, by one function for each production of the grammar.

ghost use Rattle.geo_tokens.specs.Words.{names};
ghost use Rattle.geo_tokens.specs.Reading.{many_at};
ghost use Rattle.geo_tokens.specs.Gives.{Gives};
ghost use Rattle.layout_text.specs.Reading.{absent_at, line_at, placed_at, put_at};
ghost use Rattle.layout_text.specs.View.{line_view, line_views, put_view};

use crate::tree::{LineText, PutText};
use geo_tokens::stop::{Stop, add, behind, followed_by, next_is, token};
use geo_tokens::token::{Keyword, Kind, Token};
use problem_syntax::numbers::ints;
use rule_syntax::words::placed_name;
use std::alloc::Global;

/// A shape and coordinates.
#[tactic(auto, unfolding(crate::specs::Reading::placed_at))]
fn placed<'a>(
    alloc: Global,
    text: &[u8],
    tokens: &'a [Token],
) -> Result<(PutText, &'a [Token]), Stop<'a>>
    ensures { Gives put_view result (placed_at text.now tokens.now) }
{
    let Some(rest) = behind(tokens, Kind::Word(Keyword::As)) else {
        return Err(Stop::Wrong(tokens));
    };
    let shape = placed_name(alloc, text, rest);
    let (shape, rest) = followed_by(shape, Kind::Word(Keyword::At))?;
    let (origin, rest) = ints(alloc, rest)?;
    Ok((PutText::Placed(shape, origin), rest))
}

/// The word `absent`.
#[tactic(auto, unfolding(crate::specs::Reading::absent_at))]
fn absent(tokens: &[Token]) -> Result<(PutText, &[Token]), Stop<'_>>
    ensures { Gives put_view result (absent_at tokens.now) }
{
    let (word, rest) = token(tokens, Kind::Word(Keyword::Absent))?;
    Ok((PutText::Absent(word.start), rest))
}

/// Where a line puts its object.
#[tactic(auto, unfolding(crate::specs::Reading::put_at))]
fn put<'a>(
    alloc: Global,
    text: &[u8],
    tokens: &'a [Token],
) -> Result<(PutText, &'a [Token]), Stop<'a>>
    ensures { Gives put_view result (put_at text.now tokens.now) }
{
    if next_is(tokens, Kind::Word(Keyword::As)) {
        placed(alloc, text, tokens)
    } else {
        absent(tokens)
    }
}

/// A line.
#[tactic(auto, unfolding(crate::specs::Reading::line_at))]
fn line<'a>(
    alloc: Global,
    text: &[u8],
    tokens: &'a [Token],
) -> Result<(LineText, &'a [Token]), Stop<'a>>
    ensures { Gives line_view result (line_at text.now tokens.now) }
{
    let (name, rest) = placed_name(alloc, text, tokens)?;
    let (put, rest) = put(alloc, text, rest)?;
    Ok((LineText { name, put }, rest))
}

/// Lines, as far as they go.
pub fn lines<'a>(
    alloc: Global,
    text: &[u8],
    tokens: &'a [Token],
) -> Result<(Vec<LineText>, &'a [Token]), Stop<'a>>
    ensures { Gives line_views result (many_at names (line_at text.now) tokens.now) }
{
    let mut read = Vec::new(alloc);
    let mut rest = tokens;
    'items: while next_is(rest, Kind::Name) {
        rest = add(&mut read, line(alloc, text, rest))?;
    }
    Ok((read, rest))
}
