//! Reading the token line of a layout text, by one function for each production of the grammar.

ghost use Rattle.geo_tokens.specs.declared.token.Sym.TheVariants.{Comma, Slash};
ghost use Rattle.geo_tokens.specs.Words.{symbol};
ghost use Rattle.geo_tokens.specs.Reading.{many_at};
ghost use Rattle.geo_tokens.specs.Gives.{Gives};
ghost use Rattle.problem_syntax.specs.Reading.{next_at, int_at};
ghost use Rattle.layout_text.specs.Reading.{group_at, next_group_at, no_groups_at, some_groups_at, tuple_at, token_line_at, end_at};
ghost use Rattle.layout_text.specs.View.{group_view, group_views, token_view, token_views};

use crate::tree::{GroupText, TokenText};
use geo_tokens::stop::{Stop, add, behind, next_is, token};
use geo_tokens::token::{Keyword, Kind, Sym, Token, number_in};
use problem_data::tree::Int;
use problem_syntax::numbers::int;
use std::alloc::Global;

/// A comma and a whole number.
fn next_number(tokens: &[Token]) -> Result<(Int, &[Token]), Stop<'_>>
    ensures { Gives (λ i. i) result (next_at int_at tokens.now) }
{
    let Some(rest) = behind(tokens, Kind::Symbol(Sym::Comma)) else {
        return Err(Stop::Wrong(tokens));
    };
    int(rest)
}

/// Whole numbers, each behind a comma, as far as they go.
fn later_numbers(alloc: Global, tokens: &[Token]) -> Result<(Vec<Int>, &[Token]), Stop<'_>>
    ensures { Gives (λ v. v.items) result (many_at (symbol Comma) (next_at int_at) tokens.now) }
{
    let mut read = Vec::new(alloc);
    let mut rest = tokens;
    'items: while next_is(rest, Kind::Symbol(Sym::Comma)) {
        rest = add(&mut read, next_number(rest))?;
    }
    Ok((read, rest))
}

/// A group.
#[tactic(auto, unfolding(crate::specs::Reading::group_at))]
fn group(alloc: Global, tokens: &[Token]) -> Result<(GroupText, &[Token]), Stop<'_>>
    ensures { Gives group_view result (group_at tokens.now) }
{
    let (number, rest) = token(tokens, Kind::Number(0))?;
    let shape = number_in(number.kind);
    let (origin, rest) = later_numbers(alloc, rest)?;
    Ok((GroupText { shape, origin }, rest))
}

/// A slash and a group.
fn next_group(alloc: Global, tokens: &[Token]) -> Result<(GroupText, &[Token]), Stop<'_>>
    ensures { Gives group_view result (next_group_at tokens.now) }
{
    let Some(rest) = behind(tokens, Kind::Symbol(Sym::Slash)) else {
        return Err(Stop::Wrong(tokens));
    };
    group(alloc, rest)
}

/// Groups with slashes between them, one at least.
fn some_groups(alloc: Global, tokens: &[Token]) -> Result<(Vec<GroupText>, &[Token]), Stop<'_>>
    ensures { Gives group_views result (some_groups_at tokens.now) }
{
    let mut read = Vec::new(alloc);
    let mut rest = add(&mut read, group(alloc, tokens))?;
    'items: while next_is(rest, Kind::Symbol(Sym::Slash)) {
        rest = add(&mut read, next_group(alloc, rest))?;
    }
    Ok((read, rest))
}

/// A minus, for no groups.
fn no_groups(alloc: Global, tokens: &[Token]) -> Result<(Vec<GroupText>, &[Token]), Stop<'_>>
    ensures { Gives group_views result (no_groups_at tokens.now) }
{
    let Some(rest) = behind(tokens, Kind::Symbol(Sym::Minus)) else {
        return Err(Stop::Wrong(tokens));
    };
    Ok((Vec::new(alloc), rest))
}

/// The groups of a tuple.
#[tactic(auto, unfolding(crate::specs::Reading::tuple_at))]
pub fn groups(alloc: Global, tokens: &[Token]) -> Result<(Vec<GroupText>, &[Token]), Stop<'_>>
    ensures { Gives group_views result (tuple_at tokens.now) }
{
    if next_is(tokens, Kind::Symbol(Sym::Minus)) {
        no_groups(alloc, tokens)
    } else {
        some_groups(alloc, tokens)
    }
}

/// A token line.
#[tactic(auto, unfolding(crate::specs::Reading::token_line_at))]
fn token_line(alloc: Global, tokens: &[Token]) -> Result<(TokenText, &[Token]), Stop<'_>>
    ensures { Gives token_view result (token_line_at tokens.now) }
{
    let (word, rest) = token(tokens, Kind::Word(Keyword::Token))?;
    let (groups, rest) = groups(alloc, rest)?;
    Ok((
        TokenText {
            place: word.start,
            groups,
        },
        rest,
    ))
}

/// The token line, if there is one.
#[tactic(auto, unfolding(crate::specs::Reading::end_at))]
pub fn end_line(alloc: Global, tokens: &[Token]) -> Result<(Option<TokenText>, &[Token]), Stop<'_>>
    ensures { Gives token_views result (end_at tokens.now) }
{
    if !next_is(tokens, Kind::Word(Keyword::Token)) {
        return Ok((None, tokens));
    }
    let (line, rest) = token_line(alloc, tokens)?;
    Ok((Some(line), rest))
}
