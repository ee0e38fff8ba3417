//! Reading statements and the whole of a text, by one function for each production of the grammar.

ghost use Rattle.std.specs.Prelude.{◌≡◌};
ghost use Rattle.geo_tokens.specs.Reading.{next_is, many_at};
ghost use Rattle.geo_tokens.specs.Gives.{Gives};
ghost use Rattle.problem_data.specs.Grammar.{is_second};
ghost use Rattle.problem_data.specs.Marks.{statement_firsts};
ghost use Rattle.problem_syntax.specs.Reading.{statement_at, problem_rest_at, problem_at};
ghost use Rattle.problem_data.specs.View.{statement_view, statement_views, problem_view};

use crate::numbers::int_of;
use crate::objects::{object, shape};
use crate::order::{order, sides};
use crate::rules::{macro_statement, rule};
use geo_tokens::stop::{Stop, add, behind, followed_by, next_in, next_is, token};
use geo_tokens::token::{Keyword, Kind, Token, number_in};
use problem_data::tree::{Int, ProblemText, Statement};
use std::alloc::Global;

/// A statement of a text of version 2 or of version 1, in which up to `levels` levels may be
/// opened.
#[tactic(auto, unfolding(crate::specs::Reading::statement_at))]
fn statement<'a>(
    alloc: Global,
    text: &[u8],
    levels: u32,
    second: bool,
    tokens: &'a [Token],
) -> Result<(Statement, &'a [Token]), Stop<'a>>
    ensures { Gives statement_view result (statement_at text.now levels second tokens.now) }
{
    if next_is(tokens, Kind::Word(Keyword::Shape)) {
        shape(alloc, text, tokens)
    } else if next_is(tokens, Kind::Word(Keyword::Object)) {
        object(alloc, text, second, tokens)
    } else if next_is(tokens, Kind::Word(Keyword::Order)) {
        order(alloc, text, tokens)
    } else if next_is(tokens, Kind::Word(Keyword::Sides)) {
        sides(alloc, tokens)
    } else if next_is(tokens, Kind::Word(Keyword::Macro)) {
        macro_statement(alloc, text, levels, tokens)
    } else {
        rule(alloc, text, levels, tokens)
    }
}

/// A statement begins here.
fn begins_statement(tokens: &[Token]) -> bool
    ensures { result ≡ next_is statement_firsts tokens.now }
{
    next_in(
        tokens,
        &[
            Kind::Word(Keyword::Shape),
            Kind::Word(Keyword::Object),
            Kind::Word(Keyword::Order),
            Kind::Word(Keyword::Sides),
            Kind::Word(Keyword::Macro),
            Kind::Word(Keyword::Rule),
        ],
    )
}

/// Statements, as far as they go.
fn statements<'a>(
    alloc: Global,
    text: &[u8],
    levels: u32,
    second: bool,
    tokens: &'a [Token],
) -> Result<(Vec<Statement>, &'a [Token]), Stop<'a>>
    ensures { Gives statement_views result
        (many_at statement_firsts (statement_at text.now levels second) tokens.now) }
{
    let mut read = Vec::new(alloc);
    let mut rest = tokens;
    'items: while begins_statement(rest) {
        let one = statement(alloc, text, levels, second, rest);
        rest = add(&mut read, one)?;
    }
    Ok((read, rest))
}

/// Whether a text is of version 2, where this is its first number.
fn is_second(number: Token) -> bool
    ensures { result ≡ is_second number }
{
    number_in(number.kind) == 2
}

/// What stands behind the number of dimensions of a text.
fn problem_rest<'a>(
    alloc: Global,
    text: &[u8],
    levels: u32,
    second: bool,
    version: Int,
    dims: Int,
    tokens: &'a [Token],
) -> Result<(ProblemText, &'a [Token]), Stop<'a>>
    ensures { Gives problem_view result
        (problem_rest_at text.now levels second version dims tokens.now) }
{
    let statements = statements(alloc, text, levels, second, tokens);
    let (statements, rest) = followed_by(statements, Kind::Word(Keyword::End))?;
    Ok((
        ProblemText {
            version,
            dims,
            statements,
        },
        rest,
    ))
}

/// What a text says, in which up to `levels` levels may be open at a time, and the tokens behind it.
#[tactic(auto, unfolding(crate::specs::Reading::problem_at))]
pub fn problem<'a>(
    alloc: Global,
    text: &[u8],
    levels: u32,
    tokens: &'a [Token],
) -> Result<(ProblemText, &'a [Token]), Stop<'a>>
    ensures { Gives problem_view result (problem_at text.now levels tokens.now) }
{
    let Some(rest) = behind(tokens, Kind::Word(Keyword::Geost)) else {
        return Err(Stop::Wrong(tokens));
    };
    let version = token(rest, Kind::Number(0));
    let (version, rest) = followed_by(version, Kind::Word(Keyword::Dims))?;
    let (dims, rest) = token(rest, Kind::Number(0))?;
    problem_rest(
        alloc,
        text,
        levels,
        is_second(version),
        int_of(version),
        int_of(dims),
        rest,
    )
}
