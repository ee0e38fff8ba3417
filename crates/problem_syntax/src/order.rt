//! Reading the statements of the search order and the sides.

ghost use Rattle.std.specs.Prelude.{◌≡◌};
ghost use Rattle.geo_tokens.specs.Reading.{next_is};
ghost use Rattle.geo_tokens.specs.Gives.{Gives};
ghost use Rattle.problem_data.specs.Marks.{side_words};
ghost use Rattle.problem_syntax.specs.Reading.{order_at, side_at, side_list_at, sides_at};
ghost use Rattle.problem_data.specs.View.{statement_view};

use crate::end::ended;
use crate::objects::names;
use geo_tokens::stop::{Stop, add, next_in, one_of, token};
use geo_tokens::token::{Keyword, Kind, Token};
use problem_data::tree::{OrderText, Side, SideText, SidesText, Statement};
use std::alloc::Global;

/// The statement of the search order.
#[tactic(auto, unfolding(crate::specs::Reading::order_at))]
pub fn order<'a>(
    alloc: Global,
    text: &[u8],
    tokens: &'a [Token],
) -> Result<(Statement, &'a [Token]), Stop<'a>>
    ensures { Gives statement_view result (order_at text.now tokens.now) }
{
    let (word, rest) = token(tokens, Kind::Word(Keyword::Order))?;
    let (names, rest) = names(alloc, text, rest)?;
    let order = OrderText {
        place: word.start,
        names,
    };
    ended(Statement::Order(order), rest)
}

/// A side.
fn side(tokens: &[Token]) -> Result<(SideText, &[Token]), Stop<'_>>
    ensures { Gives (λ s. s) result (side_at tokens.now) }
{
    let (word, rest) = one_of(
        tokens,
        &[Kind::Word(Keyword::Low), Kind::Word(Keyword::High)],
    )?;
    let side = match word.kind {
        Kind::Word(Keyword::Low) => Side::Low,
        _ => Side::High,
    };
    Ok((
        SideText {
            place: word.start,
            side,
        },
        rest,
    ))
}

/// A side begins here.
fn begins_side(tokens: &[Token]) -> bool
    ensures { result ≡ next_is side_words tokens.now }
{
    next_in(
        tokens,
        &[Kind::Word(Keyword::Low), Kind::Word(Keyword::High)],
    )
}

/// Sides, one at least.
#[tactic(auto, unfolding(crate::specs::Reading::side_list_at))]
fn side_list(alloc: Global, tokens: &[Token]) -> Result<(Vec<SideText>, &[Token]), Stop<'_>>
    ensures { Gives (λ v. v.items) result (side_list_at tokens.now) }
{
    let mut read = Vec::new(alloc);
    let mut rest = add(&mut read, side(tokens))?;
    'items: while begins_side(rest) {
        rest = add(&mut read, side(rest))?;
    }
    Ok((read, rest))
}

/// The statement of the sides.
#[tactic(auto, unfolding(crate::specs::Reading::sides_at))]
pub fn sides(alloc: Global, tokens: &[Token]) -> Result<(Statement, &[Token]), Stop<'_>>
    ensures { Gives statement_view result (sides_at tokens.now) }
{
    let (word, rest) = token(tokens, Kind::Word(Keyword::Sides))?;
    let (sides, rest) = side_list(alloc, rest)?;
    let sides = SidesText {
        place: word.start,
        sides,
    };
    ended(Statement::Sides(sides), rest)
}
